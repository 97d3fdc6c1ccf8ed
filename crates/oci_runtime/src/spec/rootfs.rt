//! A specification whose root's path is made canonical.
ghost use Rattle.std.specs.Prelude.{◌≡◌, ◌⊎◌, Some, IfErr, OnOk, OnErr, IfSome, IsSome, IsNone, string_bytes, codes, unwrap_or, false};
ghost use Rattle.std.specs.Fn.{FnReturnsAt};
ghost use Rattle.oci_base.specs.Refused.{Refuses};
ghost use Rattle.oci_runtime_records.specs.Answers.{Answered};
ghost use Rattle.oci_runtime_records.specs.Canonical.{Resolves, Stops};

use super::Spec;
use oci_base::{OciSpecError, Result};
use oci_runtime_records::{Answer, canonicalize};
use std::alloc::Global;

impl Spec {
    /// Replaces the root's path by what the resolver makes of it (runtime specification, "Configuration", "Root", `path`): it is asked
    /// once for an absolute path; else for the bundle, and then for the path joined to its result. An absent `readonly` becomes false.
    /// Fails with `Other` if there is no root, and with the resolver's own error; the specification is unchanged after an error.
    pub fn canonicalize_rootfs<R: Answer, F: Fn(&str) -> R>(
        &mut self,
        alloc: Global,
        bundle: &str,
        resolver: &F,
    ) -> Result<()>
        requires { F.IsAlwaysCallable resolver.now }
        ensures rooted { OnOk result (IsSome self.old.root × IsSome self.new.root) }
        ensures resolved { OnOk result (IfSome self.old.root (λ old. IfSome self.new.root (λ new. Resolves (Answered (FnReturnsAt F.Fn resolver.now) R.gives) bundle.now (string_bytes old.path) (string_bytes new.path)))) }
        ensures readonly { OnOk result (IfSome self.old.root (λ old. IfSome self.new.root (λ new. new.readonly ≡ Some (unwrap_or old.readonly false)))) }
        ensures others { OnOk result (self.new ≡ record self.old { root = self.new.root }) }
        ensures unrooted { IsNone self.old.root → IfErr result (Refuses (Some (codes "no root path provided for canonicalization"))) }
        ensures refused { IfErr result (λ e. IfSome self.old.root (λ old. (e ≡ OciSpecError.Memory) ⊎ Stops (Answered (FnReturnsAt F.Fn resolver.now) R.gives) bundle.now (string_bytes old.path) (λ p. Answered (FnReturnsAt F.Fn resolver.now) R.refuses p e))) }
        ensures same { OnErr result (self.new ≡ self.old) }
    {
        canonicalize(&mut self.root, alloc, bundle, resolver)
    }
}
