//! The path of a root, made canonical (runtime specification, "Configuration", "Root", `path`).
ghost use Rattle.std.specs.Prelude.{◌≡◌, ◌⊎◌, Some, IfOk, IfErr, IfSome, IsSome, IsNone, OnOk, OnErr, codes, false, string_bytes, unwrap_or};
ghost use Rattle.std.specs.Fn.{FnReturnsAt};
ghost use Rattle.oci_base.specs.Refused.{Refuses};
ghost use Rattle.oci_runtime_records.specs.Answers.{Answered};
ghost use Rattle.oci_runtime_records.specs.Canonical.{is_absolute, joined, Resolves, Stops};

use crate::Root;
use crate::answer::Answer;
use oci_base::{OciSpecError, Result};
use std::alloc::{AllocError, Global};

/// Replaces a root's path by what the resolver makes of it: it is asked once for an absolute path; else for the bundle, and then for
/// the path joined to its result. An absent `readonly` becomes false. Fails with `Other` if there is no root, and with the resolver's
/// own error; the root is unchanged after an error.
pub fn canonicalize<R: Answer, F: Fn(&str) -> R>(
    root: &mut Option<Root>,
    alloc: Global,
    bundle: &str,
    resolver: &F,
) -> Result<()>
    requires { F.IsAlwaysCallable resolver.now }
    ensures rooted { OnOk result (IsSome root.old × IsSome root.new) }
    ensures resolved { OnOk result (IfSome root.old (λ old. IfSome root.new (λ new. Resolves (Answered (FnReturnsAt F.Fn resolver.now) R.gives) bundle.now (string_bytes old.path) (string_bytes new.path)))) }
    ensures readonly { OnOk result (IfSome root.old (λ old. IfSome root.new (λ new. new.readonly ≡ Some (unwrap_or old.readonly false)))) }
    ensures unrooted { IsNone root.old → IfErr result (Refuses (Some (codes "no root path provided for canonicalization"))) }
    ensures refused { IfErr result (λ e. IfSome root.old (λ old. (e ≡ OciSpecError.Memory) ⊎ Stops (Answered (FnReturnsAt F.Fn resolver.now) R.gives) bundle.now (string_bytes old.path) (λ p. Answered (FnReturnsAt F.Fn resolver.now) R.refuses p e))) }
    ensures same { OnErr result (root.new ≡ root.old) }
{
    let Some(found) = root else {
        return Err(no_root(alloc));
    };
    let path = canonical(found.path().as_str(), bundle, resolver)?;
    let readonly = found.readonly().unwrap_or(false);
    found.set_path(path).set_readonly(Some(readonly));
    Ok(())
}

// what is answered where there is no root
fn no_root(alloc: Global) -> OciSpecError
    ensures { Refuses (Some (codes "no root path provided for canonicalization")) result }
{
    match String::from_str(alloc, "no root path provided for canonicalization") {
        Ok(text) => OciSpecError::Other(text),
        Err(_) => OciSpecError::Memory,
    }
}

// whether a path begins with a slash
fn is_absolute(path: &str) -> bool
    ensures { result ≡ is_absolute path.now }
{
    match path.as_bytes().first() {
        Some(c) => *c == b'/',
        None => false,
    }
}

// a path behind a folder
fn join(mut folder: String, path: &str) -> std::result::Result<String, AllocError>
    ensures { IfOk result (λ t. string_bytes t ≡ joined (string_bytes folder) path.now) }
{
    let follows = match folder.as_bytes().last() {
        Some(c) => *c == b'/',
        None => true,
    };
    if !follows {
        folder.push_str("/")?;
    }
    folder.push_str(path)?;
    Ok(folder)
}

// what the resolver answers for a text
fn ask<R: Answer, F: Fn(&str) -> R>(path: &str, resolver: &F) -> Result<String>
    requires { F.IsAlwaysCallable resolver.now }
    ensures ok { IfOk result (λ t. Answered (FnReturnsAt F.Fn resolver.now) R.gives path.now (string_bytes t)) }
    ensures err { IfErr result (λ e. Answered (FnReturnsAt F.Fn resolver.now) R.refuses path.now e) }
{
    resolver(path).answer()
}

// what the resolver makes of a root's path
#[tactic(auto, using(crate::proofs::Canonicals::resolved, crate::proofs::Canonicals::stopped))]
fn canonical<R: Answer, F: Fn(&str) -> R>(path: &str, bundle: &str, resolver: &F) -> Result<String>
    requires { F.IsAlwaysCallable resolver.now }
    ensures ok { IfOk result (λ t. Resolves (Answered (FnReturnsAt F.Fn resolver.now) R.gives) bundle.now path.now (string_bytes t)) }
    ensures err { IfErr result (λ e. (e ≡ OciSpecError.Memory) ⊎ Stops (Answered (FnReturnsAt F.Fn resolver.now) R.gives) bundle.now path.now (λ p. Answered (FnReturnsAt F.Fn resolver.now) R.refuses p e)) }
{
    if is_absolute(path) {
        return ask(path, resolver);
    }
    let folder = ask(bundle, resolver)?;
    let whole = join(folder, path)?;
    ask(whole.as_str(), resolver)
}
