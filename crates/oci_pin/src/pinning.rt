//! Pinning: what a tag may come to mean otherwise is named by its digest (image specification, "Content Descriptors").
ghost use Rattle.std.specs.Prelude.{◌≡◌, ◌↔◌, ℕ, List, Some, None, IfOk, IfErr};
ghost use Rattle.oci_base.specs.Digest.{IsDigest};
ghost use Rattle.oci_reference.specs.Accepted.{Accepted};
ghost use Rattle.oci_reference.specs.Parts.{Parts};
ghost use Rattle.oci_reference.specs.Replaced.{IsSupported};
ghost use Rattle.oci_reference.specs.Whole.{whole};

use oci_base::{OciSpecError, Result};
use oci_descriptor::Descriptor;
use oci_reference::Reference;
use std::alloc::Global;

/// Returns the reference with the digest of a descriptor's content in place of its tag and digest, and with the same registry,
/// repository and mirror. If the reference was parsed, the text of the result parses exactly if the digest is by `sha256`,
/// `sha384` or `sha512`, and then to the result. Fails with `Memory` alone.
pub fn pin(alloc: Global, reference: &Reference, descriptor: &Descriptor) -> Result<Reference>
    ensures ok { IfOk result (λ p. p ≡ record reference.now { tag = None; digest = Some descriptor.now.digest }) }
    ensures accepted { IfOk result (λ p. (t : List ℕ) → Accepted t reference.now
        → ((q : Parts) × Accepted (whole p) q) ↔ ((a : List ℕ) × (e : List ℕ) × IsDigest descriptor.now.digest a e × IsSupported a)) }
    ensures alone { IfOk result (λ p. (t : List ℕ) (q : Parts) → Accepted t reference.now → Accepted (whole p) q → q ≡ p) }
    ensures err { IfErr result (λ e. e ≡ OciSpecError.Memory) }
{
    let digest = String::from_str(alloc, descriptor.digest().as_ref())?;
    reference.clone_with_digest(digest)
}
