//! Where contents lie in an image layout.
ghost use Rattle.std.specs.Prelude.{◌≡◌, ℕ, List, IfOk, string_bytes};
ghost use Rattle.oci_base.specs.Digest.{IsDigest};
ghost use Rattle.oci_layout.specs.Names.{IsPathOf};
ghost use Rattle.oci_layout.specs.Paths.{path_of};

use oci_text::Digest;
use std::alloc::{AllocError, Global};

/// The path of a digest's content in its layout, as `blobs/sha256/..` (image specification, "Image Layout", "Blobs"): three names of
/// files, of which none leads out of the folder. Fails if out of memory.
pub fn blob_path(alloc: Global, digest: &Digest) -> Result<String, AllocError>
    ensures parts { IfOk result (λ path. (algorithm encoded : List ℕ) → IsDigest digest.now algorithm encoded → string_bytes path ≡ path_of algorithm encoded) }
    ensures path { IfOk result (λ path. IsPathOf digest.now (string_bytes path)) }
{
    let algorithm = digest.algorithm().as_ref();
    let encoded = digest.digest();
    format!(in alloc; "blobs/{algorithm}/{encoded}")
}
