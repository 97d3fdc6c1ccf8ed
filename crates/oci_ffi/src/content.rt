//! Contents beside their descriptors.
ghost use Rattle.std.specs.Prelude.{◌≡◌, ◌≤◌, ◌⊎◌, IsUtf8, length};
ghost use Rattle.oci_base.specs.Digest.{IsDigestText};
ghost use Rattle.oci_content.specs.Content.{IsBy, IsContentOf, IsOther};
ghost use Rattle.oci_content.specs.declared.algorithm.Algorithm.{Algorithm};
ghost use Rattle.oci_content.specs.declared.checksum.Checksum.{Checksum};

use crate::status::{
    DONE, INVALID_DIGEST, INVALID_UTF8, OTHER_DIGEST, OTHER_SIZE, UNKNOWN_ALGORITHM,
};
use oci_content::{Verdict, verify_bytes};
use oci_text::is_digest;
use std::str;

/// Compares a content with the digest and the size that a descriptor says of it (image specification, "Content Descriptors",
/// "Verification"). Returns CIDERGLEN_DONE if it has both, CIDERGLEN_OTHER_SIZE or CIDERGLEN_OTHER_DIGEST if it has another, and
/// CIDERGLEN_UNKNOWN_ALGORITHM if the digest is by none of sha256, sha384 and sha512. Returns CIDERGLEN_INVALID_DIGEST if the text is
/// not a digest, or CIDERGLEN_INVALID_UTF8 if it is not UTF-8. Allocates nothing.
#[unsafe(no_mangle)]
pub extern "C" fn ciderglen_verify(digest: &[u8], size: u64, content: &[u8]) -> u32
    ensures done { result ≡ DONE → IsContentOf digest.now size content.now }
    ensures size { result ≡ OTHER_SIZE → ¬ (length content.now ≡ size) }
    ensures other { result ≡ OTHER_DIGEST → (length content.now ≡ size) × ((found : Checksum) × IsOther digest.now content.now found) }
    ensures unknown { result ≡ UNKNOWN_ALGORITHM → (length content.now ≡ size) × ((a : Algorithm) → ¬ IsBy a digest.now) }
    ensures refused { result ≡ INVALID_DIGEST → ¬ IsDigestText digest.now }
    ensures utf8 { result ≡ INVALID_UTF8 → ¬ IsUtf8 digest.now }
    ensures status { (result ≡ DONE) ⊎ ((INVALID_UTF8 ≤ result) × (result ≤ UNKNOWN_ALGORITHM)) }
{
    match str::from_utf8(digest) {
        Ok(digest) => {
            if is_digest(digest) {
                verdict_status(digest, size, content)
            } else {
                INVALID_DIGEST
            }
        }
        Err(_) => INVALID_UTF8,
    }
}

/// The status of the verdict on the content.
fn verdict_status(digest: &str, size: u64, content: &[u8]) -> u32
    ensures done { result ≡ DONE → IsContentOf digest.now size content.now }
    ensures size { result ≡ OTHER_SIZE → ¬ (length content.now ≡ size) }
    ensures other { result ≡ OTHER_DIGEST → (length content.now ≡ size) × ((found : Checksum) × IsOther digest.now content.now found) }
    ensures unknown { result ≡ UNKNOWN_ALGORITHM → (length content.now ≡ size) × ((a : Algorithm) → ¬ IsBy a digest.now) }
    ensures refused { ¬ (result ≡ INVALID_DIGEST) }
    ensures utf8 { ¬ (result ≡ INVALID_UTF8) }
    ensures status { (result ≡ DONE) ⊎ ((INVALID_UTF8 ≤ result) × (result ≤ UNKNOWN_ALGORITHM)) }
{
    match verify_bytes(digest, size, content) {
        Verdict::Same => DONE,
        Verdict::Shorter(_) | Verdict::Longer => OTHER_SIZE,
        Verdict::OtherDigest(_) => OTHER_DIGEST,
        Verdict::Unjudged => UNKNOWN_ALGORITHM,
    }
}
