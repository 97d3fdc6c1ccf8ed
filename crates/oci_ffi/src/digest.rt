//! Digests.
ghost use Rattle.std.specs.Prelude.{◌≡◌, ◌⊎◌, IsUtf8};
ghost use Rattle.oci_base.specs.Digest.{IsDigestText};

use crate::status::{DONE, INVALID_DIGEST, INVALID_UTF8};
use oci_text::is_digest;
use std::str;

/// Returns CIDERGLEN_DONE if the text is a digest (image specification, "Descriptor", "Digests"), else CIDERGLEN_INVALID_DIGEST, or
/// CIDERGLEN_INVALID_UTF8 if it is not UTF-8. Allocates nothing.
#[unsafe(no_mangle)]
pub extern "C" fn ciderglen_digest_check(text: &[u8]) -> u32
    ensures done { result ≡ DONE → IsDigestText text.now }
    ensures refused { result ≡ INVALID_DIGEST → ¬ IsDigestText text.now }
    ensures utf8 { result ≡ INVALID_UTF8 → ¬ IsUtf8 text.now }
    ensures status { (result ≡ DONE) ⊎ ((result ≡ INVALID_DIGEST) ⊎ (result ≡ INVALID_UTF8)) }
{
    match str::from_utf8(text) {
        Ok(text) => {
            if is_digest(text) {
                DONE
            } else {
                INVALID_DIGEST
            }
        }
        Err(_) => INVALID_UTF8,
    }
}
