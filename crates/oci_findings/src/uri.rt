//! The URI of a file (RFC 3986).
ghost use Rattle.std.specs.Prelude.{◌≡◌, IfOk, string_bytes};
ghost use Rattle.percent_encoding.specs.Percent.{percent_decode};

use percent_encoding::{AsciiSet, NON_ALPHANUMERIC, ascii_set, percent_encode};
use std::alloc::{AllocError, Global};

/// What is escaped: all but letters, digits, `-`, `.`, `_` and `~` (RFC 3986, section 2.3), and `/`, which separates folders.
const ESCAPED: AsciiSet = ascii_set!(
    NON_ALPHANUMERIC
        .remove(b'-')
        .remove(b'.')
        .remove(b'_')
        .remove(b'~')
        .remove(b'/')
);

/// The URI of a file by its path: a relative reference, or with the scheme `file` if the path is absolute (RFC 8089). Fails if out of
/// memory.
pub fn uri_of(path: &str, alloc: Global) -> Result<String, AllocError> {
    let mut uri = String::new(alloc);
    if path.starts_with('/') {
        uri.push_str("file://")?;
    }
    let encoded = encoded(path.strip_prefix("./").unwrap_or(path).as_bytes(), alloc)?;
    uri.push_str(encoded.as_str())?;
    Ok(uri)
}

/// The bytes of a path with the escapes of a URI, which lead back to them.
fn encoded(path: &[u8], alloc: Global) -> Result<String, AllocError>
    ensures { IfOk result (λ t. percent_decode (string_bytes t) ≡ path.now) }
{
    let mut text = String::new(alloc);
    percent_encode(path, ESCAPED).append_to(&mut text)?;
    Ok(text)
}
