//! Base64 (RFC 4648, section 4).
ghost use Rattle.std.specs.Prelude.{◌≡◌};
ghost use Rattle.oci_grammars.specs.Decided as decided;

use crate::classes::Class;

pub(crate) fn is_base64(text: &[u8]) -> bool
    ensures { result ≡ decided.is_base64 text.now }
{
    let (body, padding) = Class::Base64.run(text);
    let padded = padding.is_empty()
        | ((padding == b"=".as_slice()) | (padding == b"==".as_slice()));
    (Class::Base64.has_all(body) & padded) & (text.len() % 4 == 0)
}
