//! Media types (RFC 6838, section 4.2).
ghost use Rattle.std.specs.Prelude.{◌≡◌};
ghost use Rattle.oci_grammars.specs.Decided as decided;

use crate::classes::Class;
use crate::cuts::cut;

pub(crate) fn is_media_type(text: &[u8]) -> bool
    ensures { result ≡ decided.is_media_type text.now }
{
    let (main, sub) = cut(text, b'/');
    is_restricted_name(main) & is_restricted_name(sub)
}

fn is_restricted_name(text: &[u8]) -> bool
    ensures { result ≡ decided.is_restricted_name text.now }
{
    Class::LetterOrDigit.begins(text, Class::Restricted) & (text.len() <= 127)
}
