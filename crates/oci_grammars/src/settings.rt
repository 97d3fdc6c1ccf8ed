//! Texts of an image's configuration.
ghost use Rattle.std.specs.Prelude.{◌≡◌};
ghost use Rattle.oci_grammars.specs.Decided as decided;

use crate::classes::Class;
use crate::cuts::cut;
use crate::numbers::is_number_or_range;

pub(crate) fn is_port_spec(text: &[u8]) -> bool
    ensures { result ≡ decided.is_port_spec text.now }
{
    let (ports, protocol) = cut(text, b'/');
    is_number_or_range(ports, 1, 65_535) & (!text.contains(&b'/') | is_protocol(protocol))
}

fn is_protocol(text: &[u8]) -> bool
    ensures { result ≡ decided.is_protocol text.now }
{
    (text == b"tcp".as_slice()) | ((text == b"udp".as_slice()) | (text == b"sctp".as_slice()))
}

pub(crate) fn is_user_spec(text: &[u8]) -> bool
    ensures { result ≡ decided.is_user_spec text.now }
{
    let (user, group) = cut(text, b':');
    Class::NotColon.has_some(user) & (!text.contains(&b':') | Class::NotColon.has_some(group))
}
