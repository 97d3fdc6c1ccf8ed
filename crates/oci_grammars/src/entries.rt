//! Entries of environments, and annotation keys.
ghost use Rattle.std.specs.Prelude.{◌≡◌};
ghost use Rattle.oci_grammars.specs.Decided as decided;

use crate::classes::Class;
use crate::cuts::cut;
use crate::parts::Part;

pub(crate) fn is_environment_entry(text: &[u8]) -> bool
    ensures { result ≡ decided.is_environment_entry text.now }
{
    let (name, _) = cut(text, b'=');
    text.contains(&b'=') & Class::NotEquals.has_some(name)
}

pub(crate) fn is_portable_entry(text: &[u8]) -> bool
    ensures { result ≡ decided.is_portable_entry text.now }
{
    let (name, _) = cut(text, b'=');
    text.contains(&b'=') & Class::NameStart.begins(name, Class::Word)
}

pub(crate) fn is_reverse_domain(text: &[u8]) -> bool
    ensures { result ≡ decided.is_reverse_domain text.now }
{
    let (before_slash, _) = cut(text, b'/');
    let (name, _) = cut(before_slash, b'#');
    let (first, rest) = cut(name, b'.');
    Class::Label.has_some(first) & Part::KeyLabel.joins(rest, b'.')
}
