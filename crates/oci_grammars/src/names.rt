//! Components of names: runs of letters and digits, with separators between.
ghost use Rattle.std.specs.Prelude.{◌≡◌, ◌↔◌, IsTrue};
ghost use Rattle.oci_grammars.specs.Decided as tests;
ghost use Rattle.oci_grammars.specs.DecidedNames as decided;
ghost use Rattle.oci_grammars.specs.RefNames.{IsFullReference};

use crate::classes::Class;
use crate::cuts::cut;
use crate::parts::Part;
use oci_base::classes::is_lower;
use oci_reference::parts;

/// Where in a component a text stands.
#[derive(Clone, Copy)]
enum Spot {
    BeforeRun,
    InRun,
    AfterOne,
    InDashes,
    NoName,
}

impl Spot {
    fn next_ref(self, b: u8) -> Self
        ensures { result ≡ decided.next_ref self b }
    {
        match self {
            Spot::BeforeRun | Spot::InRun | Spot::AfterOne if b.is_ascii_alphanumeric() =>
                Spot::InRun,
            Spot::InRun if b == b'-' => Spot::AfterOne,
            Spot::InRun if b"-._:@+".contains(&b) => Spot::BeforeRun,
            Spot::AfterOne if b == b'-' => Spot::BeforeRun,
            _ => Spot::NoName,
        }
    }

    fn next_label(self, b: u8) -> Self
        ensures { result ≡ decided.next_label self b }
    {
        match self {
            Spot::BeforeRun | Spot::InRun | Spot::InDashes if b.is_ascii_alphanumeric() =>
                Spot::InRun,
            Spot::InRun | Spot::InDashes if b == b'-' => Spot::InDashes,
            _ => Spot::NoName,
        }
    }

    fn next_path(self, b: u8) -> Self
        ensures { result ≡ decided.next_path self b }
    {
        match self {
            Spot::NoName => Spot::NoName,
            _ if is_lower(b) => Spot::InRun,
            Spot::InRun if b == b'.' => Spot::BeforeRun,
            Spot::InRun if b == b'_' => Spot::AfterOne,
            Spot::InRun | Spot::InDashes if b == b'-' => Spot::InDashes,
            Spot::AfterOne if b == b'_' => Spot::BeforeRun,
            _ => Spot::NoName,
        }
    }
}

/// Returns whether the text is letters and digits, with single marks or `--` between.
#[tactic(auto, unfolding(crate::specs::DecidedNames::is_ref_component))]
pub(crate) fn is_ref_component(text: &[u8]) -> bool
    ensures { result ≡ decided.is_ref_component text.now }
{
    let mut spot = Spot::BeforeRun;
    for b in text {
        spot = spot.next_ref(*b);
    }
    matches!(spot, Spot::InRun)
}

/// Returns whether the text is lowercase letters and digits, with `.`, `_`, `__` or dashes between.
#[tactic(auto, unfolding(crate::specs::DecidedNames::is_path_component))]
pub(crate) fn is_path_component(text: &[u8]) -> bool
    ensures { result ≡ decided.is_path_component text.now }
{
    let mut spot = Spot::BeforeRun;
    for b in text {
        spot = spot.next_path(*b);
    }
    matches!(spot, Spot::InRun)
}

/// Returns whether the text is letters, digits and dashes, of which no dash stands first or last.
#[tactic(auto, unfolding(crate::specs::DecidedNames::is_host_label))]
pub(crate) fn is_host_label(text: &[u8]) -> bool
    ensures { result ≡ decided.is_host_label text.now }
{
    let mut spot = Spot::BeforeRun;
    for b in text {
        spot = spot.next_label(*b);
    }
    matches!(spot, Spot::InRun)
}

/// Returns whether the text is a host, and perhaps a port.
pub(crate) fn is_domain(text: &[u8]) -> bool
    ensures { result ≡ tests.is_domain text.now }
{
    let (host, port) = cut(text, b':');
    Part::HostLabel.joins(host, b'.') & (!text.contains(&b':') | Class::Digit.has_some(port))
}

pub(crate) fn is_tag(text: &[u8]) -> bool
    ensures { result ≡ tests.is_tag text.now }
{
    Class::Word.begins(text, Class::Tag) & (text.len() <= 128)
}

/// Returns whether the text is a reference that says its registry.
pub(crate) fn is_full_reference(text: &str) -> bool
    ensures { IsTrue result ↔ IsFullReference text.now }
{
    match parts(text) {
        Ok(pieces) => is_qualified(pieces.name.as_bytes()),
        Err(_) => false,
    }
}

fn is_qualified(name: &[u8]) -> bool
    ensures { result ≡ tests.is_qualified name.now }
{
    let (first, _) = cut(name, b'/');
    let registry = first.contains(&b'.')
        | (first.contains(&b':') | (first == b"localhost".as_slice()));
    name.contains(&b'/') & registry
}
