//! Parts that are joined by a mark.
ghost use Rattle.std.specs.Prelude.{◌≡◌};
ghost use Rattle.oci_grammars.specs.Decided as decided;

use crate::classes::Class;
use crate::cuts::cut;
use crate::names::{is_host_label, is_path_component, is_ref_component};
use crate::numbers::{is_number_or_range, is_numeric};
use crate::settings::is_port_spec;

/// A part of a text.
#[derive(Clone, Copy)]
pub(crate) enum Part {
    KeyLabel,
    PreIdentifier,
    BuildIdentifier,
    NotParent,
    RefComponent,
    PathComponent,
    HostLabel,
    PortSpec,
    CpuRange,
}

impl Part {
    fn is(self, text: &[u8]) -> bool
        ensures { result ≡ decided.part_of self text.now }
    {
        match self {
            Part::KeyLabel => Class::Label.has_some(text),
            Part::PreIdentifier => is_pre_identifier(text),
            Part::BuildIdentifier => Class::Host.has_some(text),
            Part::NotParent => Class::NotSlash.has_all(text) & (text != b"..".as_slice()),
            Part::RefComponent => is_ref_component(text),
            Part::PathComponent => is_path_component(text),
            Part::HostLabel => is_host_label(text),
            Part::PortSpec => is_port_spec(text),
            Part::CpuRange => is_number_or_range(text, 0, 4_294_967_295),
        }
    }

    /// Returns whether the text is such parts, joined by the mark.
    pub(crate) fn joins(self, text: &[u8], mark: u8) -> bool
        ensures { result ≡ decided.are_joined self mark text.now }
    {
        let mut sound = true;
        let mut rest = text;
        while rest.contains(&mark) {
            let (part, others) = cut(rest, mark);
            sound &= self.is(part);
            rest = others;
        }
        sound & self.is(rest)
    }
}

fn is_pre_identifier(text: &[u8]) -> bool
    ensures { result ≡ decided.is_pre_identifier text.now }
{
    is_numeric(text) | (Class::Host.has_all(text) & !Class::Digit.has_all(text))
}
