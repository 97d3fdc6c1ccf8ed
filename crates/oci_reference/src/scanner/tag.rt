ghost use Rattle.std.specs.Prelude.{◌≡◌};
ghost use Rattle.oci_reference.specs.Scanner.{tag_next, ends_tag};

use oci_base::classes::{is_tag_byte, is_word};

/// Where the tag behind a name stands, and how many bytes it has.
#[derive(Clone, Copy, Debug, PartialEq, Eq)]
pub(crate) enum TagState {
    BeforeTag,
    InTag(u8),
    NoTag,
}

impl TagState {
    pub(crate) fn next(self, b: u8) -> Self
        ensures { result ≡ tag_next self b }
    {
        match self {
            TagState::BeforeTag if is_word(b) => TagState::InTag(1),
            TagState::InTag(count) if is_tag_byte(b) && count < 128 => TagState::InTag(count + 1),
            _ => TagState::NoTag,
        }
    }

    pub(crate) fn is_whole(self) -> bool
        ensures { result ≡ ends_tag self }
    {
        matches!(self, TagState::InTag(_))
    }
}
