ghost use Rattle.std.specs.Prelude.{◌≡◌};
ghost use Rattle.oci_reference.specs.Scanner.{path_next, ends_name};

use oci_base::classes::is_lower;

/// Where the name stands, if the text so far may be the front of one.
#[derive(Clone, Copy, Debug, PartialEq, Eq)]
pub(crate) enum PathState {
    BeforeRun,
    InRun,
    AfterUnderscore,
    InDashes,
    NoPath,
}

impl PathState {
    pub(crate) fn next(self, b: u8) -> Self
        ensures { result ≡ path_next self b }
    {
        match self {
            PathState::BeforeRun if is_lower(b) => PathState::InRun,
            PathState::InRun if is_lower(b) => PathState::InRun,
            PathState::InRun if b == b'.' || b == b'/' => PathState::BeforeRun,
            PathState::InRun if b == b'_' => PathState::AfterUnderscore,
            PathState::InRun if b == b'-' => PathState::InDashes,
            PathState::AfterUnderscore if is_lower(b) => PathState::InRun,
            PathState::AfterUnderscore if b == b'_' => PathState::BeforeRun,
            PathState::InDashes if is_lower(b) => PathState::InRun,
            PathState::InDashes if b == b'-' => PathState::InDashes,
            _ => PathState::NoPath,
        }
    }

    pub(crate) fn is_whole(self) -> bool
        ensures { result ≡ ends_name self }
    {
        matches!(self, PathState::InRun)
    }
}
