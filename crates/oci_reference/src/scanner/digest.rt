ghost use Rattle.std.specs.Prelude.{◌≡◌};
ghost use Rattle.oci_reference.specs.Scanner.{digest_next, ends_digest};

use oci_base::classes::is_joint;

/// Where the digest stands, and how many digits it has, counted up to 32.
#[derive(Clone, Copy, Debug, PartialEq, Eq)]
pub(crate) enum DigestState {
    BeforeWord,
    InWord,
    InDigits(u8),
    NoDigest,
}

impl DigestState {
    pub(crate) fn next(self, b: u8) -> Self
        ensures { result ≡ digest_next self b }
    {
        match self {
            DigestState::BeforeWord if b.is_ascii_alphabetic() => DigestState::InWord,
            DigestState::InWord if b.is_ascii_alphanumeric() => DigestState::InWord,
            DigestState::InWord if is_joint(b) => DigestState::BeforeWord,
            DigestState::InWord if b == b':' => DigestState::InDigits(0),
            DigestState::InDigits(count) if b.is_ascii_hexdigit() && count < 32 =>
                DigestState::InDigits(count + 1),
            DigestState::InDigits(count) if b.is_ascii_hexdigit() => DigestState::InDigits(count),
            _ => DigestState::NoDigest,
        }
    }

    pub(crate) fn is_whole(self) -> bool
        ensures { result ≡ ends_digest self }
    {
        matches!(self, DigestState::InDigits(32))
    }
}
