ghost use Rattle.std.specs.Prelude.{◌≡◌};
ghost use Rattle.oci_reference.specs.Scanner.{domain_next, ends_domain};

/// Where the domain stands that the text may begin with.
#[derive(Clone, Copy, Debug, PartialEq, Eq)]
pub(crate) enum DomainState {
    BeforeLabel,
    InLabel,
    InHyphens,
    AfterColon,
    InPort,
    NoDomain,
}

impl DomainState {
    pub(crate) fn next(self, b: u8) -> Self
        ensures { result ≡ domain_next self b }
    {
        match self {
            DomainState::BeforeLabel if b.is_ascii_alphanumeric() => DomainState::InLabel,
            DomainState::InLabel if b.is_ascii_alphanumeric() => DomainState::InLabel,
            DomainState::InLabel if b == b'-' => DomainState::InHyphens,
            DomainState::InLabel if b == b'.' => DomainState::BeforeLabel,
            DomainState::InLabel if b == b':' => DomainState::AfterColon,
            DomainState::InHyphens if b.is_ascii_alphanumeric() => DomainState::InLabel,
            DomainState::InHyphens if b == b'-' => DomainState::InHyphens,
            DomainState::AfterColon if b.is_ascii_digit() => DomainState::InPort,
            DomainState::InPort if b.is_ascii_digit() => DomainState::InPort,
            _ => DomainState::NoDomain,
        }
    }

    pub(crate) fn is_whole(self) -> bool
        ensures { result ≡ ends_domain self }
    {
        matches!(self, DomainState::InLabel | DomainState::InPort)
    }
}
