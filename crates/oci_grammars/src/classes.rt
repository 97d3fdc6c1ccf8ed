//! The classes of bytes that the grammars name, beside those of `oci_base`.
ghost use Rattle.std.specs.Prelude.{◌≡◌, not, position};
ghost use Rattle.oci_base.specs.Classes.{has};
ghost use Rattle.std.specs.List.{list_all};
ghost use Rattle.oci_grammars.specs.Classes as class;
ghost use Rattle.oci_grammars.specs.Decided as decided;

use oci_base::classes::{is_host_byte, is_tag_byte, is_word};

/// A class of bytes.
#[derive(Clone, Copy)]
pub(crate) enum Class {
    Digit,
    Positive,
    Hex,
    Letter,
    LetterOrDigit,
    Capital,
    CapitalOrDigit,
    Capability,
    NameStart,
    Word,
    Label,
    Host,
    Tag,
    Restricted,
    Scheme,
    RegName,
    UserInfo,
    Path,
    Query,
    Address,
    Base64,
    IdByte,
    LicenseWord,
    Access,
    Scale,
    Context,
    Graphic,
    Interface,
    Separator,
    Share,
    RefName,
    FileStart,
    NotSlash,
    NotColon,
    NotEquals,
    NotNul,
    NotLineFeed,
}

impl Class {
    /// Returns whether the byte is in the class.
    pub(crate) fn has(self, b: u8) -> bool
        ensures { result ≡ class.class_of self b }
    {
        match self {
            Class::Digit => b.is_ascii_digit(),
            Class::Positive => (b'1'..=b'9').contains(&b),
            Class::Hex => b.is_ascii_hexdigit(),
            Class::Letter => b.is_ascii_alphabetic(),
            Class::LetterOrDigit => b.is_ascii_alphanumeric(),
            Class::Capital => b.is_ascii_uppercase(),
            Class::CapitalOrDigit => b.is_ascii_uppercase() | b.is_ascii_digit(),
            Class::Capability => b.is_ascii_uppercase() | (b == b'_'),
            Class::NameStart => b.is_ascii_alphabetic() | (b == b'_'),
            Class::Word => is_word(b),
            Class::Label => is_word(b) | (b == b'-'),
            Class::Host => is_host_byte(b),
            Class::Tag => is_tag_byte(b),
            Class::Restricted => b.is_ascii_alphanumeric() | b"!#$&-^_.+".contains(&b),
            Class::Scheme => b.is_ascii_alphanumeric() | b"+-.".contains(&b),
            Class::RegName => is_reg_name_byte(b),
            Class::UserInfo => is_reg_name_byte(b) | (b == b':'),
            Class::Path => is_path_byte(b),
            Class::Query => is_path_byte(b) | (b == b'?'),
            Class::Address => b.is_ascii_hexdigit() | b":.".contains(&b),
            Class::Base64 => b.is_ascii_alphanumeric() | b"+/".contains(&b),
            Class::IdByte => b.is_ascii_alphanumeric() | b"-.".contains(&b),
            Class::LicenseWord => b.is_ascii_alphanumeric()
                | b"-.".contains(&b)
                | b"+:".contains(&b),
            Class::Access => b"rwm".contains(&b),
            Class::Scale => b"KMGTkmgt".contains(&b),
            Class::Context => b.is_ascii_graphic() & (b != b':'),
            Class::Graphic => b.is_ascii_graphic(),
            Class::Interface => is_interface_byte(b),
            Class::Separator => (b == b'\\') | (b == b'/'),
            Class::Share => !((b == b'\\') | (b == b'/')) & (b != 0),
            Class::RefName => b.is_ascii_alphanumeric() | b"-._:@/+".contains(&b),
            Class::FileStart => (b != b'/') & (b != b'.'),
            Class::NotSlash => b != b'/',
            Class::NotColon => b != b':',
            Class::NotEquals => b != b'=',
            Class::NotNul => b != 0,
            Class::NotLineFeed => b != b'\n',
        }
    }

    /// Returns whether each byte is in the class.
    pub(crate) fn has_all(self, text: &[u8]) -> bool
        ensures { result ≡ list_all (class.class_of self) text.now }
    {
        let mut sound = true;
        for b in text {
            sound &= self.has(*b);
        }
        sound
    }

    /// Returns whether the text has bytes, all of them in the class.
    pub(crate) fn has_some(self, text: &[u8]) -> bool
        ensures { result ≡ decided.is_some_of (class.class_of self) text.now }
    {
        !text.is_empty() & self.has_all(text)
    }

    /// Returns whether the text has this many bytes, all of them in the class.
    pub(crate) fn has_count(self, text: &[u8], count: usize) -> bool
        ensures { result ≡ decided.is_counted (class.class_of self) count text.now }
    {
        (text.len() == count) & self.has_all(text)
    }

    /// The bytes of the class that the text begins with, and the bytes after them.
    pub(crate) fn run(self, text: &[u8]) -> (&[u8], &[u8])
        ensures front { result.0.now ≡ decided.front_in (class.class_of self) text.now }
        ensures back { result.1.now ≡ decided.back_in (class.class_of self) text.now }
    {
        match self.first_other(text) {
            Some(place) => (&text[..place], &text[place..]),
            None => (text, &[]),
        }
    }

    fn first_other(self, text: &[u8]) -> Option<usize>
        ensures { result ≡ position (λ b. not (class.class_of self b)) text.now }
    {
        text.iter().position(|b| !self.has(*b))
    }

    /// Returns whether the text is a byte of the class, and then bytes of another.
    pub(crate) fn begins(self, text: &[u8], then: Class) -> bool
        ensures { result ≡ decided.is_headed (class.class_of self) (class.class_of then) text.now }
    {
        match text.split_first() {
            None => false,
            Some((first, rest)) => self.has(*first) & then.has_all(rest),
        }
    }
}

fn is_reg_name_byte(b: u8) -> bool
    ensures { result ≡ class.is_reg_name_byte b }
{
    b.is_ascii_alphanumeric() | b"-._~!$&'()*+,;=".contains(&b)
}

fn is_path_byte(b: u8) -> bool
    ensures { result ≡ class.is_path_byte b }
{
    is_reg_name_byte(b) | (b == b':') | b"@/".contains(&b)
}

fn is_interface_byte(b: u8) -> bool
    ensures { result ≡ class.is_interface_byte b }
{
    !(b"/: ".contains(&b) | (9..=13).contains(&b) | (b == 0) | (b == 160))
}
