//! The classes of bytes that the grammars name.

ghost use Rattle.std.specs.Prelude.{◌≡◌};
ghost use Rattle.oci_base.specs.Classes.{is_lower, is_lower_hex, is_host_byte, is_word, is_tag_byte, is_encoded_byte, is_joint};

pub fn is_lower(b: u8) -> bool
    ensures { result ≡ is_lower b }
{
    b.is_ascii_lowercase() || b.is_ascii_digit()
}

pub fn is_lower_hex(b: u8) -> bool
    ensures { result ≡ is_lower_hex b }
{
    b.is_ascii_digit() || (b'a'..=b'f').contains(&b)
}

pub fn is_host_byte(b: u8) -> bool
    ensures { result ≡ is_host_byte b }
{
    b.is_ascii_alphanumeric() || b == b'-'
}

pub fn is_word(b: u8) -> bool
    ensures { result ≡ is_word b }
{
    b.is_ascii_alphanumeric() || b == b'_'
}

pub fn is_tag_byte(b: u8) -> bool
    ensures { result ≡ is_tag_byte b }
{
    is_word(b) || b == b'.' || b == b'-'
}

pub fn is_encoded_byte(b: u8) -> bool
    ensures { result ≡ is_encoded_byte b }
{
    is_word(b) || b == b'=' || b == b'-'
}

pub fn is_joint(b: u8) -> bool
    ensures { result ≡ is_joint b }
{
    b == b'+' || b == b'.' || b == b'_' || b == b'-'
}
