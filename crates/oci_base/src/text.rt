//! The escape.
ghost use Rattle.std.specs.Prelude.{◌≡◌, ◌++◌, ◌∷◌, [], ◌<◌, IfOk, OnOk, string_bytes, encode_utf8_all};
ghost use Rattle.std.specs.Char.{digit_char};
ghost use Rattle.oci_base.specs.Escaped.{escaped, escape, is_unsafe, shown_as, IsLine};

use crate::laws::is_one_line;
use std::alloc::{AllocError, Global};

/// The text with each character that ends a line, moves a terminal's cursor or reverses the direction of a text as `\uXXXX`: the
/// controls of C0 and C1 with DEL, U+2028 and U+2029, and the bidirectional formatting characters U+202A to U+202E and U+2066 to
/// U+2069. All others are as they are, the backslash too. Inside a JSON text such a character is in strings alone, where this
/// is its escape (RFC 8259, section 7), so the text means the same. Fails if out of memory.
pub fn escaped(text: &str, alloc: Global) -> Result<String, AllocError>
    ensures { IfOk result (λ t. string_bytes t ≡ escaped text.now) }
{
    let mut shown = String::new(alloc);
    for c in text.chars() {
        push_shown(&mut shown, c)?;
    }
    Ok(shown)
}

/// The escaped text and a newline. Fails if out of memory.
pub fn line_of(text: &str, alloc: Global) -> Result<String, AllocError>
    ensures text { IfOk result (λ t. string_bytes t ≡ escaped text.now ++ 10 ∷ []) }
    ensures line { IfOk result (λ t. IsLine (string_bytes t)) }
{
    is_one_line();
    let mut line = escaped(text, alloc)?;
    line.push_str("\n")?;
    Ok(line)
}

/// Adds a character as it is shown.
fn push_shown(shown: &mut String, c: char) -> Result<(), AllocError>
    ensures { OnOk result (string_bytes shown.new ≡ string_bytes shown.old ++ encode_utf8_all (shown_as c)) }
{
    if is_unsafe(c) {
        push_escape(shown, c as u32)
    } else {
        shown.push(c)
    }
}

/// Whether a character ends a line, moves a cursor or reverses the direction of a text.
pub(crate) fn is_unsafe(c: char) -> bool
    ensures { result ≡ is_unsafe c }
{
    c.is_control() || matches!(c, '\u{2028}'..='\u{202e}' | '\u{2066}'..='\u{2069}')
}

/// Adds the escape of a character of the first plane, by its number.
fn push_escape(shown: &mut String, code: u32) -> Result<(), AllocError>
    ensures { OnOk result (string_bytes shown.new ≡ string_bytes shown.old ++ encode_utf8_all (escape code)) }
{
    shown.push_str("\\u")?;
    shown.push(hex_digit(code / 4096 % 16))?;
    shown.push(hex_digit(code / 256 % 16))?;
    shown.push(hex_digit(code / 16 % 16))?;
    shown.push(hex_digit(code % 16))
}

/// The hexadecimal digit of a number below 16, a small letter from 10 on.
pub(crate) fn hex_digit(value: u32) -> char
    ensures { value < 16 → result ≡ digit_char value }
{
    char::from_digit(value, 16).unwrap_or('0')
}
