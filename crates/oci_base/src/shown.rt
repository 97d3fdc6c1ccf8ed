//! Texts that are escaped where they are displayed.
ghost use Rattle.std.specs.Prelude.{encode_utf8_all};
ghost use Rattle.std.specs.Fmt.{WritesOnOk};
ghost use Rattle.oci_base.specs.Escaped.{escape, shown_as};

use crate::text::{hex_digit, is_unsafe};
use std::fmt;

/// A text that displays as `escaped` returns it.
#[derive(Clone, Copy, Debug, PartialEq, Eq)]
pub struct Escaped<'a>(pub &'a str);

impl fmt::Display for Escaped<'_> {
    ghost use Rattle.std.specs.Prelude.{Some};
    ghost use Rattle.oci_base.specs.Escaped.{escaped};

    ghost output = { λ x. Some (escaped x.0.now) };

    fn fmt<W: fmt::Write>(&self, f: &mut fmt::Formatter<W>) -> fmt::Result {
        for c in self.0.chars() {
            write_shown(f, c)?;
        }
        Ok(())
    }
}

/// Writes a character as it is shown.
fn write_shown<W: fmt::Write>(f: &mut fmt::Formatter<W>, c: char) -> fmt::Result
    ensures { WritesOnOk W.write_str_gives f.old result (encode_utf8_all (shown_as c)) f.new }
{
    if is_unsafe(c) {
        write_escape(f, c as u32)
    } else {
        f.write_char(c)
    }
}

/// Writes the escape of a character of the first plane, by its number.
fn write_escape<W: fmt::Write>(f: &mut fmt::Formatter<W>, code: u32) -> fmt::Result
    ensures { WritesOnOk W.write_str_gives f.old result (encode_utf8_all (escape code)) f.new }
{
    f.write_str("\\u")?;
    f.write_char(hex_digit(code / 4096 % 16))?;
    f.write_char(hex_digit(code / 256 % 16))?;
    f.write_char(hex_digit(code / 16 % 16))?;
    f.write_char(hex_digit(code % 16))
}
