//! Dates and times (RFC 3339, section 5.6).
ghost use Rattle.std.specs.Prelude.{◌≡◌};
ghost use Rattle.oci_grammars.specs.DateTimes as date;
ghost use Rattle.oci_grammars.specs.Decided as decided;

use crate::classes::Class;
use crate::cuts::{behind, cut};
use crate::numbers::{is_field, number};

pub(crate) fn is_date_time(text: &[u8]) -> bool
    ensures { result ≡ decided.is_date_time text.now }
{
    is_date_time_at(text, b'T') | is_date_time_at(text, b't')
}

fn is_date_time_at(text: &[u8], mark: u8) -> bool
    ensures { result ≡ decided.is_date_time_at mark text.now }
{
    let (date, time) = cut(text, mark);
    is_date(date) & is_time(time)
}

#[tactic(auto, unfolding(crate::specs::Decided::is_date))]
fn is_date(text: &[u8]) -> bool
    ensures { result ≡ decided.is_date text.now }
{
    let (year, rest) = cut(text, b'-');
    let (month, day) = cut(rest, b'-');
    let days = days_in(number(year), number(month));
    Class::Digit.has_count(year, 4) & (is_field(month, 2, 1, 12) & is_field(day, 2, 1, days))
}

fn days_in(year: u64, month: u64) -> u64
    ensures { result ≡ date.days_in year month }
{
    match month {
        2 => { if is_leap(year) { 29 } else { 28 } }
        4 | 6 | 9 | 11 => 30,
        _ => 31,
    }
}

fn is_leap(year: u64) -> bool
    ensures { result ≡ date.is_leap year }
{
    (year % 4 == 0) & ((year % 100 != 0) | (year % 400 == 0))
}

#[tactic(auto, unfolding(crate::specs::Decided::is_time))]
fn is_time(text: &[u8]) -> bool
    ensures { result ≡ decided.is_time text.now }
{
    let (hour, rest) = cut(text, b':');
    is_field(hour, 2, 0, 23) & is_minutes(rest)
}

fn is_minutes(text: &[u8]) -> bool
    ensures { result ≡ decided.is_minutes text.now }
{
    let (minute, rest) = cut(text, b':');
    is_field(minute, 2, 0, 59) & is_seconds(rest)
}

fn is_seconds(text: &[u8]) -> bool
    ensures { result ≡ decided.is_seconds text.now }
{
    let (second, rest) = Class::Digit.run(text);
    is_field(second, 2, 0, 60) & is_fraction_offset(rest)
}

#[tactic(auto, unfolding(crate::specs::Decided::is_fraction_offset))]
fn is_fraction_offset(text: &[u8]) -> bool
    ensures { result ≡ decided.is_fraction_offset text.now }
{
    is_offset(text) | (text.starts_with(b".") & is_fraction(behind(text, 1)))
}

fn is_fraction(text: &[u8]) -> bool
    ensures { result ≡ decided.is_fraction text.now }
{
    let (fraction, offset) = Class::Digit.run(text);
    Class::Digit.has_some(fraction) & is_offset(offset)
}

#[tactic(auto, unfolding(crate::specs::Decided::is_offset))]
fn is_offset(text: &[u8]) -> bool
    ensures { result ≡ decided.is_offset text.now }
{
    let (hour, minute) = cut(behind(text, 1), b':');
    let numeric = is_field(hour, 2, 0, 23) & is_field(minute, 2, 0, 59);
    ((text == b"Z".as_slice()) | (text == b"z".as_slice()))
        | ((text.starts_with(b"+") & numeric) | (text.starts_with(b"-") & numeric))
}
