//! Numbers in decimal digits.
ghost use Rattle.std.specs.Prelude.{◌≡◌};
ghost use Rattle.oci_grammars.specs.Decided as decided;

use crate::classes::Class;
use crate::cuts::cut;

/// The number that digits write, or 2^32 where it is larger.
#[tactic(auto, unfolding(crate::specs::Decided::capped))]
pub(crate) fn number(digits: &[u8]) -> u64
    ensures { result ≡ decided.capped digits.now }
{
    let mut value: u64 = 0;
    for b in digits {
        value = (value * 10 + u64::from(b.saturating_sub(b'0'))).min(4_294_967_296);
    }
    value
}

/// Returns whether the text is digits, for a number from `low` to `high`, which is less than 2^32.
pub(crate) fn is_number(text: &[u8], low: u64, high: u64) -> bool
    ensures { result ≡ decided.is_number low high text.now }
{
    let value = number(text);
    Class::Digit.has_some(text) & ((low <= value) & (value <= high))
}

/// Returns whether the text is such a number, or two of them with `-` between, the second no smaller than the first.
pub(crate) fn is_number_or_range(text: &[u8], low: u64, high: u64) -> bool
    ensures { result ≡ decided.is_number_or_range low high text.now }
{
    let (first, last) = cut(text, b'-');
    let ascending = is_number(last, low, high) & (number(first) <= number(last));
    is_number(first, low, high) & (!text.contains(&b'-') | ascending)
}

/// Returns whether the text is this many digits, for a number from `low` to `high`, which is less than 2^32.
pub(crate) fn is_field(text: &[u8], count: usize, low: u64, high: u64) -> bool
    ensures { result ≡ decided.is_field count low high text.now }
{
    let value = number(text);
    Class::Digit.has_count(text, count) & ((low <= value) & (value <= high))
}

/// Returns whether the text is 0, or digits without a zero in front.
pub(crate) fn is_numeric(text: &[u8]) -> bool
    ensures { result ≡ decided.is_numeric text.now }
{
    (text == b"0".as_slice()) | Class::Positive.begins(text, Class::Digit)
}
