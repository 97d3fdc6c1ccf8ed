//! The number that a token of JSON is.
ghost use Rattle.std.specs.Prelude.{◌≡◌, ◌<◌, ◌==◌, length, slice_index, true, false, option_map, IsTrue};
ghost use Rattle.serde_json.specs.Read.{number_of, number_from, float_of};
ghost use Rattle.oci_json_tape.specs.Numbers.{num_of};

use fast_float::Numeral;

/// A 64-bit integer or a finite float, as `serde_json` reads numbers.
#[derive(Clone, Copy, Drop)]
pub enum Number {
    /// An integer without a sign.
    Unsigned(u64),
    /// An integer below 0.
    Negative(i64),
    /// Any other number.
    Float(f64),
}

/// The number that a token of JSON is; `None` if it is too large.
pub fn parse_number(text: &str) -> Option<Number>
    ensures { option_map num_of result ≡ number_of text.now }
{
    let bytes = text.as_bytes();
    if has_minus(bytes) {
        negative(&Numeral::scan(&bytes[1..]))
    } else {
        unsigned(&Numeral::scan(bytes))
    }
}

fn unsigned(numeral: &Numeral<'_>) -> Option<Number>
    ensures { option_map num_of result ≡ number_from false numeral.now }
{
    match numeral.to_u64() {
        Some(n) => Some(Number::Unsigned(n)),
        None => nearest(false, numeral),
    }
}

fn negative(numeral: &Numeral<'_>) -> Option<Number>
    ensures { option_map num_of result ≡ number_from true numeral.now }
{
    if let Some(n) = numeral.to_i64(true) {
        if n < 0 {
            return Some(Number::Negative(n));
        }
    }
    nearest(true, numeral)
}

fn nearest(negative: bool, numeral: &Numeral<'_>) -> Option<Number>
    ensures { option_map num_of result ≡ float_of negative numeral.now }
{
    let x = numeral.to_float::<f64>(negative);
    if x.is_finite() {
        Some(Number::Float(x))
    } else {
        None
    }
}

fn has_minus(bytes: &[u8]) -> bool
    ensures value { result ≡ (slice_index bytes.now 0 == 45) }
    ensures len { IsTrue result → 0 < length bytes.now }
{
    !bytes.is_empty() && bytes[0] == b'-'
}
