//! IDs of users and groups, as they are written.
ghost use Rattle.std.specs.Prelude.{◌≡◌, ℕ, ◌^◌, ◌≤◌, ◌↔◌, IsTrue, IfSome, IsNone};
ghost use Rattle.std.specs.Str.Parse.{digits_value};
ghost use Rattle.oci_accounts.specs.Ids.{IsDigits, IsId};

use std::str;

/// The number that is no ID of a user or a group: to setresuid(2) and chown(2) it says "leave it as it is".
pub const NO_ID: u32 = 4_294_967_295;

/// Whether a text is one or more ASCII digits, and nothing else.
pub fn is_digits(text: &[u8]) -> bool
    ensures { IsTrue result ↔ IsDigits text.now }
{
    !text.is_empty() && text.iter().all(|b| b.is_ascii_digit())
}

/// The ID that a text writes in ASCII digits alone: no sign and no spaces, any number of zeros in front, and at most 4294967294.
/// `None` for every other text, also where the number does not fit 32 bits.
pub fn id(text: &[u8]) -> Option<u32>
    ensures some { IfSome result (λ n. IsId text.now n) }
    ensures none { IsNone result → (n : ℕ) → ¬ IsId text.now n }
{
    if !is_digits(text) {
        return None;
    }
    match number(text) {
        Some(NO_ID) => None,
        id => id,
    }
}

/// The number that digits write, if it fits 32 bits.
fn number(digits: &[u8]) -> Option<u32>
    requires { IsDigits digits.now }
    ensures some { IfSome result (λ n. digits_value 10 digits.now ≡ n) }
    ensures none { IsNone result → 2 ^ 32 ≤ digits_value 10 digits.now }
{
    match str::from_utf8(digits) {
        Ok(text) => text.parse().ok(),
        Err(_) => None,
    }
}
