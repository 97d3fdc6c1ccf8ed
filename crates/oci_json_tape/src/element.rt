//! Looking into an element of a tape.
ghost use Rattle.std.specs.Prelude.{◌≡◌, option_map, is_some};
ghost use Rattle.serde_json.specs.Data.{Data};
ghost use Rattle.serde_json.specs.Find.{get, as_bool, as_null, as_str, as_number};
ghost use Rattle.oci_json_tape.specs.Elements.{BeginsWithData, FindsData};
ghost use Rattle.oci_json_tape.specs.Numbers.{num_of};

use crate::numeral::{Number, parse_number};
use crate::walk::{members, next_member};
use json::Element;

/// Finds the member of this name; of equal names the last.
#[inline(always)]
pub fn find<'t, 'a>(element: &Element<'t, 'a>, name: &str) -> Option<Element<'t, 'a>>
    ensures { (d : Data) → BeginsWithData element.now d → FindsData result (get name.now d) }
{
    let Some(mut rest) = members(element) else {
        return None;
    };
    let mut found = None;
    'each_member: while let Some((key, member)) = next_member(&mut rest) {
        if key == name {
            found = Some(member);
        }
    }
    found
}

/// The content of a string.
pub fn text<'t, 'a>(element: &Element<'t, 'a>) -> Option<&'a str>
    ensures { (d : Data) → BeginsWithData element.now d
        → option_map (λ s. s.now) result ≡ as_str d }
{
    element.as_str()
}

/// A boolean.
pub fn boolean(element: &Element<'_, '_>) -> Option<bool>
    ensures { (d : Data) → BeginsWithData element.now d → result ≡ as_bool d }
{
    element.as_bool()
}

/// Whether the element is null.
pub fn is_null(element: &Element<'_, '_>) -> bool
    ensures { (d : Data) → BeginsWithData element.now d → result ≡ is_some (as_null d) }
{
    element.is_null()
}

/// A number.
pub fn number(element: &Element<'_, '_>) -> Option<Number>
    ensures { (d : Data) → BeginsWithData element.now d
        → option_map num_of result ≡ as_number d }
{
    match element.as_number() {
        Some(digits) => parse_number(digits),
        None => None,
    }
}
