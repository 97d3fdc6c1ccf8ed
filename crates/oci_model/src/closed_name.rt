//! Enums that list all their variants, and how a text is looked up among these.
ghost use Rattle.std.specs.Prelude.{◌≡◌, ◌↔◌, ℕ, List, true, Some, map, IfSome, IfNone, IfOk, IfErr, IsTrue};
ghost use Rattle.oci_base.specs.Names.{is_listed};
ghost use Rattle.oci_model.specs.Variants.{variant_of, listed};

use crate::json_name::JsonName;
use oci_base::UnknownName;

/// An enum whose variants each have a JSON text of their own. It is a [`JsonName`] by that.
pub trait ClosedName: Eq + Copy + Drop {
    /// All variants, in the order of their table.
    ghost values: { List Self };

    /// The text of a value.
    ghost text_of: { Self → List ℕ };

    /// All variants, in the order of their table.
    fn all() -> &'static [Self]
        ensures { result.now ≡ values };

    /// The JSON text.
    fn text(&self) -> &'static str
        ensures { result.now ≡ text_of self.now };

    /// A text leads back to its value.
    ghost back: { (x : Self) → variant_of text_of values (text_of x) ≡ Some x };

    /// Values are equal exactly if their texts are.
    ghost told: { (x y : Self) → (Self.eq x y ≡ true) ↔ (text_of x ≡ text_of y) };
}

/// The first of these values that has the text.
#[tactic(auto, using(crate::proofs::Tables::past, crate::proofs::Tables::none_left))]
pub fn named<T: ClosedName>(text: &str, all: &[T]) -> Option<T>
    ensures some { IfSome result (λ x. text.now ≡ T.text_of x) }
    ensures none { IfNone result ((n : List ℕ) → IsTrue (is_listed (map T.text_of all.now) n) → ¬ (text.now ≡ n)) }
{
    for x in all {
        if text == x.text() {
            return Some(*x);
        }
    }
    None
}

/// Returns the variant with this text; fails with `UnknownName` if there is none.
pub fn parse_name<T: ClosedName + 'static>(text: &str) -> Result<T, UnknownName>
    ensures ok { IfOk result (λ x. T.text_of x ≡ text.now) }
    ensures err { IfErr result (λ e. (x : T) → ¬ (T.text_of x ≡ text.now)) }
{
    match named(text, T::all()) {
        Some(x) => Ok(x),
        None => Err(UnknownName),
    }
}

impl<T: ClosedName + 'static> JsonName for T {
    ghost table = { map T.ClosedName.text_of T.ClosedName.values };

    ghost name = { T.ClosedName.text_of };

    fn from_json_name(text: &str) -> Option<T> {
        named(text, T::all())
    }

    fn json_name(&self) -> &'static str {
        self.text()
    }

    ghost listed = { listed T.ClosedName.text_of T.ClosedName.values T.ClosedName.back };

    ghost same = { T.ClosedName.told };
}
