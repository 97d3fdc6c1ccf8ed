//! Laws of violations: what is listed is exactly what is wrong, and what the JSON pointers lead to.
ghost use Rattle.std.specs.Prelude.{◌≡◌, ◌≤◌, ◌^◌, ◌↔◌, ℕ, List, [], Some};
ghost use Rattle.std.specs.List.{All, Contains};
ghost use Rattle.serde_json.specs.Data.{Data};
ghost use Rattle.serde_json.specs.Events.{items_len};
ghost use Rattle.serde_json.specs.Find.{pointer};
ghost use Rattle.serde_json.specs.View.{view, items_view, members_view};
ghost use Rattle.oci_json.specs.Readable.{IsInOrder};
ghost use Rattle.oci_model.specs.Shape.{Shape};
ghost use Rattle.oci_schema.specs.Leads.{IsSo, LeadsTo, IsOrderly, AreOrderly, HoldOrderly};
ghost use Rattle.oci_schema.specs.Violations.{Report, violations};
ghost use Rattle.oci_schema.specs.Wants.{IsViolation, Finds};

use serde_json::{Map, Value};

/// What is listed is exactly what is wrong: a way leads to a part where a shape is wanted, and the part is not of its kind, or it
/// is an object without a required member, or with a member under its name and under its alias.
pub fn violations_are_exact()
    ensures { (s : Shape) (d : Data) (x : Report) → Contains (violations s [] d) x ↔ IsViolation s d x }
{}

/// What is reported of each violation is so: its pointer leads to a part that is not of the expected kind, or to where a required
/// member is missing, or to a member beside which there is one of its alias.
#[tactic(auto, using(crate::proofs::Ways::each_is_so))]
pub fn each_violation_is_so()
    ensures { (s : Shape) (d : Data) → All (IsSo d) (violations s [] d) }
{}

/// In a value of the JSON library each object has its names once and in order, by bytes, and each item has an index of 64 bits.
#[cycle(orderly)]
pub fn names_are_in_order(value: &Value)
    ensures { IsOrderly (view value.now) }
{
    match value {
        Value::Null | Value::Bool(_) | Value::Number(_) | Value::String(_) => {}
        Value::Array(items) => items_are_orderly(items),
        Value::Object(members) => members_are_orderly(members),
    }
}

#[cycle(orderly)]
fn items_are_orderly(items: &Vec<Value>)
    ensures few { items_len (items_view items.now.items) ≤ 2 ^ 64 }
    ensures items { AreOrderly (items_view items.now.items) }
{
    for item in items {
        names_are_in_order(item);
    }
}

#[cycle(orderly)]
fn members_are_orderly(members: &Map<String, Value>)
    ensures order { IsInOrder (members_view members.now.entries) }
    ensures members { HoldOrderly (members_view members.now.entries) }
{
    for (_, member) in members.iter() {
        names_are_in_order(member);
    }
}

/// What a pointer leads to in a value of the JSON library is what the library's `pointer` (RFC 6901) finds. The pointer of a
/// violation finds a part that is not of the expected kind; or nothing, in an object that is found; or a member, beside which one
/// of its alias is found.
pub fn pointer_finds(value: &Value)
    ensures leads { (part : Data) (at : List ℕ) → LeadsTo (view value.now) at part → pointer at (view value.now) ≡ Some part }
    ensures found { (s : Shape) → All (λ x. Finds (view value.now) x.0 x.1) (violations s [] (view value.now)) }
{
    names_are_in_order(value);
}
