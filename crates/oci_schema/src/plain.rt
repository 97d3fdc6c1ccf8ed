//! Whether a value is parsed again from its own compact text.
ghost use Rattle.std.specs.Prelude.{◌≡◌, IsTrue, false};
ghost use Rattle.serde_json.specs.Find.{is_float};
ghost use Rattle.serde_json.specs.View.{number_view, view, items_view, members_view};
ghost use Rattle.oci_json.specs.Readable.{IsHeld, IsInOrder};
ghost use Rattle.oci_schema.specs.Plain.{IsPlain, ArePlain, HoldPlain};

use serde_json::{Map, Number, Value};

/// Whether each number in the value is a 64-bit integer, and it nests at most so deep.
#[cycle(plain)]
pub fn is_plain(value: &Value, room: usize) -> bool
    ensures { IsTrue result → IsPlain room (view value.now) }
{
    match value {
        Value::Null | Value::Bool(_) | Value::String(_) => true,
        Value::Number(number) => is_held(number),
        Value::Array(items) => room > 0 && are_plain(items, room - 1),
        Value::Object(members) => room > 0 && hold_plain(members, room - 1),
    }
}

#[cycle(plain)]
fn are_plain(items: &Vec<Value>, room: usize) -> bool
    ensures { IsTrue result → ArePlain room (items_view items.now.items) }
{
    for item in items {
        if !is_plain(item, room) {
            return false;
        }
    }
    true
}

#[cycle(plain)]
fn hold_plain(members: &Map<String, Value>, room: usize) -> bool
    ensures plain { IsTrue result → HoldPlain room (members_view members.now.entries) }
    ensures ordered { IsInOrder (members_view members.now.entries) }
{
    for (_, member) in members.iter() {
        if !is_plain(member, room) {
            return false;
        }
    }
    true
}

/// Whether a number is a 64-bit integer.
fn is_held(number: &Number) -> bool
    ensures held { IsTrue result → IsHeld (number_view number.now) }
    ensures whole { IsTrue result → is_float (number_view number.now) ≡ false }
{
    match number.as_u64() {
        Some(_) => true,
        None => match number.as_i64() {
            Some(whole) => whole < 0,
            None => false,
        },
    }
}
