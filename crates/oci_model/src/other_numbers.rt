//! Whether a JSON tree holds numbers that are no 64-bit whole ones.
ghost use Rattle.std.specs.Prelude.{◌≡◌};
ghost use Rattle.serde_json.specs.View.{view, items_view, members_view};
ghost use Rattle.serde_json.specs.Written.{has_float, items_have_float, members_have_float};

use serde_json::{Map, Value};

/// Whether the value, or a value in it at any depth, is a number that is no 64-bit whole one.
#[cycle(trees)]
pub fn has_other_numbers(value: &Value) -> bool
    ensures { result ≡ has_float (view value.now) }
{
    match value {
        Value::Number(number) => number.is_f64(),
        Value::Array(items) => items_have_other_numbers(items),
        Value::Object(members) => members_have_other_numbers(members),
        _ => false,
    }
}

#[cycle(trees)]
fn items_have_other_numbers(items: &Vec<Value>) -> bool
    ensures { result ≡ items_have_float (items_view items.now.items) }
{
    for item in items {
        if has_other_numbers(item) {
            return true;
        }
    }
    false
}

/// Whether a member's value, or a value in it at any depth, is a number that is no 64-bit whole one.
#[cycle(trees)]
pub fn members_have_other_numbers(members: &Map<String, Value>) -> bool
    ensures { result ≡ members_have_float (members_view members.now.entries) }
{
    for (_, member) in members.iter() {
        if has_other_numbers(member) {
            return true;
        }
    }
    false
}
