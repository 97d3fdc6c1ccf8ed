//! Values and objects that are taken apart.
ghost use Rattle.std.specs.Prelude.{◌≡◌, ◌≤◌, ◌+◌, false, bytes_eq, option_map, string_bytes};
ghost use Rattle.serde_json.specs.View.{view, items_view, members_view};
ghost use Rattle.serde_json.specs.Find.{get_member, as_str, as_array, as_object};
ghost use Rattle.oci_model.specs.Sizes.{members_size, found_size};

use serde_json::{Map, Value};

/// Returns the string of a value, if it is one.
pub fn into_text(value: Value) -> Option<String>
    ensures { option_map string_bytes result ≡ as_str (view value) }
{
    match value {
        Value::String(text) => Some(text),
        _ => None,
    }
}

/// Returns the items of a value, if it is an array.
pub fn into_items(value: Value) -> Option<Vec<Value>>
    ensures { option_map (λ v. items_view v.items) result ≡ as_array (view value) }
{
    match value {
        Value::Array(items) => Some(items),
        _ => None,
    }
}

/// Returns the members of a value, if it is an object.
pub fn into_members(value: Value) -> Option<Map<String, Value>>
    ensures { option_map (λ m. members_view m.entries) result ≡ as_object (view value) }
{
    match value {
        Value::Object(members) => Some(members),
        _ => None,
    }
}

/// Takes the member of this name out of the object.
#[tactic(auto, using(crate::proofs::Removed::found, crate::proofs::Removed::others))]
pub fn take_member(members: &mut Map<String, Value>, name: &str) -> Option<Value>
    ensures found { option_map view result ≡ get_member name.now (members_view members.old.entries) }
    ensures others { (q : _) → bytes_eq q name.now ≡ false → get_member q (members_view members.new.entries) ≡ get_member q (members_view members.old.entries) }
    ensures smaller { found_size (option_map view result) + members_size (members_view members.new.entries) ≤ members_size (members_view members.old.entries) }
{
    members.remove(name)
}
