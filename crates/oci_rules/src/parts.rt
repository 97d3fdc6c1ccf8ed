//! What stands where names lead in a value.
ghost use Rattle.std.specs.Prelude.{◌≡◌, [], length, option_map};
ghost use Rattle.serde_json.specs.Events.{items_len, members_len};
ghost use Rattle.serde_json.specs.Find.{as_array, as_object, as_str};
ghost use Rattle.serde_json.specs.View.{view, items_view};
ghost use Rattle.oci_model.specs.Means.{as_whole};
ghost use Rattle.oci_rules.specs.Decided.{has as does_have, is_set as is_set_in, is_empty, has_null};
ghost use Rattle.oci_rules.specs.Parts as parts;
ghost use Rattle.oci_rules.specs.Tables.{texts_of};

use serde_json::Value;

/// The member of this name, unless it is null.
pub fn present<'v>(value: &'v Value, name: &str) -> Option<&'v Value>
    ensures { option_map (λ v. view v.now) result ≡ parts.present name.now (view value.now) }
{
    unless_null(value.get(name)?)
}

/// The value, unless it is null.
fn unless_null(value: &Value) -> Option<&Value>
    ensures { option_map (λ v. view v.now) result ≡ parts.led (texts_of []) (view value.now) }
{
    if value.is_null() { None } else { Some(value) }
}

/// Whether the value has a member of this name that is not null.
pub fn has(value: &Value, name: &str) -> bool
    ensures { result ≡ does_have (view value.now) name.now }
{
    present(value, name).is_some()
}

/// Whether the value has a member of this name that is not null, nor an empty string.
pub fn is_set(value: &Value, name: &str) -> bool
    ensures { result ≡ is_set_in (view value.now) name.now }
{
    match present(value, name) {
        Some(member) => !is_empty_text(member),
        None => false,
    }
}

fn is_empty_text(value: &Value) -> bool
    ensures { result ≡ is_empty (view value.now) }
{
    match value.as_str() {
        Some(text) => text.is_empty(),
        None => false,
    }
}

/// Whether the value has a member of this name that is null.
pub fn is_null_at(value: &Value, name: &str) -> bool
    ensures { result ≡ has_null name.now (view value.now) }
{
    match value.get(name) {
        Some(member) => member.is_null(),
        None => false,
    }
}

/// Whether the value has `true` under this name.
pub fn is_true_at(value: &Value, name: &str) -> bool
    ensures { result ≡ parts.is_true name.now (view value.now) }
{
    match value.get(name) {
        Some(member) => match member.as_bool() {
            Some(boolean) => boolean,
            None => false,
        },
        None => false,
    }
}

/// What the names lead to, unless it is null.
pub fn led<'v>(value: &'v Value, way: &[&str]) -> Option<&'v Value>
    ensures { option_map (λ v. view v.now) result ≡ parts.led (texts_of way.now) (view value.now) }
{
    let mut here = value;
    for name in way {
        match here.get(*name) {
            Some(member) => here = member,
            None => return None,
        }
    }
    unless_null(here)
}

/// The string under this name.
pub fn text_at<'v>(value: &'v Value, name: &str) -> Option<&'v str>
    ensures { option_map (λ t. t.now) result ≡ parts.text_at name.now (view value.now) }
{
    match value.get(name) {
        Some(member) => member.as_str(),
        None => None,
    }
}

/// An integer.
pub fn whole(value: &Value) -> Option<i128>
    ensures { result ≡ as_whole (view value.now) }
{
    match value.as_number() {
        Some(number) => number.as_i128(),
        None => None,
    }
}

/// The integer under this name.
pub fn whole_at(value: &Value, name: &str) -> Option<i128>
    ensures { result ≡ parts.whole_at name.now (view value.now) }
{
    match value.get(name) {
        Some(member) => whole(member),
        None => None,
    }
}

/// The integer under this name, if it is not negative.
pub fn natural_at(value: &Value, name: &str) -> Option<u64>
    ensures { result ≡ parts.natural_at name.now (view value.now) }
{
    match value.get(name) {
        Some(member) => member.as_u64(),
        None => None,
    }
}

/// The array under this name.
pub fn items_at<'v>(value: &'v Value, name: &str) -> Option<&'v Vec<Value>>
    ensures { option_map (λ v. items_view v.now.items) result ≡ parts.items_at name.now (view value.now) }
{
    match value.get(name) {
        Some(member) => member.as_array(),
        None => None,
    }
}

/// The array to which the names lead.
pub fn items_led<'v>(value: &'v Value, way: &[&str]) -> Option<&'v Vec<Value>>
    ensures { option_map (λ v. items_view v.now.items) result ≡ parts.items_led (texts_of way.now) (view value.now) }
{
    match led(value, way) {
        Some(found) => found.as_array(),
        None => None,
    }
}

/// How many items there are.
#[tactic(auto, using(crate::proofs::Extents::items_extent))]
pub fn count(items: &Vec<Value>) -> usize
    ensures { result ≡ items_len (items_view items.now.items) }
{
    items.len()
}

/// How many bytes a string has, how many items an array, how many members an object.
pub fn extent(value: &Value) -> Option<usize>
    ensures { result ≡ parts.extent (view value.now) }
{
    text_length(value).or(array_length(value).or(object_length(value)))
}

fn text_length(value: &Value) -> Option<usize>
    ensures { result ≡ option_map length (as_str (view value.now)) }
{
    match value.as_str() {
        Some(text) => Some(text.len()),
        None => None,
    }
}

#[tactic(auto, using(crate::proofs::Extents::array_extent))]
fn array_length(value: &Value) -> Option<usize>
    ensures { result ≡ option_map items_len (as_array (view value.now)) }
{
    match value.as_array() {
        Some(items) => Some(items.len()),
        None => None,
    }
}

#[tactic(auto, using(crate::proofs::Extents::object_extent))]
fn object_length(value: &Value) -> Option<usize>
    ensures { result ≡ option_map members_len (as_object (view value.now)) }
{
    match value.as_object() {
        Some(members) => Some(members.len()),
        None => None,
    }
}
