//! Members by name, of values that may be absent.
ghost use Rattle.std.specs.Prelude.{◌≡◌, option_map};
ghost use Rattle.serde_json.specs.Events.{items_len};
ghost use Rattle.serde_json.specs.View.{view, items_view};
ghost use Rattle.oci_rules.specs.Parts as parts;
ghost use Rattle.oci_agreement.specs.Images as images;

use serde_json::Value;

/// The member of this name, unless it is null.
pub fn present<'v>(value: &'v Value, name: &str) -> Option<&'v Value>
    ensures { option_map (λ v. view v.now) result ≡ parts.present name.now (view value.now) }
{
    match value.get(name) {
        Some(member) => { if member.is_null() { None } else { Some(member) } }
        None => None,
    }
}

/// The string under this name.
pub fn text_at<'v>(value: &'v Value, name: &str) -> Option<&'v str>
    ensures { option_map (λ t. t.now) result ≡ parts.text_at name.now (view value.now) }
{
    match value.get(name) {
        Some(member) => member.as_str(),
        None => None,
    }
}

/// The array under this name.
pub fn items_at<'v>(value: &'v Value, name: &str) -> Option<&'v Vec<Value>>
    ensures { option_map (λ v. items_view v.now.items) result ≡ parts.items_at name.now (view value.now) }
{
    match value.get(name) {
        Some(member) => member.as_array(),
        None => None,
    }
}

/// The member of this name of a value, if there is one.
pub fn part_in<'v>(value: Option<&'v Value>, name: &str) -> Option<&'v Value>
    ensures { option_map (λ v. view v.now) result ≡ images.part_in name.now (option_map (λ v. view v.now) value.entry) }
{
    match value {
        Some(value) => present(value, name),
        None => None,
    }
}

/// The string under this name in a value, if there is one.
pub fn text_in<'v>(value: Option<&'v Value>, name: &str) -> Option<&'v str>
    ensures { option_map (λ t. t.now) result ≡ images.text_in name.now (option_map (λ v. view v.now) value.entry) }
{
    match value {
        Some(value) => text_at(value, name),
        None => None,
    }
}

/// The array under this name in a value, if there is one.
pub fn items_in<'v>(value: Option<&'v Value>, name: &str) -> Option<&'v Vec<Value>>
    ensures { option_map (λ v. items_view v.now.items) result ≡ images.items_in name.now (option_map (λ v. view v.now) value.entry) }
{
    match value {
        Some(value) => items_at(value, name),
        None => None,
    }
}

/// The string under this name in a value, or another if there is none.
pub fn text_or<'v>(other: Option<&'v str>, name: &str, value: Option<&'v Value>) -> Option<&'v str>
    ensures { option_map (λ t. t.now) result ≡ images.text_or (option_map (λ t. t.now) other.entry) name.now (option_map (λ v. view v.now) value.entry) }
{
    if part_in(value, name).is_some() {
        text_in(value, name)
    } else {
        other
    }
}

/// How many items there are.
#[tactic(auto, using(oci_rules::proofs::Extents::items_extent))]
pub fn count(items: &Vec<Value>) -> usize
    ensures { result ≡ items_len (items_view items.now.items) }
{
    items.len()
}
