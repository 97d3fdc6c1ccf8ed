//! Whether paths are inside one another.
ghost use Rattle.std.specs.Prelude.{◌≡◌, not};
ghost use Rattle.serde_json.specs.View.{view, items_view};
ghost use Rattle.oci_grammars.specs.DecidedNesting.{is_inside as inside_of};
ghost use Rattle.oci_rules.specs.Decided.{all_items, is_apart as apart_from, are_apart as all_apart};

use crate::parts::text_at;
use oci_grammars::is_inside;
use serde_json::Value;

/// Whether no path under the name in an item is inside that of another.
pub fn are_apart(name: &str, items: &Vec<Value>) -> bool
    ensures { result ≡ all_apart name.now (items_view items.now.items) (items_view items.now.items) }
{
    for item in items {
        if !is_apart_from_all(name, item, items) {
            return false;
        }
    }
    true
}

/// Whether no path under the name in the items is inside that of this item.
fn is_apart_from_all(name: &str, item: &Value, items: &Vec<Value>) -> bool
    ensures { result ≡ all_items (apart_from name.now (view item.now)) (items_view items.now.items) }
{
    for other in items {
        if !is_apart(name, item, other) {
            return false;
        }
    }
    true
}

fn is_apart(name: &str, item: &Value, other: &Value) -> bool
    ensures { result ≡ apart_from name.now (view item.now) (view other.now) }
{
    match text_at(item, name) {
        Some(outer) => match text_at(other, name) {
            Some(inner) => !is_within(inner, outer),
            None => true,
        },
        None => true,
    }
}

fn is_within(path: &str, other: &str) -> bool
    ensures { result ≡ inside_of other.now path.now }
{
    is_inside(path, other)
}
