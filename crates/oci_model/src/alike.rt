//! Trees that count as equal: all numbers but the 64-bit whole ones are one and the same.
ghost use Rattle.std.specs.Prelude.{◌≡◌, ◌↔◌, true, option_map};
ghost use Rattle.std.specs.Option.{option_eq};
ghost use Rattle.serde_json.specs.View.{view, items_view, members_view, number_view};
ghost use Rattle.oci_model.specs.Erased.{erased};
ghost use Rattle.oci_model.specs.Alike.{is_same, is_same_number, are_same, hold_same};
ghost use Rattle.oci_model.specs.FreeValues.{alike, free_eq, free_values_plain};

use serde_json::{Map, Number, Value};
use std::collections::BTreeMap;

/// Returns whether two values are equal, where all numbers other than 64-bit integers count as one. It recurses as deep as they nest.
pub fn equal_trees(a: &Value, b: &Value) -> bool
    ensures { (result ≡ true) ↔ (erased (view a.now) ≡ erased (view b.now)) }
{
    same(a, b)
}

fn same_number(a: &Number, b: &Number) -> bool
    ensures { result ≡ is_same_number (number_view a.now) (number_view b.now) }
{
    a.as_i128() == b.as_i128()
}

#[cycle(same)]
fn same(a: &Value, b: &Value) -> bool
    ensures { result ≡ is_same (view a.now) (view b.now) }
{
    match (a, b) {
        (Value::Null, Value::Null) => true,
        (Value::Bool(x), Value::Bool(y)) => *x == *y,
        (Value::Number(x), Value::Number(y)) => same_number(x, y),
        (Value::String(x), Value::String(y)) => x == y,
        (Value::Array(x), Value::Array(y)) => same_items(x, y),
        (Value::Object(x), Value::Object(y)) => same_members(x, y),
        _ => false,
    }
}

#[cycle(same)]
fn same_items(a: &Vec<Value>, b: &Vec<Value>) -> bool
    ensures { result ≡ are_same (items_view a.now.items) (items_view b.now.items) }
{
    let mut others = b.iter();
    for x in a {
        match others.next() {
            Some(y) => {
                if !same(x, y) {
                    return false;
                }
            }
            None => return false,
        }
    }
    others.next().is_none()
}

#[cycle(same)]
fn same_members(a: &Map<String, Value>, b: &Map<String, Value>) -> bool
    ensures { result ≡ hold_same (members_view a.now.entries) (members_view b.now.entries) }
{
    let mut others = b.iter();
    for (k, x) in a.iter() {
        match others.next() {
            Some((l, y)) => {
                if k != l || !same(x, y) {
                    return false;
                }
            }
            None => return false,
        }
    }
    others.next().is_none()
}

fn same_value(a: &Option<Value>, b: &Option<Value>) -> bool
    ensures { result ≡ alike (option_map view a.now) (option_map view b.now) }
{
    match (a, b) {
        (Some(x), Some(y)) => same(x, y),
        (None, None) => true,
        _ => false,
    }
}

/// Returns whether two maps of free values have the same names and, under each, equal values or both `None`.
pub fn equal_values(
    a: &BTreeMap<String, Option<Value>>,
    b: &BTreeMap<String, Option<Value>>,
) -> bool
    ensures { (result ≡ true) ↔ (free_values_plain a.now ≡ free_values_plain b.now) }
{
    same_values(a, b)
}

fn same_values(a: &BTreeMap<String, Option<Value>>, b: &BTreeMap<String, Option<Value>>) -> bool
    ensures { result ≡ free_eq a.now b.now }
{
    let mut others = b.iter();
    for (k, x) in a.iter() {
        match others.next() {
            Some((l, y)) => {
                if k != l || !same_value(x, y) {
                    return false;
                }
            }
            None => return false,
        }
    }
    others.next().is_none()
}

/// The same for maps that may be `None`.
pub fn equal_optional_values(
    a: &Option<BTreeMap<String, Option<Value>>>,
    b: &Option<BTreeMap<String, Option<Value>>>,
) -> bool
    ensures { result ≡ option_eq free_eq a.now b.now }
{
    match (a, b) {
        (Some(x), Some(y)) => same_values(x, y),
        (None, None) => true,
        _ => false,
    }
}
