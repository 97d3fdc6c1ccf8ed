//! Values from the elements of a tape.
ghost use Rattle.std.specs.Prelude.{◌≡◌, ◌≤◌, ◌+◌, IfSome};
ghost use Rattle.serde_json.specs.Data.{Data, Items as DataItems, Members as DataMembers, array, depth as nesting, no_members, number as number_data, object};
ghost use Rattle.serde_json.specs.View.{view};
ghost use Rattle.oci_json_tape.specs.Elements.{BeginsWithData};
ghost use Rattle.oci_json_tape.specs.Numbers.{num_of};
ghost use Rattle.oci_json_tape.specs.Walked.{InItemsData, InMembersData};
ghost use Rattle.oci_json_tape.specs.Values.{IfMade};

use crate::element::{boolean, is_null, number, text};
use crate::numeral::Number;
use crate::walk::{items, members, next_item, next_member};
use json::{Element, Items, Members};
use serde_json::{Map, Value};
use std::alloc::{AllocError, Global};

/// The value that begins at the element; `None` if its arrays and objects nest deeper than `depth`. Of members with one name the
/// last is kept. Fails if out of memory.
#[cycle(reads)]
pub fn value_of(
    element: &Element<'_, '_>,
    depth: usize,
    alloc: Global,
) -> Result<Option<Value>, AllocError>
    ensures value { IfMade result (λ v. (d : Data) → BeginsWithData element.now d → v ≡ d) }
    ensures nests { IfMade result (λ v. nesting v ≤ depth) }
{
    if let Some(rest) = items(element) {
        if depth == 0 {
            return Ok(None);
        }
        return array_of(rest, depth - 1, alloc);
    }
    if let Some(rest) = members(element) {
        if depth == 0 {
            return Ok(None);
        }
        return object_of(rest, depth - 1, alloc);
    }
    scalar_of(element, alloc)
}

/// The array of the items that are left; `None` if one of them nests deeper than `depth`.
#[cycle(reads)]
fn array_of(
    mut rest: Items<'_, '_>,
    depth: usize,
    alloc: Global,
) -> Result<Option<Value>, AllocError>
    ensures value { IfMade result (λ v. (ds : DataItems) → InItemsData rest.entry ds → v ≡ array ds) }
    ensures nests { IfMade result (λ v. nesting v ≤ depth + 1) }
{
    let mut found = Vec::new(alloc);
    'each_item: while let Some(item) = next_item(&mut rest) {
        match value_of(&item, depth, alloc)? {
            Some(value) => found.push(value)?,
            None => return Ok(None),
        }
    }
    Ok(Some(Value::Array(found)))
}

/// The object of the members that are left; `None` if one of their values nests deeper than `depth`.
#[cycle(reads)]
fn object_of(
    mut rest: Members<'_, '_>,
    depth: usize,
    alloc: Global,
) -> Result<Option<Value>, AllocError>
    ensures value { IfMade result (λ v. (ms : DataMembers) → InMembersData rest.entry no_members ms → v ≡ object ms) }
    ensures nests { IfMade result (λ v. nesting v ≤ depth + 1) }
{
    let mut found = Map::new(alloc);
    'each_member: while let Some((name, member)) = next_member(&mut rest) {
        let key = String::from_str(alloc, name)?;
        match value_of(&member, depth, alloc)? {
            Some(value) => drop(found.insert(key, value)?),
            None => return Ok(None),
        }
    }
    Ok(Some(Value::Object(found)))
}

/// The value of a string, a number, a boolean or null.
fn scalar_of(element: &Element<'_, '_>, alloc: Global) -> Result<Option<Value>, AllocError>
    ensures value { IfMade result (λ v. (d : Data) → BeginsWithData element.now d → v ≡ d) }
    ensures flat { IfMade result (λ v. nesting v ≡ 0) }
{
    if let Some(content) = text(element) {
        return Ok(Some(Value::String(String::from_str(alloc, content)?)));
    }
    if let Some(found) = number(element) {
        return Ok(number_value(found));
    }
    if let Some(truth) = boolean(element) {
        return Ok(Some(Value::Bool(truth)));
    }
    if is_null(element) {
        return Ok(Some(Value::Null));
    }
    Ok(None)
}

/// The value of a number; `None` for one that no text has.
fn number_value(found: Number) -> Option<Value>
    ensures { IfSome result (λ v. view v ≡ number_data (num_of found)) }
{
    match found {
        Number::Unsigned(n) => Some(Value::from(n)),
        Number::Negative(n) => if n < 0 { Some(Value::from(n)) } else { None },
        Number::Float(x) => match serde_json::Number::from_f64(x) {
            Some(float) => Some(Value::Number(float)),
            None => None,
        },
    }
}
