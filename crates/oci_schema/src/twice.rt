//! Names that stand twice in one object.
ghost use Rattle.std.specs.Prelude.{◌≡◌, ◌↔◌, ◌++◌, [], ℕ, List, Some, Err, None, map, option_map, string_bytes, IfOk, IsSomeAnd, OnOk};
ghost use Rattle.std.specs.BTreeSet.{contains_text};
ghost use Rattle.json.specs.Json.{document};
ghost use Rattle.json.specs.Strict.{HasUniqueKeys};
ghost use Rattle.json.specs.Value.{value_view, items_view, members_view};
ghost use Rattle.oci_schema.specs.Places.{pointer};
ghost use Rattle.oci_schema.specs.Twice.{repeated, repeated_items, repeated_members, no_name, with_name, if_there};

use crate::place::{Place, pointer as pointer_of};
use json::{Error, Scratch, Value};
use std::alloc::{AllocError, Global};
use std::collections::BTreeSet;

/// Returns the pointer (RFC 6901) of each member of `text` whose name an earlier member of the same object has, once for each that
/// is too much. Names are compared by what they spell, `"a"` and `"\u0061"` alike. `Invalid` if the text is not JSON, else fails only if
/// out of memory.
#[tactic(auto, using(crate::proofs::Unique::none_twice))]
pub fn repeated_names(text: &str, alloc: Global) -> Result<Vec<String>, Error>
    ensures all { IfOk result (λ v. option_map (repeated []) (document text.now) ≡ Some (map string_bytes v.items)) }
    ensures none { IfOk result (λ v. (v.items ≡ []) ↔ IsSomeAnd (document text.now) HasUniqueKeys) }
    ensures invalid { result ≡ Err Error.Invalid → document text.now ≡ None }
{
    let mut scratch = Scratch::new(alloc);
    let value = Value::parse(alloc, text, &mut scratch)?;
    Ok(repeated_in(&value, alloc)?)
}

fn repeated_in(value: &Value, alloc: Global) -> Result<Vec<String>, AllocError>
    ensures { IfOk result (λ v. map string_bytes v.items ≡ repeated [] (value_view value.now)) }
{
    let mut found = Vec::new(alloc);
    add_value(value, &Place::Root, &mut found, alloc)?;
    Ok(found)
}

#[cycle(twice)]
fn add_value(
    value: &Value,
    at: &Place<'_>,
    found: &mut Vec<String>,
    alloc: Global,
) -> Result<(), AllocError>
    ensures { OnOk result (map string_bytes found.new.items ≡ map string_bytes found.old.items ++ repeated (pointer at.now) (value_view value.now)) }
{
    match value {
        Value::Array(items) => add_items(items.as_slice(), at, found, alloc),
        Value::Object(members) => add_members(members.as_slice(), at, found, alloc),
        _ => Ok(()),
    }
}

#[cycle(twice)]
fn add_items(
    items: &[Value],
    at: &Place<'_>,
    found: &mut Vec<String>,
    alloc: Global,
) -> Result<(), AllocError>
    ensures { OnOk result (map string_bytes found.new.items ≡ map string_bytes found.old.items ++ repeated_items (pointer at.now) 0 (items_view items.now)) }
{
    for (index, item) in items.iter().enumerate() {
        let place = Place::Item(&*at, index);
        add_value(item, &place, found, alloc)?;
    }
    Ok(())
}

#[cycle(twice)]
fn add_members(
    members: &[(&str, Value)],
    at: &Place<'_>,
    found: &mut Vec<String>,
    alloc: Global,
) -> Result<(), AllocError>
    ensures { OnOk result (map string_bytes found.new.items ≡ map string_bytes found.old.items ++ repeated_members (pointer at.now) no_name (members_view members.now)) }
{
    let mut before = BTreeSet::new(alloc);
    for (name, value) in members {
        let place = Place::Member(&*at, *name);
        add_if(before.contains(*name), &place, found, alloc)?;
        add_value(value, &place, found, alloc)?;
        put(name, &mut before, alloc)?;
    }
    Ok(())
}

fn add_if(
    seen: bool,
    at: &Place<'_>,
    found: &mut Vec<String>,
    alloc: Global,
) -> Result<(), AllocError>
    ensures { OnOk result (map string_bytes found.new.items ≡ map string_bytes found.old.items ++ if_there seen (pointer at.now)) }
{
    if seen {
        found.push(pointer_of(at, alloc)?)?;
    }
    Ok(())
}

/// Puts the name into the set.
fn put(name: &str, names: &mut BTreeSet<String>, alloc: Global) -> Result<(), AllocError>
    ensures { OnOk result ((q : List ℕ) → contains_text names.new q ≡ with_name name.now (contains_text names.old) q) }
{
    let key = String::from_str(alloc, name)?;
    drop(names.insert(key)?);
    Ok(())
}
