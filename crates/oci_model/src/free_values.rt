//! Objects of any values, kept as trees (runtime specification, "Windows-specific Container Configuration", "Credential Spec").
ghost use Rattle.std.specs.Prelude.{◌≡◌, IfOk, option_map, unwrap_or};
ghost use Rattle.serde_json.specs.Data.{null};
ghost use Rattle.serde_json.specs.View.{view, members_view};
ghost use Rattle.serde_json.specs.Written.{has_float, members_have_float};
ghost use Rattle.oci_model.specs.Means.{unless_null, free_values};
ghost use Rattle.oci_model.specs.Value.{free_members};
ghost use Rattle.oci_model.specs.FreeValues.{values_view};

use crate::OciKind;
use crate::fault::refused;
use crate::other_numbers::{has_other_numbers, members_have_other_numbers};
use crate::parts::into_members;
use oci_base::Result;
use serde_json::{Map, Value};
use std::alloc::{AllocError, Global};
use std::collections::BTreeMap;

/// An object of any values whose numbers are 64-bit integers; null is read as `None`. A null that code sets as a value is written
/// as null, too, and read back as `None`.
pub struct FreeValues;

impl OciKind<BTreeMap<String, Option<Value>>> for FreeValues {
    ghost use Rattle.oci_model.specs.Shape.{free_map};
    ghost use Rattle.oci_model.specs.FreeValues.{free_values_plain};

    ghost shape = { free_map };

    ghost plain = { free_values_plain };

    fn read(alloc: Global, value: Value) -> Result<BTreeMap<String, Option<Value>>> {
        match into_members(value) {
            Some(members) => {
                if members_have_other_numbers(&members) {
                    Err(refused("", ""))
                } else {
                    Ok(kept_values(alloc, members)?)
                }
            }
            None => Err(refused("", "")),
        }
    }

    fn write(x: &BTreeMap<String, Option<Value>>, alloc: Global) -> Result<Value> {
        if values_have_other_numbers(x) {
            Err(refused("", ""))
        } else {
            Ok(Value::Object(written_values(alloc, x)?))
        }
    }

    fn copy(
        x: &BTreeMap<String, Option<Value>>,
        alloc: Global,
    ) -> Result<BTreeMap<String, Option<Value>>> {
        Ok(copied_values(alloc, x)?)
    }
}

fn kept(value: Value) -> Option<Value>
    ensures { option_map view result ≡ unless_null (view value) }
{
    if value.is_null() { None } else { Some(value) }
}

fn kept_values(
    alloc: Global,
    members: Map<String, Value>,
) -> std::result::Result<BTreeMap<String, Option<Value>>, AllocError>
    ensures { IfOk result (λ m. values_view m.entries ≡ free_values (members_view members.entries)) }
{
    let mut entries = BTreeMap::new(alloc);
    for (name, value) in members {
        drop(entries.insert(name, kept(value))?);
    }
    Ok(entries)
}

fn written(value: &Option<Value>) -> std::result::Result<Value, AllocError>
    ensures { IfOk result (λ v. view v ≡ unwrap_or (option_map view value.now) null) }
{
    match value {
        Some(value) => value.clone(),
        None => Ok(Value::Null),
    }
}

fn written_values(
    alloc: Global,
    entries: &BTreeMap<String, Option<Value>>,
) -> std::result::Result<Map<String, Value>, AllocError>
    ensures { IfOk result (λ m. members_view m.entries ≡ free_members (values_view entries.now.entries)) }
{
    let mut members = Map::new(alloc);
    for (name, value) in entries.iter() {
        let name = name.clone()?;
        drop(members.insert(name, written(value)?)?);
    }
    Ok(members)
}

fn value_has_other_numbers(value: &Option<Value>) -> bool
    ensures { result ≡ has_float (unwrap_or (option_map view value.now) null) }
{
    match value {
        Some(value) => has_other_numbers(value),
        None => false,
    }
}

fn values_have_other_numbers(entries: &BTreeMap<String, Option<Value>>) -> bool
    ensures { result ≡ members_have_float (free_members (values_view entries.now.entries)) }
{
    for (_, value) in entries.iter() {
        if value_has_other_numbers(value) {
            return true;
        }
    }
    false
}

fn copied(value: &Option<Value>) -> std::result::Result<Option<Value>, AllocError>
    ensures { IfOk result (λ o. option_map view o ≡ option_map view value.now) }
{
    match value {
        Some(value) => Ok(Some(value.clone()?)),
        None => Ok(None),
    }
}

fn copied_values(
    alloc: Global,
    entries: &BTreeMap<String, Option<Value>>,
) -> std::result::Result<BTreeMap<String, Option<Value>>, AllocError>
    ensures { IfOk result (λ m. values_view m.entries ≡ values_view entries.now.entries) }
{
    let mut copies = BTreeMap::new(alloc);
    for (name, value) in entries.iter() {
        let name = name.clone()?;
        drop(copies.insert(name, copied(value)?)?);
    }
    Ok(copies)
}
