//! Members that no schema lists. A walk of its own beside that of `crate::violations`: it looks under a member's name and under its
//! alias, goes on where a value is not of its kind, and lists nothing there. What both list of parts is one definition, with one proof.
ghost use Rattle.std.specs.Prelude.{◌≡◌, ◌↔◌, ◌∷◌, ◌++◌, [], Some, map, option_map, IfOk, OnOk};
ghost use Rattle.std.specs.List.{Contains};
ghost use Rattle.serde_json.specs.Find.{as_object};
ghost use Rattle.serde_json.specs.View.{view, items_view, members_view};
ghost use Rattle.oci_base.specs.Names.{is_listed as is_name_of};
ghost use Rattle.oci_model.specs.Shape.{with_second};
ghost use Rattle.oci_schema.specs.Shapes.{part_shape, schema_shape, members_in, alias_of};
ghost use Rattle.oci_schema.specs.EachPart.{of_each, of_each_member, of_part};
ghost use Rattle.oci_schema.specs.Places.{pointer, under_name as under};
ghost use Rattle.oci_schema.specs.Reported.{reported, names_in};
ghost use Rattle.oci_schema.specs.Unknown.{Report, IsUnknown, unknown, unknown_in, unlisted, unlisted_in, unless_listed, of_named};

use crate::place::{Place, pointer as pointer_of};
use crate::{Member, Part, Record, Records, Schema};
use serde_json::{Map, Value};
use std::alloc::{AllocError, Global};

/// A member of a record's object that the record does not list.
#[derive(Drop)]
pub struct UnknownMember {
    /// Where it is, as a JSON pointer (RFC 6901).
    pub pointer: String,
    /// Its name.
    pub name: String,
    /// The record.
    pub owner: &'static Record,
}

/// Returns every member of a record's object in `value` that the record does not list, whatever it holds. What is kept as any value
/// (a free map, an annotation) is not looked into. Fails if out of memory.
pub fn unknown_members<T: Records>(
    records: &T,
    schema: &Schema,
    value: &Value,
    alloc: Global,
) -> Result<Vec<UnknownMember>, AllocError>
    ensures all { IfOk result (λ v. map reported v.items ≡ unknown (schema_shape (T.shape_at records.now) schema.now) [] (view value.now)) }
    ensures listed { IfOk result (λ v. (x : Report) → Contains (map reported v.items) x ↔ IsUnknown (schema_shape (T.shape_at records.now) schema.now) (view value.now) x) }
{
    let mut found = Vec::new(alloc);
    add_schema(records, schema, value, &Place::Root, &mut found, alloc)?;
    Ok(found)
}

/// Adds the unknown members in the value at this place.
#[cycle(unknown)]
fn add_schema<T: Records>(
    records: &T,
    schema: &Schema,
    value: &Value,
    at: &Place<'_>,
    found: &mut Vec<UnknownMember>,
    alloc: Global,
) -> Result<(), AllocError>
    ensures { OnOk result (map reported found.new.items ≡ map reported found.old.items ++ unknown (schema_shape (T.shape_at records.now) schema.now) (pointer at.now) (view value.now)) }
{
    match schema {
        Schema::One(part) => add_part(records, part, value, at, found, alloc),
        Schema::List(part) => match value.as_array() {
            Some(items) => add_items(records, part, items, at, found, alloc),
            None => Ok(()),
        },
        Schema::Map(part) => match value.as_object() {
            Some(entries) => add_entries(records, part, entries, at, found, alloc),
            None => Ok(()),
        },
    }
}

#[cycle(unknown)]
fn add_part<T: Records>(
    records: &T,
    part: &Part,
    value: &Value,
    at: &Place<'_>,
    found: &mut Vec<UnknownMember>,
    alloc: Global,
) -> Result<(), AllocError>
    ensures { OnOk result (map reported found.new.items ≡ map reported found.old.items ++ unknown (part_shape (T.shape_at records.now) part.now) (pointer at.now) (view value.now)) }
{
    match part {
        Part::Scalar(_) => Ok(()),
        Part::Record(place) => add_record(records, *place, value, at, found, alloc),
    }
}

#[cycle(unknown)]
fn add_record<T: Records>(
    records: &T,
    place: usize,
    value: &Value,
    at: &Place<'_>,
    found: &mut Vec<UnknownMember>,
    alloc: Global,
) -> Result<(), AllocError>
    ensures { OnOk result (map reported found.new.items ≡ map reported found.old.items ++ unknown (T.shape_at records.now place) (pointer at.now) (view value.now)) }
{
    let record = records.record(place);
    add_own(record, value, at, found, alloc)?;
    add_members(records, record.members, value, at, found, alloc)?;
    Ok(())
}

/// Adds the members of the value, if it is an object, that the record does not list.
fn add_own(
    owner: &'static Record,
    value: &Value,
    at: &Place<'_>,
    found: &mut Vec<UnknownMember>,
    alloc: Global,
) -> Result<(), AllocError>
    ensures { OnOk result (map reported found.new.items ≡ map reported found.old.items ++ unlisted_in (names_in owner.now.members.now) (pointer at.now) (as_object (view value.now))) }
{
    match value.as_object() {
        Some(members) => add_unlisted(owner, members, at, found, alloc),
        None => Ok(()),
    }
}

/// Adds the members of the object that the record does not list.
fn add_unlisted(
    owner: &'static Record,
    members: &Map<String, Value>,
    at: &Place<'_>,
    found: &mut Vec<UnknownMember>,
    alloc: Global,
) -> Result<(), AllocError>
    ensures { OnOk result (map reported found.new.items ≡ map reported found.old.items ++ unlisted (names_in owner.now.members.now) (pointer at.now) (members_view members.now.entries)) }
{
    for (name, _) in members.iter() {
        add_unless_listed(owner, name.as_str(), at, found, alloc)?;
    }
    Ok(())
}

fn add_unless_listed(
    owner: &'static Record,
    name: &str,
    at: &Place<'_>,
    found: &mut Vec<UnknownMember>,
    alloc: Global,
) -> Result<(), AllocError>
    ensures { OnOk result (map reported found.new.items ≡ map reported found.old.items ++ unless_listed (names_in owner.now.members.now) (pointer at.now) name.now) }
{
    if lists(owner.members, name) {
        return Ok(());
    }
    let pointer = pointer_of(&Place::Member(&*at, &*name), alloc)?;
    let name = String::from_str(alloc, name)?;
    found.push(UnknownMember {
        pointer,
        name,
        owner,
    })?;
    Ok(())
}

/// Whether one of the members has this name, or this alias.
fn lists(members: &[Member], name: &str) -> bool
    ensures { result ≡ is_name_of (names_in members.now) name.now }
{
    for member in members {
        if is_named(member, name) {
            return true;
        }
    }
    false
}

fn is_named(member: &Member, name: &str) -> bool
    ensures { result ≡ is_name_of (member.now.name.now ∷ with_second (alias_of member.now.alias) []) name.now }
{
    if name == member.name {
        return true;
    }
    match member.alias {
        Some(alias) => name == alias,
        None => false,
    }
}

#[cycle(unknown)]
fn add_items<T: Records>(
    records: &T,
    part: &Part,
    items: &Vec<Value>,
    at: &Place<'_>,
    found: &mut Vec<UnknownMember>,
    alloc: Global,
) -> Result<(), AllocError>
    ensures { OnOk result (map reported found.new.items ≡ map reported found.old.items ++ of_each (unknown (part_shape (T.shape_at records.now) part.now)) (pointer at.now) 0 (items_view items.now.items)) }
{
    for (index, item) in items.iter().enumerate() {
        let place = Place::Item(&*at, index);
        add_part(records, part, item, &place, found, alloc)?;
    }
    Ok(())
}

#[cycle(unknown)]
fn add_entries<T: Records>(
    records: &T,
    part: &Part,
    entries: &Map<String, Value>,
    at: &Place<'_>,
    found: &mut Vec<UnknownMember>,
    alloc: Global,
) -> Result<(), AllocError>
    ensures { OnOk result (map reported found.new.items ≡ map reported found.old.items ++ of_each_member (unknown (part_shape (T.shape_at records.now) part.now)) (pointer at.now) (members_view entries.now.entries)) }
{
    for (name, entry) in entries.iter() {
        let place = Place::Member(&*at, name.as_str());
        add_part(records, part, entry, &place, found, alloc)?;
    }
    Ok(())
}

#[cycle(unknown)]
fn add_members<T: Records>(
    records: &T,
    members: &[Member],
    value: &Value,
    at: &Place<'_>,
    found: &mut Vec<UnknownMember>,
    alloc: Global,
) -> Result<(), AllocError>
    ensures { OnOk result (map reported found.new.items ≡ map reported found.old.items ++ unknown_in (members_in (T.shape_at records.now) members.now) (pointer at.now) (view value.now)) }
{
    for member in members {
        add_member(records, member, value, at, found, alloc)?;
    }
    Ok(())
}

#[cycle(unknown)]
fn add_member<T: Records>(
    records: &T,
    member: &Member,
    value: &Value,
    at: &Place<'_>,
    found: &mut Vec<UnknownMember>,
    alloc: Global,
) -> Result<(), AllocError>
    ensures { OnOk result (map reported found.new.items ≡ map reported found.old.items ++ (of_named (unknown (schema_shape (T.shape_at records.now) member.now.schema)) (Some member.now.name.now) (pointer at.now) (view value.now) ++ of_named (unknown (schema_shape (T.shape_at records.now) member.now.schema)) (alias_of member.now.alias) (pointer at.now) (view value.now))) }
{
    let schema = &member.schema;
    let own = Place::Member(&*at, member.name);
    add_found(records, schema, value.get(member.name), &own, found, alloc)?;
    match member.alias {
        Some(alias) => {
            let place = Place::Member(&*at, alias);
            add_found(records, schema, value.get(alias), &place, found, alloc)
        }
        None => Ok(()),
    }
}

/// Adds the unknown members in what is found at the place, if anything is.
#[cycle(unknown)]
fn add_found<T: Records>(
    records: &T,
    schema: &Schema,
    there: Option<&Value>,
    at: &Place<'_>,
    found: &mut Vec<UnknownMember>,
    alloc: Global,
) -> Result<(), AllocError>
    ensures { OnOk result (map reported found.new.items ≡ map reported found.old.items ++ of_part (unknown (schema_shape (T.shape_at records.now) schema.now)) (pointer at.now) (option_map (λ v. view v.now) there.entry)) }
{
    match there {
        Some(value) => add_schema(records, schema, value, at, found, alloc),
        None => Ok(()),
    }
}
