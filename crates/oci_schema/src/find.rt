//! All violations of a schema by a value. A walk of its own beside that of `crate::unknown_members`: a member is looked for under its
//! name or under its alias, never under both, null may count as absent, and what is missing is listed too.
ghost use Rattle.std.specs.Prelude.{◌≡◌, ◌∷◌, ◌++◌, [], None, map, option_map, OnOk};
ghost use Rattle.serde_json.specs.View.{view, items_view, members_view};
ghost use Rattle.oci_schema.specs.Shapes.{scalar_shape, part_shape, schema_shape, presence_of, members_in};
ghost use Rattle.oci_schema.specs.Places.{pointer, under_name as under};
ghost use Rattle.oci_schema.specs.EachPart.{of_each, of_each_member};
ghost use Rattle.oci_schema.specs.Violations.{reported, violations as all_violations, rows_violations, known_violations, member_violations, expectation_of, value_kind, a_value, no_alias};

use crate::member::is_null_absent;
use crate::place::{Place, pointer as pointer_of};
use crate::scalar::scalar_allows;
use crate::violation::expected_kind;
use crate::{Expected, ExpectedKind, Member, Part, Presence, Records, Scalar, Schema, Violation};
use serde_json::{Map, Value};
use std::alloc::{AllocError, Global};

fn push(
    at: &Place<'_>,
    expected: Expected,
    found: &mut Vec<Violation>,
    alloc: Global,
) -> Result<(), AllocError>
    ensures { OnOk result (map reported found.new.items ≡ map reported found.old.items ++ (pointer at.now, expectation_of expected) ∷ []) }
{
    let pointer = pointer_of(at, alloc)?;
    found.push(Violation { pointer, expected })?;
    Ok(())
}

/// Adds that a value of this kind is expected at this place.
fn reject(
    kind: ExpectedKind,
    at: &Place<'_>,
    found: &mut Vec<Violation>,
    alloc: Global,
) -> Result<(), AllocError>
    ensures { OnOk result (map reported found.new.items ≡ map reported found.old.items ++ (pointer at.now, a_value (value_kind kind)) ∷ []) }
{
    push(at, Expected::Value(kind), found, alloc)
}

fn add_scalar(
    scalar: &Scalar,
    value: &Value,
    at: &Place<'_>,
    found: &mut Vec<Violation>,
    alloc: Global,
) -> Result<(), AllocError>
    ensures { OnOk result (map reported found.new.items ≡ map reported found.old.items ++ all_violations (scalar_shape scalar.now) (pointer at.now) (view value.now)) }
{
    if scalar_allows(scalar, value) {
        return Ok(());
    }
    reject(ExpectedKind::Scalar(*scalar), at, found, alloc)
}

/// Adds all violations of the schema by the value at this place, in the order of the schema's members.
#[cycle(violations)]
pub fn add_violations<T: Records>(
    records: &T,
    schema: &Schema,
    value: &Value,
    at: &Place<'_>,
    found: &mut Vec<Violation>,
    alloc: Global,
) -> Result<(), AllocError>
    ensures { OnOk result (map reported found.new.items ≡ map reported found.old.items ++ all_violations (schema_shape (T.shape_at records.now) schema.now) (pointer at.now) (view value.now)) }
{
    match schema {
        Schema::One(part) => add_part(records, part, value, at, found, alloc),
        Schema::List(part) => match value.as_array() {
            Some(items) => add_items(records, part, items, at, found, alloc),
            None => reject(ExpectedKind::Array, at, found, alloc),
        },
        Schema::Map(part) => match value.as_object() {
            Some(entries) => add_entries(records, part, entries, at, found, alloc),
            None => reject(ExpectedKind::Object, at, found, alloc),
        },
    }
}

#[cycle(violations)]
fn add_part<T: Records>(
    records: &T,
    part: &Part,
    value: &Value,
    at: &Place<'_>,
    found: &mut Vec<Violation>,
    alloc: Global,
) -> Result<(), AllocError>
    ensures { OnOk result (map reported found.new.items ≡ map reported found.old.items ++ all_violations (part_shape (T.shape_at records.now) part.now) (pointer at.now) (view value.now)) }
{
    match part {
        Part::Scalar(scalar) => add_scalar(scalar, value, at, found, alloc),
        Part::Record(place) => add_record(records, *place, value, at, found, alloc),
    }
}

#[cycle(violations)]
fn add_record<T: Records>(
    records: &T,
    place: usize,
    value: &Value,
    at: &Place<'_>,
    found: &mut Vec<Violation>,
    alloc: Global,
) -> Result<(), AllocError>
    ensures { OnOk result (map reported found.new.items ≡ map reported found.old.items ++ all_violations (T.shape_at records.now place) (pointer at.now) (view value.now)) }
{
    let record = records.record(place);
    if value.is_object() {
        add_members(records, record.members, value, at, found, alloc)
    } else {
        reject(ExpectedKind::Object, at, found, alloc)
    }
}

#[cycle(violations)]
fn add_items<T: Records>(
    records: &T,
    part: &Part,
    items: &Vec<Value>,
    at: &Place<'_>,
    found: &mut Vec<Violation>,
    alloc: Global,
) -> Result<(), AllocError>
    ensures { OnOk result (map reported found.new.items ≡ map reported found.old.items ++ of_each (all_violations (part_shape (T.shape_at records.now) part.now)) (pointer at.now) 0 (items_view items.now.items)) }
{
    for (index, item) in items.iter().enumerate() {
        let place = Place::Item(&*at, index);
        add_part(records, part, item, &place, found, alloc)?;
    }
    Ok(())
}

#[cycle(violations)]
fn add_entries<T: Records>(
    records: &T,
    part: &Part,
    entries: &Map<String, Value>,
    at: &Place<'_>,
    found: &mut Vec<Violation>,
    alloc: Global,
) -> Result<(), AllocError>
    ensures { OnOk result (map reported found.new.items ≡ map reported found.old.items ++ of_each_member (all_violations (part_shape (T.shape_at records.now) part.now)) (pointer at.now) (members_view entries.now.entries)) }
{
    for (name, entry) in entries.iter() {
        let place = Place::Member(&*at, name.as_str());
        add_part(records, part, entry, &place, found, alloc)?;
    }
    Ok(())
}

#[cycle(violations)]
fn add_members<T: Records>(
    records: &T,
    members: &[Member],
    value: &Value,
    at: &Place<'_>,
    found: &mut Vec<Violation>,
    alloc: Global,
) -> Result<(), AllocError>
    ensures { OnOk result (map reported found.new.items ≡ map reported found.old.items ++ rows_violations (members_in (T.shape_at records.now) members.now) (pointer at.now) (view value.now)) }
{
    for member in members {
        add_member(records, member, value, at, found, alloc)?;
    }
    Ok(())
}

#[cycle(violations)]
fn add_member<T: Records>(
    records: &T,
    member: &Member,
    value: &Value,
    at: &Place<'_>,
    found: &mut Vec<Violation>,
    alloc: Global,
) -> Result<(), AllocError>
    ensures { OnOk result (map reported found.new.items ≡ map reported found.old.items ++ known_violations (T.shape_at records.now) member.now (pointer at.now) (view value.now)) }
{
    let there = value.get(member.name);
    let own = Place::Member(&*at, member.name);
    let Some(alias) = member.alias else {
        return add_found(records, member, there, &own, found, alloc);
    };
    let other = value.get(alias);
    if other.is_none() {
        add_found(records, member, there, &own, found, alloc)
    } else if there.is_none() {
        let place = Place::Member(&*at, alias);
        add_found(records, member, other, &place, found, alloc)
    } else {
        push(&own, Expected::NoAlias(alias), found, alloc)
    }
}

/// Adds the violations by what is found at the place of the member, under its name or its alias.
#[cycle(violations)]
fn add_found<T: Records>(
    records: &T,
    member: &Member,
    there: Option<&Value>,
    at: &Place<'_>,
    found: &mut Vec<Violation>,
    alloc: Global,
) -> Result<(), AllocError>
    ensures { OnOk result (map reported found.new.items ≡ map reported found.old.items ++ member_violations (presence_of member.now.presence) (schema_shape (T.shape_at records.now) member.now.schema) (all_violations (schema_shape (T.shape_at records.now) member.now.schema)) (pointer at.now) (option_map (λ v. view v.now) there.entry)) }
{
    match there {
        None => add_missing(records, member, at, found, alloc),
        Some(value) => {
            if value.is_null() && is_null_absent(&member.presence) {
                return Ok(());
            }
            add_violations(records, &member.schema, value, at, found, alloc)
        }
    }
}

/// Adds the violation where a member is missing, if it is required.
fn add_missing<T: Records>(
    records: &T,
    member: &Member,
    at: &Place<'_>,
    found: &mut Vec<Violation>,
    alloc: Global,
) -> Result<(), AllocError>
    ensures { OnOk result (map reported found.new.items ≡ map reported found.old.items ++ member_violations (presence_of member.now.presence) (schema_shape (T.shape_at records.now) member.now.schema) (all_violations (schema_shape (T.shape_at records.now) member.now.schema)) (pointer at.now) None) }
{
    match member.presence {
        Presence::Required => {
            let kind = expected_kind(records, &member.schema);
            push(at, Expected::Member(kind), found, alloc)
        }
        _ => Ok(()),
    }
}
