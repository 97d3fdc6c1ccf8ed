//! A canonical form with the members that no schema lists: a walk over the value that was read and over its canonical form, by the schema.
ghost use Rattle.std.specs.Prelude.{◌≡◌, ◌∷◌, [], option_map, IfOk, OnOk};
ghost use Rattle.serde_json.specs.Data.{array, object, no_members, put};
ghost use Rattle.serde_json.specs.Find.{as_object, get};
ghost use Rattle.serde_json.specs.View.{view, items_view, members_view};
ghost use Rattle.oci_base.specs.Names.{is_listed as is_name_of};
ghost use Rattle.oci_model.specs.Means.{get_second};
ghost use Rattle.oci_model.specs.Shape.{with_second};
ghost use Rattle.oci_model.specs.Value.{with_member};
ghost use Rattle.oci_schema.specs.Normalized.{chosen};
ghost use Rattle.oci_schema.specs.Reported.{names_in};
ghost use Rattle.oci_schema.specs.Shapes.{alias_of, members_in, part_shape, schema_shape};
ghost use Rattle.oci_commands.specs.Kept.{each_kept, kept, kept_entries, kept_or, kept_rows, kept_there, unless_listed, with_unlisted, with_unlisted_in};

use oci_schema::{Member, Part, Records, Schema};
use serde_json::{Map, Value};
use std::alloc::{AllocError, Global};

/// The canonical form of a value with each member of the value that the schema does not list, whatever it holds, in its place. Fails if out
/// of memory.
#[cycle(keeps)]
pub fn with_unknown<T: Records>(
    records: &T,
    schema: &Schema,
    read: &Value,
    canonical: &Value,
    alloc: Global,
) -> Result<Value, AllocError>
    ensures { IfOk result (λ v. view v ≡ kept (schema_shape (T.shape_at records.now) schema.now) (view read.now) (view canonical.now)) }
{
    match schema {
        Schema::One(part) => keep_part(records, part, read, canonical, alloc),
        Schema::List(part) => match canonical.as_array() {
            Some(items) => keep_items(records, part, read, items, alloc),
            None => canonical.clone(),
        },
        Schema::Map(part) => match canonical.as_object() {
            Some(entries) => keep_entries(records, part, read, entries, alloc),
            None => canonical.clone(),
        },
    }
}

#[cycle(keeps)]
fn keep_part<T: Records>(
    records: &T,
    part: &Part,
    read: &Value,
    canonical: &Value,
    alloc: Global,
) -> Result<Value, AllocError>
    ensures { IfOk result (λ v. view v ≡ kept (part_shape (T.shape_at records.now) part.now) (view read.now) (view canonical.now)) }
{
    match part {
        Part::Scalar(_) => canonical.clone(),
        Part::Record(place) => keep_record(records, *place, read, canonical, alloc),
    }
}

/// The same of a part that may not have been read: a default is as it is.
#[cycle(keeps)]
fn keep_part_or<T: Records>(
    records: &T,
    part: &Part,
    read: Option<&Value>,
    canonical: &Value,
    alloc: Global,
) -> Result<Value, AllocError>
    ensures { IfOk result (λ v. view v ≡ kept_or (kept (part_shape (T.shape_at records.now) part.now)) (option_map (λ r. view r.now) read.entry) (view canonical.now)) }
{
    match read {
        Some(read) => keep_part(records, part, read, canonical, alloc),
        None => canonical.clone(),
    }
}

#[cycle(keeps)]
fn keep_items<T: Records>(
    records: &T,
    part: &Part,
    read: &Value,
    items: &Vec<Value>,
    alloc: Global,
) -> Result<Value, AllocError>
    ensures { IfOk result (λ v. view v ≡ array (each_kept (kept (part_shape (T.shape_at records.now) part.now)) (view read.now) 0 (items_view items.now.items))) }
{
    let mut made = Vec::new(alloc);
    for (index, item) in items.iter().enumerate() {
        made.push(keep_part_or(records, part, read.get(index), item, alloc)?)?;
    }
    Ok(Value::Array(made))
}

#[cycle(keeps)]
fn keep_entries<T: Records>(
    records: &T,
    part: &Part,
    read: &Value,
    entries: &Map<String, Value>,
    alloc: Global,
) -> Result<Value, AllocError>
    ensures { IfOk result (λ v. view v ≡ object (kept_entries (kept (part_shape (T.shape_at records.now) part.now)) (view read.now) (members_view entries.now.entries) no_members)) }
{
    let mut made = Map::new(alloc);
    for (name, entry) in entries.iter() {
        let entry = keep_part_or(records, part, read.get(name.as_str()), entry, alloc)?;
        put_member(&mut made, name.as_str(), entry, alloc)?;
    }
    Ok(Value::Object(made))
}

#[cycle(keeps)]
fn keep_record<T: Records>(
    records: &T,
    place: usize,
    read: &Value,
    canonical: &Value,
    alloc: Global,
) -> Result<Value, AllocError>
    ensures { IfOk result (λ v. view v ≡ kept (T.shape_at records.now place) (view read.now) (view canonical.now)) }
{
    let record = records.record(place);
    match canonical.as_object() {
        Some(_) => keep_object(records, record.members, read, canonical, alloc),
        None => canonical.clone(),
    }
}

#[cycle(keeps)]
fn keep_object<T: Records>(
    records: &T,
    members: &[Member],
    read: &Value,
    canonical: &Value,
    alloc: Global,
) -> Result<Value, AllocError>
    ensures { IfOk result (λ v. view v ≡ object (with_unlisted_in (names_in members.now) (as_object (view read.now)) (kept_rows (members_in (T.shape_at records.now) members.now) (view read.now) (view canonical.now) no_members))) }
{
    let mut made = Map::new(alloc);
    keep_members(records, members, read, canonical, &mut made, alloc)?;
    put_unlisted(members, read, &mut made, alloc)?;
    Ok(Value::Object(made))
}

/// Puts the members of a record that its canonical form has.
#[cycle(keeps)]
fn keep_members<T: Records>(
    records: &T,
    members: &[Member],
    read: &Value,
    canonical: &Value,
    made: &mut Map<String, Value>,
    alloc: Global,
) -> Result<(), AllocError>
    ensures { OnOk result (members_view made.new.entries ≡ kept_rows (members_in (T.shape_at records.now) members.now) (view read.now) (view canonical.now) (members_view made.old.entries)) }
{
    for member in members {
        keep_member(records, member, read, canonical, made, alloc)?;
    }
    Ok(())
}

#[cycle(keeps)]
fn keep_member<T: Records>(
    records: &T,
    member: &Member,
    read: &Value,
    canonical: &Value,
    made: &mut Map<String, Value>,
    alloc: Global,
) -> Result<(), AllocError>
    ensures { OnOk result (members_view made.new.entries ≡ with_member member.now.name.now (kept_there (kept (schema_shape (T.shape_at records.now) member.now.schema)) (chosen (get member.now.name.now (view read.now)) (get_second (alias_of member.now.alias) (view read.now))) (get member.now.name.now (view canonical.now))) (members_view made.old.entries)) }
{
    let Some(value) = canonical.get(member.name) else {
        return Ok(());
    };
    let value = match read_member(member, read) {
        Some(read) => with_unknown(records, &member.schema, read, value, alloc)?,
        None => value.clone()?,
    };
    put_member(made, member.name, value, alloc)
}

/// What was read of a member, under its alias or its name.
fn read_member<'a>(member: &Member, read: &'a Value) -> Option<&'a Value>
    ensures { option_map (λ v. view v.now) result ≡ chosen (get member.now.name.now (view read.now)) (get_second (alias_of member.now.alias) (view read.now)) }
{
    match member.alias {
        Some(alias) => match read.get(alias) {
            Some(value) => Some(value),
            None => read.get(member.name),
        },
        None => read.get(member.name),
    }
}

/// Puts the members of a value that a record does not list.
fn put_unlisted(
    members: &[Member],
    read: &Value,
    made: &mut Map<String, Value>,
    alloc: Global,
) -> Result<(), AllocError>
    ensures { OnOk result (members_view made.new.entries ≡ with_unlisted_in (names_in members.now) (as_object (view read.now)) (members_view made.old.entries)) }
{
    match read.as_object() {
        Some(found) => put_all_unlisted(members, found, made, alloc),
        None => Ok(()),
    }
}

fn put_all_unlisted(
    members: &[Member],
    found: &Map<String, Value>,
    made: &mut Map<String, Value>,
    alloc: Global,
) -> Result<(), AllocError>
    ensures { OnOk result (members_view made.new.entries ≡ with_unlisted (names_in members.now) (members_view found.now.entries) (members_view made.old.entries)) }
{
    for (name, value) in found.iter() {
        put_unless_listed(members, name.as_str(), value, made, alloc)?;
    }
    Ok(())
}

fn put_unless_listed(
    members: &[Member],
    name: &str,
    value: &Value,
    made: &mut Map<String, Value>,
    alloc: Global,
) -> Result<(), AllocError>
    ensures { OnOk result (members_view made.new.entries ≡ with_member name.now (unless_listed (names_in members.now) name.now (view value.now)) (members_view made.old.entries)) }
{
    if lists(members, name) {
        return Ok(());
    }
    put_member(made, name, value.clone()?, alloc)
}

/// Whether one of the members has this name, or this alias.
fn lists(members: &[Member], name: &str) -> bool
    ensures { result ≡ is_name_of (names_in members.now) name.now }
{
    for member in members {
        if is_named(member, name) {
            return true;
        }
    }
    false
}

fn is_named(member: &Member, name: &str) -> bool
    ensures { result ≡ is_name_of (member.now.name.now ∷ with_second (alias_of member.now.alias) []) name.now }
{
    if name == member.name {
        return true;
    }
    match member.alias {
        Some(alias) => name == alias,
        None => false,
    }
}

/// Puts a member of this name into the object.
#[tactic(auto, using(oci_model::proofs::Writers::inserted))]
fn put_member(
    members: &mut Map<String, Value>,
    name: &str,
    value: Value,
    alloc: Global,
) -> Result<(), AllocError>
    ensures { OnOk result (members_view members.new.entries ≡ put name.now (view value) (members_view members.old.entries)) }
{
    let key = String::from_str(alloc, name)?;
    drop(members.insert(key, value)?);
    Ok(())
}
