//! The normal form of a value. A walk of its own: it consumes the value, and takes the members of an object out of it one by one.
ghost use Rattle.std.specs.Prelude.{◌≡◌, ◌≤◌, true, false, option_map, IfOk, IfErr, OnOk, IsTrue};
ghost use Rattle.serde_json.specs.Data.{array, object};
ghost use Rattle.serde_json.specs.Find.{get_member};
ghost use Rattle.serde_json.specs.View.{view, items_view, members_view};
ghost use Rattle.oci_base.specs.Names.{no_text_twice};
ghost use Rattle.oci_base.specs.Refused.{IsSchema, IsMemoryOrSchema};
ghost use Rattle.oci_model.specs.Means.{get_second};
ghost use Rattle.oci_model.specs.Shape.{names, list, map, rows};
ghost use Rattle.oci_model.specs.Sizes.{members_size, found_size};
ghost use Rattle.oci_model.specs.Value.{value as json_of, with_member};
ghost use Rattle.oci_model.specs.WellFormed.{WellFormed, AreWellFormed, MemberIsWellFormed};
ghost use Rattle.oci_schema.specs.Shapes.{presence_of, alias_of, part_shape, schema_shape, members_in};
ghost use Rattle.oci_schema.specs.Allows.{member_allowed};
ghost use Rattle.oci_schema.specs.Normalized.{IsSound, accepts, known_accepted, normalized, normalized_member, known_normalized, chosen, is_one_of, is_one_there};

use crate::absent::normal_absent;
use crate::kept::{has_member, is_normal};
use crate::member::{given, put_member, written};
use crate::normal::normal_scalar;
use crate::{Member, Part, Presence, Records, Schema};
use oci_base::Result;
use oci_model::fault::{placed, refused};
use oci_model::parts::{into_items, into_members};
use oci_model::take_member;
use serde_json::{Map, Value};
use std::alloc::Global;

/// The normal form of a value: what the document that it decodes to is written as. `SerDe(Schema)` if it decodes to none, or to
/// one that is not serializable. No document is built, strings are moved and not copied, and a part that is known to be its own
/// normal form is returned unchanged. The error names the innermost record and its first rejected member, in schema order.
#[cycle(normalizes)]
pub fn normal_value<T: Records>(
    records: &T,
    schema: &Schema,
    value: Value,
    alloc: Global,
) -> Result<Value>
    requires { IsSound (schema_shape (T.shape_at records.now) schema.now) }
    ensures ok { IfOk result (λ v. (accepts (schema_shape (T.shape_at records.now) schema.now) (view value) ≡ true) × (view v ≡ normalized (schema_shape (T.shape_at records.now) schema.now) (view value))) }
    ensures err { IfErr result (λ e. IsSchema e → accepts (schema_shape (T.shape_at records.now) schema.now) (view value) ≡ false) }
    ensures kind { IfErr result IsMemoryOrSchema }
{
    if is_normal(records, schema, &value) {
        return Ok(value);
    }
    match schema {
        Schema::One(part) => normal_part(records, part, value, alloc),
        Schema::List(part) => match into_items(value) {
            Some(items) => normal_items(records, part, items, alloc),
            None => Err(refused("", "")),
        },
        Schema::Map(part) => match into_members(value) {
            Some(members) => normal_map(records, part, members, alloc),
            None => Err(refused("", "")),
        },
    }
}

/// The normal form of a value alone.
#[cycle(normalizes)]
fn normal_part<T: Records>(records: &T, part: &Part, value: Value, alloc: Global) -> Result<Value>
    requires { IsSound (part_shape (T.shape_at records.now) part.now) }
    ensures ok { IfOk result (λ v. (accepts (part_shape (T.shape_at records.now) part.now) (view value) ≡ true) × (view v ≡ normalized (part_shape (T.shape_at records.now) part.now) (view value))) }
    ensures err { IfErr result (λ e. IsSchema e → accepts (part_shape (T.shape_at records.now) part.now) (view value) ≡ false) }
    ensures kind { IfErr result IsMemoryOrSchema }
{
    match part {
        Part::Scalar(scalar) => normal_scalar(scalar, value, alloc),
        Part::Record(place) => normal_record(records, *place, value, alloc),
    }
}

/// The normal form of a record.
#[cycle(normalizes)]
fn normal_record<T: Records>(
    records: &T,
    place: usize,
    value: Value,
    alloc: Global,
) -> Result<Value>
    requires { IsSound (T.shape_at records.now place) }
    ensures ok { IfOk result (λ v. (accepts (T.shape_at records.now place) (view value) ≡ true) × (view v ≡ normalized (T.shape_at records.now place) (view value))) }
    ensures err { IfErr result (λ e. IsSchema e → accepts (T.shape_at records.now place) (view value) ≡ false) }
    ensures kind { IfErr result IsMemoryOrSchema }
{
    let record = records.record(place);
    match into_members(value) {
        Some(object) => normal_members(records, record.members, record.name, object, alloc),
        None => Err(refused(record.name, "")),
    }
}

/// The normal form of an array, item by item.
#[cycle(normalizes)]
fn normal_items<T: Records>(
    records: &T,
    part: &Part,
    items: Vec<Value>,
    alloc: Global,
) -> Result<Value>
    requires { IsSound (part_shape (T.shape_at records.now) part.now) }
    ensures ok { IfOk result (λ v. (accepts (list (part_shape (T.shape_at records.now) part.now)) (array (items_view items.items)) ≡ true) × (view v ≡ normalized (list (part_shape (T.shape_at records.now) part.now)) (array (items_view items.items)))) }
    ensures err { IfErr result (λ e. IsSchema e → accepts (list (part_shape (T.shape_at records.now) part.now)) (array (items_view items.items)) ≡ false) }
    ensures kind { IfErr result IsMemoryOrSchema }
{
    let mut made = Vec::with_capacity(alloc, items.len())?;
    for item in items {
        made.push(normal_value(records, &Schema::One(*part), item, alloc)?)?;
    }
    Ok(Value::Array(made))
}

/// The normal form of a map, member by member.
#[cycle(normalizes)]
fn normal_map<T: Records>(
    records: &T,
    part: &Part,
    members: Map<String, Value>,
    alloc: Global,
) -> Result<Value>
    requires { IsSound (part_shape (T.shape_at records.now) part.now) }
    ensures ok { IfOk result (λ v. (accepts (map (part_shape (T.shape_at records.now) part.now)) (object (members_view members.entries)) ≡ true) × (view v ≡ normalized (map (part_shape (T.shape_at records.now) part.now)) (object (members_view members.entries)))) }
    ensures err { IfErr result (λ e. IsSchema e → accepts (map (part_shape (T.shape_at records.now) part.now)) (object (members_view members.entries)) ≡ false) }
    ensures kind { IfErr result IsMemoryOrSchema }
{
    let mut made = Map::new(alloc);
    for (name, member) in members {
        let member = normal_value(records, &Schema::One(*part), member, alloc)?;
        drop(made.insert(name, member)?);
    }
    Ok(Value::Object(made))
}

/// The normal form of an object with these members, member by member.
#[cycle(normalizes)]
fn normal_members<T: Records>(
    records: &T,
    members: &[Member],
    owner: &'static str,
    mut found: Map<String, Value>,
    alloc: Global,
) -> Result<Value>
    requires distinct { IsTrue (no_text_twice (names (members_in (T.shape_at records.now) members.now))) }
    requires well { AreWellFormed (members_in (T.shape_at records.now) members.now) }
    ensures ok { IfOk result (λ v. (accepts (rows (members_in (T.shape_at records.now) members.now)) (object (members_view found.entries)) ≡ true) × (view v ≡ normalized (rows (members_in (T.shape_at records.now) members.now)) (object (members_view found.entries)))) }
    ensures err { IfErr result (λ e. IsSchema e → accepts (rows (members_in (T.shape_at records.now) members.now)) (object (members_view found.entries)) ≡ false) }
    ensures kind { IfErr result IsMemoryOrSchema }
{
    let mut made = Map::new(alloc);
    for member in members {
        move_member(records, member, owner, &mut found, &mut made, alloc)?;
    }
    Ok(Value::Object(made))
}

/// Moves a member from one object to the other. If its value is rejected as a whole, the error is the member's.
#[cycle(normalizes)]
fn move_member<T: Records>(
    records: &T,
    member: &Member,
    owner: &'static str,
    found: &mut Map<String, Value>,
    made: &mut Map<String, Value>,
    alloc: Global,
) -> Result<()>
    requires { MemberIsWellFormed (presence_of member.now.presence) (schema_shape (T.shape_at records.now) member.now.schema) (WellFormed (schema_shape (T.shape_at records.now) member.now.schema)) }
    ensures ok { OnOk result (members_view made.new.entries ≡ with_member member.now.name.now (known_normalized (T.shape_at records.now) member.now (object (members_view found.old.entries))) (members_view made.old.entries)) }
    ensures accepts { OnOk result (known_accepted (T.shape_at records.now) member.now (object (members_view found.old.entries)) ≡ true) }
    ensures others { (q : _) → is_one_of q member.now.name.now (alias_of member.now.alias) ≡ false → get_member q (members_view found.new.entries) ≡ get_member q (members_view found.old.entries) }
    ensures smaller { members_size (members_view found.new.entries) ≤ members_size (members_view found.old.entries) }
    ensures err { IfErr result (λ e. IsSchema e → known_accepted (T.shape_at records.now) member.now (object (members_view found.old.entries)) ≡ false) }
    ensures kind { IfErr result IsMemoryOrSchema }
{
    let value = take_by_name_or_alias(member, owner, found)?;
    match normal_member(records, &member.schema, &member.presence, value, alloc) {
        Ok(value) => put_member(made, member.name, value, alloc),
        Err(fault) => Err(placed(fault, owner, member.name)),
    }
}

/// Takes a member out of the object, by its name or its alias; an error of the member if both are there.
fn take_by_name_or_alias(
    member: &Member,
    owner: &'static str,
    found: &mut Map<String, Value>,
) -> Result<Option<Value>>
    ensures ok { IfOk result (λ o. option_map view o ≡ chosen (get_member member.now.name.now (members_view found.old.entries)) (get_second (alias_of member.now.alias) (object (members_view found.old.entries)))) }
    ensures one { OnOk result (is_one_there (get_member member.now.name.now (members_view found.old.entries)) (get_second (alias_of member.now.alias) (object (members_view found.old.entries))) ≡ true) }
    ensures err { IfErr result (λ e. is_one_there (get_member member.now.name.now (members_view found.old.entries)) (get_second (alias_of member.now.alias) (object (members_view found.old.entries))) ≡ false) }
    ensures others { (q : _) → is_one_of q member.now.name.now (alias_of member.now.alias) ≡ false → get_member q (members_view found.new.entries) ≡ get_member q (members_view found.old.entries) }
    ensures within { IfOk result (λ o. found_size (option_map view o) ≤ members_size (members_view found.old.entries)) }
    ensures smaller { members_size (members_view found.new.entries) ≤ members_size (members_view found.old.entries) }
    ensures kind { IfErr result IsMemoryOrSchema }
{
    match member.alias {
        None => Ok(take_member(found, member.name)),
        Some(alias) => {
            if !has_member(found, alias) {
                Ok(take_member(found, member.name))
            } else if has_member(found, member.name) {
                Err(refused(owner, member.name))
            } else {
                Ok(take_member(found, alias))
            }
        }
    }
}

/// The normal form of a member, if it is written.
#[cycle(normalizes)]
fn normal_member<T: Records>(
    records: &T,
    schema: &Schema,
    presence: &Presence,
    found: Option<Value>,
    alloc: Global,
) -> Result<Option<Value>>
    requires { MemberIsWellFormed (presence_of presence.now) (schema_shape (T.shape_at records.now) schema.now) (WellFormed (schema_shape (T.shape_at records.now) schema.now)) }
    ensures ok { IfOk result (λ o. (member_allowed (presence_of presence.now) (accepts (schema_shape (T.shape_at records.now) schema.now)) (option_map view found) ≡ true)
        × (option_map view o ≡ normalized_member (presence_of presence.now) (json_of (schema_shape (T.shape_at records.now) schema.now)) (normalized (schema_shape (T.shape_at records.now) schema.now)) (option_map view found))) }
    ensures err { IfErr result (λ e. IsSchema e → member_allowed (presence_of presence.now) (accepts (schema_shape (T.shape_at records.now) schema.now)) (option_map view found) ≡ false) }
    ensures kind { IfErr result IsMemoryOrSchema }
{
    match given(presence, found) {
        Some(value) => match normal_value(records, schema, value, alloc) {
            Ok(member) => Ok(written(presence, member)),
            Err(fault) => Err(fault),
        },
        None => normal_absent(records, schema, presence, alloc),
    }
}
