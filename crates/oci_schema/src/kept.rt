//! Whether a value is its own normal form, so that it need not be built anew. A walk of its own: what it wants of a member depends on how
//! the member is written, and not on whether it is allowed.
ghost use Rattle.std.specs.Prelude.{◌≡◌, IfSome, IsTrue, is_some};
ghost use Rattle.serde_json.specs.Data.{number, object, no_members};
ghost use Rattle.serde_json.specs.Find.{of_integer, get_member};
ghost use Rattle.serde_json.specs.View.{view, items_view, members_view};
ghost use Rattle.oci_base.specs.Names.{no_text_twice};
ghost use Rattle.oci_model.specs.Means.{as_whole};
ghost use Rattle.oci_model.specs.Shape.{names};
ghost use Rattle.oci_model.specs.Value.{is_empty_array};
ghost use Rattle.oci_model.specs.WellFormed.{WellFormed, AreWellFormed, MemberIsWellFormed};
ghost use Rattle.oci_json.specs.Readable.{IsInOrder};
ghost use Rattle.oci_schema.specs.Shapes.{scalar_shape, part_shape, schema_shape, members_in, presence_of};
ghost use Rattle.oci_schema.specs.Normalized.{IsSound};
ghost use Rattle.oci_schema.specs.Normal.{IsNormal, AreNormal, HoldNormal, AreNormalMembers, is_always_written as is_written, IsNormalMember, IsNormalEntry, AreNormalEntries, HasAll, AreEmptyObjects};

use crate::plain::is_plain;
use crate::scalar::scalar_allows;
use crate::{Member, Part, Presence, Records, Scalar, Schema};
use serde_json::{Map, Value};

/// How deep a text nests at most.
const NESTING: usize = 127;

/// Whether the value is known to be its own normal form. A set of capabilities is not looked at: what holds one is not known to
/// be one.
pub fn is_normal<T: Records>(records: &T, schema: &Schema, value: &Value) -> bool
    requires { IsSound (schema_shape (T.shape_at records.now) schema.now) }
    ensures { IsTrue result → IsNormal (schema_shape (T.shape_at records.now) schema.now) (view value.now) }
{
    has_known_members(records, schema, value) && is_normal_value(records, schema, value)
}

/// Whether the names in a record's object are all names of its members; true of other schemas. No member's value is looked at
/// for this, and none need be where a name is unknown.
fn has_known_members<T: Records>(records: &T, schema: &Schema, value: &Value) -> bool {
    match schema {
        Schema::One(Part::Record(place)) => match value.as_object() {
            Some(found) => are_known(records.record(*place).members, found),
            None => false,
        },
        _ => true,
    }
}

fn are_known(members: &[Member], found: &Map<String, Value>) -> bool {
    for (name, _) in found.iter() {
        if !is_known(members, name.as_str()) {
            return false;
        }
    }
    true
}

fn is_known(members: &[Member], name: &str) -> bool {
    for member in members {
        if member.name == name {
            return true;
        }
    }
    false
}

/// Whether the value is written as it is, by its schema.
#[cycle(keeps)]
fn is_normal_value<T: Records>(records: &T, schema: &Schema, value: &Value) -> bool
    requires { IsSound (schema_shape (T.shape_at records.now) schema.now) }
    ensures { IsTrue result → IsNormal (schema_shape (T.shape_at records.now) schema.now) (view value.now) }
{
    match schema {
        Schema::One(part) => is_normal_part(records, part, value),
        Schema::List(part) => match value.as_array() {
            Some(items) => are_normal(records, part, items),
            None => false,
        },
        Schema::Map(part) => match value.as_object() {
            Some(members) => hold_normal(records, part, members),
            None => false,
        },
    }
}

#[cycle(keeps)]
fn is_normal_part<T: Records>(records: &T, part: &Part, value: &Value) -> bool
    requires { IsSound (part_shape (T.shape_at records.now) part.now) }
    ensures { IsTrue result → IsNormal (part_shape (T.shape_at records.now) part.now) (view value.now) }
{
    match part {
        Part::Scalar(scalar) => is_normal_scalar(scalar, value),
        Part::Record(place) => is_normal_record(records, *place, value),
    }
}

#[cycle(keeps)]
fn is_normal_record<T: Records>(records: &T, place: usize, value: &Value) -> bool
    requires { IsSound (T.shape_at records.now place) }
    ensures { IsTrue result → IsNormal (T.shape_at records.now place) (view value.now) }
{
    let record = records.record(place);
    match value.as_object() {
        Some(found) => are_normal_members(records, record.members, found),
        None => false,
    }
}

#[cycle(keeps)]
fn are_normal<T: Records>(records: &T, part: &Part, items: &Vec<Value>) -> bool
    requires { IsSound (part_shape (T.shape_at records.now) part.now) }
    ensures { IsTrue result → AreNormal (part_shape (T.shape_at records.now) part.now) (items_view items.now.items) }
{
    for item in items {
        if !is_normal_part(records, part, item) {
            return false;
        }
    }
    true
}

#[cycle(keeps)]
fn hold_normal<T: Records>(records: &T, part: &Part, members: &Map<String, Value>) -> bool
    requires { IsSound (part_shape (T.shape_at records.now) part.now) }
    ensures { IsTrue result → HoldNormal (part_shape (T.shape_at records.now) part.now) (members_view members.now.entries) }
{
    for (_, member) in members.iter() {
        if !is_normal_part(records, part, member) {
            return false;
        }
    }
    true
}

#[cycle(keeps)]
fn are_normal_members<T: Records>(
    records: &T,
    members: &[Member],
    found: &Map<String, Value>,
) -> bool
    requires distinct { IsTrue (no_text_twice (names (members_in (T.shape_at records.now) members.now))) }
    requires well { AreWellFormed (members_in (T.shape_at records.now) members.now) }
    ensures { IsTrue result → AreNormalMembers (members_in (T.shape_at records.now) members.now) (members_view found.now.entries) }
{
    has_all(members, found) && are_normal_entries(records, members, found)
}

/// Whether each member that is always written is in the object.
fn has_all(members: &[Member], found: &Map<String, Value>) -> bool
    ensures { (f : _) → IsTrue result → HasAll (members_in f members.now) (members_view found.now.entries) }
{
    for member in members {
        if is_always_written(&member.presence) && !has_member(found, member.name) {
            return false;
        }
    }
    true
}

fn is_always_written(presence: &Presence) -> bool
    ensures { result ≡ is_written (presence_of presence.now) }
{
    match presence {
        Presence::Required
        | Presence::Defaulted(_)
        | Presence::DefaultedRecord(_)
        | Presence::Nullable => true,
        Presence::Optional | Presence::UnlessEmpty => false,
    }
}

/// Whether each entry of the object is a member, under its name, and is written as it is.
#[cycle(keeps)]
fn are_normal_entries<T: Records>(
    records: &T,
    members: &[Member],
    found: &Map<String, Value>,
) -> bool
    requires well { AreWellFormed (members_in (T.shape_at records.now) members.now) }
    ensures normal { IsTrue result → AreNormalEntries (members_in (T.shape_at records.now) members.now) (members_view found.now.entries) }
    ensures ordered { IsInOrder (members_view found.now.entries) }
{
    for (name, value) in found.iter() {
        if !is_normal_entry(records, members, name.as_str(), value) {
            return false;
        }
    }
    true
}

#[cycle(keeps)]
fn is_normal_entry<T: Records>(records: &T, members: &[Member], name: &str, value: &Value) -> bool
    requires well { AreWellFormed (members_in (T.shape_at records.now) members.now) }
    ensures { IsTrue result → IsNormalEntry (members_in (T.shape_at records.now) members.now) name.now (view value.now) }
{
    for member in members {
        if member.name == name {
            return is_normal_member(records, &member.schema, &member.presence, value);
        }
    }
    false
}

#[cycle(keeps)]
fn is_normal_member<T: Records>(
    records: &T,
    schema: &Schema,
    presence: &Presence,
    value: &Value,
) -> bool
    requires { MemberIsWellFormed (presence_of presence.now) (schema_shape (T.shape_at records.now) schema.now) (WellFormed (schema_shape (T.shape_at records.now) schema.now)) }
    ensures { IsTrue result → IsNormalMember (presence_of presence.now) (schema_shape (T.shape_at records.now) schema.now) (view value.now) }
{
    match presence {
        Presence::Required | Presence::Defaulted(_) | Presence::DefaultedRecord(_) => {
            is_normal_value(records, schema, value)
        }
        Presence::Optional => !value.is_null() && is_normal_value(records, schema, value),
        Presence::Nullable => value.is_null() || is_normal_value(records, schema, value),
        Presence::UnlessEmpty => {
            !value.is_null() && !has_no_items(value) && is_normal_value(records, schema, value)
        }
    }
}

fn is_normal_scalar(scalar: &Scalar, value: &Value) -> bool
    ensures { IsTrue result → IsNormal (scalar_shape scalar.now) (view value.now) }
{
    match scalar {
        Scalar::Capabilities => false,
        Scalar::Detail => !value.is_null() && is_plain(value, NESTING),
        Scalar::Keys => match value.as_object() {
            Some(members) => are_empty_objects(members),
            None => false,
        },
        Scalar::Integer(_, _) => is_normal_number(value) && scalar_allows(scalar, value),
        Scalar::String
        | Scalar::Boolean
        | Scalar::Enum(_)
        | Scalar::MediaType
        | Scalar::Os
        | Scalar::Arch
        | Scalar::Digest
        | Scalar::CpuList
        | Scalar::FreeValues => scalar_allows(scalar, value),
    }
}

/// Whether a number is known to be held as its integer is written.
fn is_normal_number(value: &Value) -> bool
    ensures { IsTrue result → IfSome (as_whole (view value.now)) (λ z. view value.now ≡ number (of_integer z)) }
{
    value.is_u64() || is_negative(value)
}

fn is_negative(value: &Value) -> bool
    ensures { IsTrue result → IfSome (as_whole (view value.now)) (λ z. view value.now ≡ number (of_integer z)) }
{
    match value.as_i64() {
        Some(whole) => whole < 0,
        None => false,
    }
}

/// Whether each value is an object with no members.
fn are_empty_objects(members: &Map<String, Value>) -> bool
    ensures empty { IsTrue result → AreEmptyObjects (members_view members.now.entries) }
    ensures ordered { IsInOrder (members_view members.now.entries) }
{
    for (_, member) in members.iter() {
        if !is_empty_object(member) {
            return false;
        }
    }
    true
}

fn is_empty_object(value: &Value) -> bool
    ensures { IsTrue result → view value.now ≡ object no_members }
{
    match value.as_object() {
        Some(members) => members.is_empty(),
        None => false,
    }
}

/// Whether the object has a member of this name.
pub fn has_member(members: &Map<String, Value>, name: &str) -> bool
    ensures { result ≡ is_some (get_member name.now (members_view members.now.entries)) }
{
    members.contains_key(name)
}

/// Whether the value is an array with no items.
#[tactic(auto, using(crate::proofs::NormalParts::no_items_told, crate::proofs::NormalParts::no_list_told))]
pub fn has_no_items(value: &Value) -> bool
    ensures { result ≡ is_empty_array (view value.now) }
{
    match value.as_array() {
        Some(items) => items.is_empty(),
        None => false,
    }
}
