//! Whether a schema allows a value. A walk of its own: it allocates nothing, so it cannot fail, and ends at the first part that is wrong.
ghost use Rattle.std.specs.Prelude.{◌≡◌, ◌↔◌, true, option_map};
ghost use Rattle.serde_json.specs.View.{view, items_view, members_view};
ghost use Rattle.oci_model.specs.Plain.{Plain};
ghost use Rattle.oci_model.specs.Means.{Means};
ghost use Rattle.oci_schema.specs.Shapes.{part_shape, schema_shape, presence_of, members_in};
ghost use Rattle.oci_schema.specs.Allows.{allows, rows_allow, known_allowed, member_allowed, each_allowed, each_member_allowed};

use crate::scalar::scalar_allows;
use crate::{Member, Part, Presence, Records, Schema};
use serde_json::{Map, Value};

/// Whether the value is valid: whether it denotes content of the schema.
#[tactic(auto, using(crate::proofs::Decides::decides))]
pub fn is_valid<T: Records>(records: &T, schema: &Schema, value: &Value) -> bool
    ensures { (result ≡ true) ↔ ((p : Plain) × Means (schema_shape (T.shape_at records.now) schema.now) (view value.now) p) }
{
    check_schema(records, schema, value)
}

/// The same, as a computation.
#[cycle(checks)]
pub fn check_schema<T: Records>(records: &T, schema: &Schema, value: &Value) -> bool
    ensures { result ≡ allows (schema_shape (T.shape_at records.now) schema.now) (view value.now) }
{
    match schema {
        Schema::One(part) => check_part(records, part, value),
        Schema::List(part) => match value.as_array() {
            Some(items) => check_items(records, part, items),
            None => false,
        },
        Schema::Map(part) => match value.as_object() {
            Some(entries) => check_entries(records, part, entries),
            None => false,
        },
    }
}

#[cycle(checks)]
fn check_part<T: Records>(records: &T, part: &Part, value: &Value) -> bool
    ensures { result ≡ allows (part_shape (T.shape_at records.now) part.now) (view value.now) }
{
    match part {
        Part::Scalar(scalar) => scalar_allows(scalar, value),
        Part::Record(place) => check_record(records, *place, value),
    }
}

#[cycle(checks)]
fn check_record<T: Records>(records: &T, place: usize, value: &Value) -> bool
    ensures { result ≡ allows (T.shape_at records.now place) (view value.now) }
{
    let record = records.record(place);
    value.is_object() && check_members(records, record.members, value)
}

#[cycle(checks)]
fn check_items<T: Records>(records: &T, part: &Part, items: &Vec<Value>) -> bool
    ensures { result ≡ each_allowed (allows (part_shape (T.shape_at records.now) part.now)) (items_view items.now.items) }
{
    for item in items {
        if !check_part(records, part, item) {
            return false;
        }
    }
    true
}

#[cycle(checks)]
fn check_entries<T: Records>(records: &T, part: &Part, entries: &Map<String, Value>) -> bool
    ensures { result ≡ each_member_allowed (allows (part_shape (T.shape_at records.now) part.now)) (members_view entries.now.entries) }
{
    for (_, entry) in entries.iter() {
        if !check_part(records, part, entry) {
            return false;
        }
    }
    true
}

#[cycle(checks)]
fn check_members<T: Records>(records: &T, members: &[Member], value: &Value) -> bool
    ensures { result ≡ rows_allow (members_in (T.shape_at records.now) members.now) (view value.now) }
{
    for member in members {
        if !check_member(records, member, value) {
            return false;
        }
    }
    true
}

#[cycle(checks)]
fn check_member<T: Records>(records: &T, member: &Member, value: &Value) -> bool
    ensures { result ≡ known_allowed (T.shape_at records.now) member.now (view value.now) }
{
    let found = value.get(member.name);
    match member.alias {
        None => check_found(records, member, found),
        Some(alias) => match value.get(alias) {
            None => check_found(records, member, found),
            Some(other) => found.is_none() && check_found(records, member, Some(other)),
        },
    }
}

#[cycle(checks)]
fn check_found<T: Records>(records: &T, member: &Member, found: Option<&Value>) -> bool
    ensures { result ≡ member_allowed (presence_of member.now.presence) (allows (schema_shape (T.shape_at records.now) member.now.schema)) (option_map (λ v. view v.now) found.entry) }
{
    match found {
        None => !matches!(member.presence, Presence::Required),
        Some(value) => match member.presence {
            Presence::Required | Presence::Defaulted(_) | Presence::DefaultedRecord(_) => {
                check_schema(records, &member.schema, value)
            }
            Presence::Optional | Presence::Nullable | Presence::UnlessEmpty => {
                value.is_null() || check_schema(records, &member.schema, value)
            }
        },
    }
}
