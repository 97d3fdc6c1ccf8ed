//! What is written for absent members.
ghost use Rattle.std.specs.Prelude.{◌≡◌, true, false, None, map, option_map, IfOk, IfErr, OnOk};
ghost use Rattle.serde_json.specs.Data.{string, object, no_members};
ghost use Rattle.serde_json.specs.View.{view, members_view};
ghost use Rattle.oci_base.specs.Refused.{IsSchema, IsMemoryOrSchema};
ghost use Rattle.oci_model.specs.Plain.{document, slots, text as plain_text, whole as plain_whole};
ghost use Rattle.oci_model.specs.Fits.{Fits, FitsRows, FitsMember, IfFilled};
ghost use Rattle.oci_model.specs.Value.{value as json_of, with_rows, with_member, member_value};
ghost use Rattle.oci_model.specs.WellFormed.{WellFormed, AreWellFormed, MemberIsWellFormed};
ghost use Rattle.oci_model.specs.Writable.{Writable, AreWritable};
ghost use Rattle.oci_schema.specs.Shapes.{scalar_shape, presence_of, default_plain, default_slot, schema_shape, members_in};
ghost use Rattle.oci_schema.specs.Allows.{member_allowed};
ghost use Rattle.oci_schema.specs.Normalized.{IsSound, accepts, normalized, normalized_member};

use crate::member::{put_member, written, written_for_none};
use crate::{DefaultValue, Member, Part, Presence, Records, Scalar, Schema};
use oci_base::Result;
use oci_model::fault::refused;
use oci_model::{Detail, OciKind};
use serde_json::{Map, Number, Value};
use std::alloc::Global;

/// What is written for an absent member; `SerDe(Schema)` if it is required.
pub fn normal_absent<T: Records>(
    records: &T,
    schema: &Schema,
    presence: &Presence,
    alloc: Global,
) -> Result<Option<Value>>
    requires { MemberIsWellFormed (presence_of presence.now) (schema_shape (T.shape_at records.now) schema.now) (WellFormed (schema_shape (T.shape_at records.now) schema.now)) }
    ensures ok { IfOk result (λ o. (member_allowed (presence_of presence.now) (accepts (schema_shape (T.shape_at records.now) schema.now)) None ≡ true)
        × (option_map view o ≡ normalized_member (presence_of presence.now) (json_of (schema_shape (T.shape_at records.now) schema.now)) (normalized (schema_shape (T.shape_at records.now) schema.now)) None)) }
    ensures err { IfErr result (λ e. IsSchema e → member_allowed (presence_of presence.now) (accepts (schema_shape (T.shape_at records.now) schema.now)) None ≡ false) }
    ensures kind { IfErr result IsMemoryOrSchema }
{
    match presence {
        Presence::Required => Err(refused("", "")),
        Presence::Optional | Presence::UnlessEmpty => Ok(None),
        Presence::Nullable => Ok(Some(Value::Null)),
        Presence::Defaulted(default) => match default_value(records, schema, default, alloc) {
            Ok(value) => Ok(Some(value)),
            Err(fault) => Err(fault),
        },
        Presence::DefaultedRecord(defaults) => match default_record(
            records, schema, defaults, alloc,
        ) {
            Ok(value) => Ok(Some(value)),
            Err(fault) => Err(fault),
        },
    }
}

/// The JSON of a default value.
fn default_value<T: Records>(
    records: &T,
    schema: &Schema,
    default: &DefaultValue,
    alloc: Global,
) -> Result<Value>
    requires sound { IsSound (schema_shape (T.shape_at records.now) schema.now) }
    requires fits { Fits (schema_shape (T.shape_at records.now) schema.now) (default_plain default.now) }
    requires writable { Writable (schema_shape (T.shape_at records.now) schema.now) (default_plain default.now) }
    ensures ok { IfOk result (λ v. view v ≡ json_of (schema_shape (T.shape_at records.now) schema.now) (default_plain default.now)) }
    ensures err { IfErr result (λ e. ¬ IsSchema e) }
    ensures kind { IfErr result IsMemoryOrSchema }
{
    match default {
        DefaultValue::String(text) => default_string(records, schema, text, alloc),
        DefaultValue::Variant(text) => string_value(text, alloc),
        DefaultValue::Boolean(boolean) => Ok(Value::Bool(*boolean)),
        DefaultValue::Integer(integer) => Ok(default_integer(records, schema, *integer)),
        DefaultValue::EmptyArray => Ok(Value::Array(Vec::new(alloc))),
    }
}

/// The JSON of a default string.
fn default_string<T: Records>(
    records: &T,
    schema: &Schema,
    text: &str,
    alloc: Global,
) -> Result<Value>
    requires fits { Fits (schema_shape (T.shape_at records.now) schema.now) (plain_text text.now) }
    requires writable { Writable (schema_shape (T.shape_at records.now) schema.now) (plain_text text.now) }
    ensures ok { IfOk result (λ v. view v ≡ json_of (schema_shape (T.shape_at records.now) schema.now) (plain_text text.now)) }
    ensures err { IfErr result (λ e. ¬ IsSchema e) }
    ensures kind { IfErr result IsMemoryOrSchema }
{
    match schema {
        Schema::One(Part::Scalar(scalar)) => default_scalar_string(scalar, text, alloc),
        Schema::One(Part::Record(place)) => {
            let _record = records.record(*place);
            unreachable!()
        }
        _ => unreachable!(),
    }
}

/// The JSON of a default string of a scalar.
fn default_scalar_string(scalar: &Scalar, text: &str, alloc: Global) -> Result<Value>
    requires fits { Fits (scalar_shape scalar.now) (plain_text text.now) }
    requires writable { Writable (scalar_shape scalar.now) (plain_text text.now) }
    ensures ok { IfOk result (λ v. view v ≡ json_of (scalar_shape scalar.now) (plain_text text.now)) }
    ensures err { IfErr result (λ e. ¬ IsSchema e) }
    ensures kind { IfErr result IsMemoryOrSchema }
{
    match scalar {
        Scalar::Detail => {
            let text = String::from_str(alloc, text)?;
            Detail::write(&text, alloc)
        }
        _ => string_value(text, alloc),
    }
}

/// A JSON string.
fn string_value(text: &str, alloc: Global) -> Result<Value>
    ensures ok { IfOk result (λ v. view v ≡ string text.now) }
    ensures err { IfErr result (λ e. ¬ IsSchema e) }
    ensures kind { IfErr result IsMemoryOrSchema }
{
    let text = String::from_str(alloc, text)?;
    Ok(Value::String(text))
}

/// The JSON of a default integer.
fn default_integer<T: Records>(records: &T, schema: &Schema, integer: i128) -> Value
    requires sound { IsSound (schema_shape (T.shape_at records.now) schema.now) }
    requires fits { Fits (schema_shape (T.shape_at records.now) schema.now) (plain_whole integer) }
    ensures { view result ≡ json_of (schema_shape (T.shape_at records.now) schema.now) (plain_whole integer) }
{
    match Number::from_i128(integer) {
        Some(number) => Value::Number(number),
        None => unreachable!(),
    }
}

/// The JSON of a default record, whose members have these values.
fn default_record<T: Records>(
    records: &T,
    schema: &Schema,
    defaults: &[Option<DefaultValue>],
    alloc: Global,
) -> Result<Value>
    requires well { WellFormed (schema_shape (T.shape_at records.now) schema.now) }
    requires fits { Fits (schema_shape (T.shape_at records.now) schema.now) (document (slots (map default_slot defaults.now))) }
    requires writable { Writable (schema_shape (T.shape_at records.now) schema.now) (document (slots (map default_slot defaults.now))) }
    ensures ok { IfOk result (λ v. view v ≡ json_of (schema_shape (T.shape_at records.now) schema.now) (document (slots (map default_slot defaults.now)))) }
    ensures err { IfErr result (λ e. ¬ IsSchema e) }
    ensures kind { IfErr result IsMemoryOrSchema }
{
    match schema {
        Schema::One(Part::Record(place)) => {
            let record = records.record(*place);
            default_members(records, record.members, defaults, alloc)
        }
        _ => unreachable!(),
    }
}

/// The object of these members with these values.
fn default_members<T: Records>(
    records: &T,
    members: &[Member],
    defaults: &[Option<DefaultValue>],
    alloc: Global,
) -> Result<Value>
    requires well { AreWellFormed (members_in (T.shape_at records.now) members.now) }
    requires fits { FitsRows (members_in (T.shape_at records.now) members.now) (slots (map default_slot defaults.now)) }
    requires writable { AreWritable (members_in (T.shape_at records.now) members.now) (slots (map default_slot defaults.now)) }
    ensures ok { IfOk result (λ v. view v ≡ object (with_rows (members_in (T.shape_at records.now) members.now) (slots (map default_slot defaults.now)) no_members)) }
    ensures err { IfErr result (λ e. ¬ IsSchema e) }
    ensures kind { IfErr result IsMemoryOrSchema }
{
    let mut made = Map::new(alloc);
    for i in 0..members.len() {
        put_default(records, &members[i], &defaults[i], &mut made, alloc)?;
    }
    Ok(Value::Object(made))
}

/// Puts a member with this value, if it is written, into the object.
fn put_default<T: Records>(
    records: &T,
    member: &Member,
    default: &Option<DefaultValue>,
    made: &mut Map<String, Value>,
    alloc: Global,
) -> Result<()>
    requires well { MemberIsWellFormed (presence_of member.now.presence) (schema_shape (T.shape_at records.now) member.now.schema) (WellFormed (schema_shape (T.shape_at records.now) member.now.schema)) }
    requires fits { FitsMember (presence_of member.now.presence) (Fits (schema_shape (T.shape_at records.now) member.now.schema)) (default_slot default.now) }
    requires writable { IfFilled (Writable (schema_shape (T.shape_at records.now) member.now.schema)) (default_slot default.now) }
    ensures ok { OnOk result (members_view made.new.entries
        ≡ with_member member.now.name.now (member_value (presence_of member.now.presence) (json_of (schema_shape (T.shape_at records.now) member.now.schema)) (default_slot default.now)) (members_view made.old.entries)) }
    ensures err { IfErr result (λ e. ¬ IsSchema e) }
    ensures kind { IfErr result IsMemoryOrSchema }
{
    let value = default_member(records, &member.schema, &member.presence, default, alloc)?;
    put_member(made, member.name, value, alloc)
}

/// What is written for a member that has this value, or none.
fn default_member<T: Records>(
    records: &T,
    schema: &Schema,
    presence: &Presence,
    default: &Option<DefaultValue>,
    alloc: Global,
) -> Result<Option<Value>>
    requires well { MemberIsWellFormed (presence_of presence.now) (schema_shape (T.shape_at records.now) schema.now) (WellFormed (schema_shape (T.shape_at records.now) schema.now)) }
    requires fits { FitsMember (presence_of presence.now) (Fits (schema_shape (T.shape_at records.now) schema.now)) (default_slot default.now) }
    requires writable { IfFilled (Writable (schema_shape (T.shape_at records.now) schema.now)) (default_slot default.now) }
    ensures ok { IfOk result (λ o. option_map view o ≡ member_value (presence_of presence.now) (json_of (schema_shape (T.shape_at records.now) schema.now)) (default_slot default.now)) }
    ensures err { IfErr result (λ e. ¬ IsSchema e) }
    ensures kind { IfErr result IsMemoryOrSchema }
{
    match default {
        Some(default) => match default_value(records, schema, default, alloc) {
            Ok(value) => Ok(written(presence, value)),
            Err(fault) => Err(fault),
        },
        None => Ok(written_for_none(presence)),
    }
}
