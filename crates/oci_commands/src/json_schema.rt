//! The schema of a kind of documents as a JSON Schema (draft 2020-12).
ghost use Rattle.std.specs.Prelude.{◌≡◌, ◌++◌, ◌∷◌, [], List, ℕ, IfOk, string_bytes};
ghost use Rattle.serde_json.specs.Data.{Data};
ghost use Rattle.oci_json.specs.Engines.{IsPretty};

use crate::records::records_of;
use json::Writer;
use oci_base::Result;
use oci_findings::render::text_member;
use oci_model::JsonName;
use oci_schema::{DefaultValue, Member, Part, Presence, Record, Records, Scalar, Schema};
use oci_schemas::{Kind, OciRecords};
use oci_text::capability::ALL;
use serde_json::Value;
use std::alloc::{AllocError, Global};

/// The dialect (JSON Schema, "Core", section 8.1.1).
const DIALECT: &str = "https://json-schema.org/draft/2020-12/schema";

/// What no JSON Schema can say.
const COMMENT: &str =
    "Beside this, ciderglen check refuses an integer that is written as -0 or with a fraction or an exponent, as 1.0, a key that stands twice among annotations or labels, and what nests deeper than 127. Of other members of one name the last one counts.";

/// The grammar of digests (image specification, "Descriptor", "Digests"). `$(?!\n)` is the end of the text for every reader of patterns.
const DIGEST: &str =
    "^(?:sha256:[a-f0-9]{64}|sha384:[a-f0-9]{96}|sha512:[a-f0-9]{128}|(?!sha(?:256|384|512):)[a-z0-9]+(?:[+._-][a-z0-9]+)*:[a-zA-Z0-9=_-]+)$(?!\\n)";

/// The grammar of CPU lists (Linux, cpuset(7), "List format").
const CPU_LIST: &str = "^[0-9]+(?:-[0-9]+)?(?:,[0-9]+(?:-[0-9]+)?)*$(?!\\n)";

/// The definition of values whose numbers are 64-bit integers.
const NUMBERS: &str = "values";

const NUMBERS_PLACE: &str = "#/$defs/values";

type Written = std::result::Result<(), AllocError>;

/// The JSON Schema of a kind of documents, indented, with a newline behind it. Fails if out of memory.
pub fn json_schema_of(kind: Kind, alloc: Global) -> Result<String>
    ensures { IfOk result (λ t. (d : Data) × (json : List ℕ) × IsPretty d json × (string_bytes t ≡ json ++ 10 ∷ [])) }
{
    let compact = compact_schema(kind, alloc)?;
    let value = Value::from_slice(alloc, compact.as_slice())?;
    let mut text = value.to_string_pretty(alloc)?;
    text.push_str("\n")?;
    Ok(text)
}

fn compact_schema(kind: Kind, alloc: Global) -> std::result::Result<Vec<u8>, AllocError> {
    let mut out = Writer::new(Vec::new(alloc));
    let records = records_of(&OciRecords, kind.schema(), alloc)?;
    out.begin_object()?;
    text_member(&mut out, "$schema", DIALECT)?;
    text_member(&mut out, "title", kind.title())?;
    text_member(&mut out, "$comment", COMMENT)?;
    put_schema(&mut out, kind.schema(), alloc)?;
    put_definitions(&mut out, &records, alloc)?;
    out.end_object()?;
    Ok(out.into_inner())
}

fn put_definitions(out: &mut Writer, records: &Vec<&'static Record>, alloc: Global) -> Written {
    out.key("$defs")?;
    out.begin_object()?;
    for record in records {
        put_record(out, record, alloc)?;
    }
    out.key(NUMBERS)?;
    put_numbers(out)?;
    out.end_object()
}

/// Writes the definition of values whose numbers are 64-bit integers.
fn put_numbers(out: &mut Writer) -> Written {
    out.begin_object()?;
    out.key("anyOf")?;
    out.begin_array()?;
    put_plain(out)?;
    put_bounds_object(out, i64::MIN as i128, u64::MAX as i128)?;
    put_inner(out, "array", "items")?;
    put_inner(out, "object", "additionalProperties")?;
    out.end_array()?;
    out.end_object()
}

/// Writes the schema of null, booleans and strings.
fn put_plain(out: &mut Writer) -> Written {
    out.begin_object()?;
    out.key("type")?;
    out.begin_array()?;
    out.string("null")?;
    out.string("boolean")?;
    out.string("string")?;
    out.end_array()?;
    out.end_object()
}

fn put_bounds_object(out: &mut Writer, low: i128, high: i128) -> Written {
    out.begin_object()?;
    put_bounds(out, low, high)?;
    out.end_object()
}

/// Writes the schema of arrays or objects of such values.
fn put_inner(out: &mut Writer, name: &str, each: &str) -> Written {
    out.begin_object()?;
    text_member(out, "type", name)?;
    out.key(each)?;
    put_reference(out, NUMBERS_PLACE)?;
    out.end_object()
}

fn put_reference(out: &mut Writer, place: &str) -> Written {
    out.begin_object()?;
    text_member(out, "$ref", place)?;
    out.end_object()
}

/// Writes the definition of a record.
fn put_record(out: &mut Writer, record: &Record, alloc: Global) -> Written {
    out.key(record.name)?;
    out.begin_object()?;
    text_member(out, "type", "object")?;
    put_members(out, record.members, alloc)?;
    put_required(out, record.members)?;
    put_aliases(out, record.members)?;
    out.end_object()
}

fn put_members(out: &mut Writer, members: &[Member], alloc: Global) -> Written {
    out.key("properties")?;
    out.begin_object()?;
    for member in members {
        put_member(out, member.name, member, alloc)?;
        if let Some(alias) = member.alias {
            put_member(out, alias, member, alloc)?;
        }
    }
    out.end_object()
}

/// Writes a member under one of its names.
fn put_member(out: &mut Writer, name: &str, member: &Member, alloc: Global) -> Written {
    out.key(name)?;
    out.begin_object()?;
    if may_be_null(&member.presence) {
        put_nullable(out, &member.schema, alloc)?;
    } else {
        put_schema(out, &member.schema, alloc)?;
    }
    put_default(out, &member.presence)?;
    out.end_object()
}

/// Whether null counts as absent.
fn may_be_null(presence: &Presence) -> bool {
    match presence {
        Presence::Optional | Presence::Nullable | Presence::UnlessEmpty => true,
        Presence::Required | Presence::Defaulted(_) | Presence::DefaultedRecord(_) => false,
    }
}

fn put_nullable(out: &mut Writer, schema: &Schema, alloc: Global) -> Written {
    out.key("anyOf")?;
    out.begin_array()?;
    out.begin_object()?;
    text_member(out, "type", "null")?;
    out.end_object()?;
    out.begin_object()?;
    put_schema(out, schema, alloc)?;
    out.end_object()?;
    out.end_array()
}

fn put_default(out: &mut Writer, presence: &Presence) -> Written {
    match presence {
        Presence::Defaulted(value) => {
            out.key("default")?;
            put_value(out, value)
        }
        _ => Ok(()),
    }
}

fn put_value(out: &mut Writer, value: &DefaultValue) -> Written {
    match value {
        DefaultValue::String(text) | DefaultValue::Variant(text) => out.string(text),
        DefaultValue::Boolean(value) => out.boolean(*value),
        DefaultValue::Integer(number) => put_integer(out, *number),
        DefaultValue::EmptyArray => {
            out.begin_array()?;
            out.end_array()
        }
    }
}

/// Writes an integer of 64 bits; there are no others in schemas.
fn put_integer(out: &mut Writer, number: i128) -> Written {
    if let Ok(small) = i64::try_from(number) {
        out.i64(small)
    } else if let Ok(large) = u64::try_from(number) {
        out.u64(large)
    } else {
        out.null()
    }
}

/// Writes the names of the members that have to be there, but for those that may have another name.
fn put_required(out: &mut Writer, members: &[Member]) -> Written {
    out.key("required")?;
    out.begin_array()?;
    for member in members {
        if is_required(member) && member.alias.is_none() {
            out.string(member.name)?;
        }
    }
    out.end_array()
}

fn is_required(member: &Member) -> bool {
    matches!(member.presence, Presence::Required)
}

/// Writes that no member is there under both of its names, and a required one under one of them.
fn put_aliases(out: &mut Writer, members: &[Member]) -> Written {
    if !has_alias(members) {
        return Ok(());
    }
    out.key("allOf")?;
    out.begin_array()?;
    for member in members {
        if let Some(alias) = member.alias {
            put_alias(out, member, alias)?;
        }
    }
    out.end_array()
}

fn has_alias(members: &[Member]) -> bool {
    for member in members {
        if member.alias.is_some() {
            return true;
        }
    }
    false
}

fn put_alias(out: &mut Writer, member: &Member, alias: &'static str) -> Written {
    out.begin_object()?;
    if is_required(member) {
        out.key("oneOf")?;
        out.begin_array()?;
        put_has(out, &[member.name])?;
        put_has(out, &[alias])?;
        out.end_array()?;
    } else {
        out.key("not")?;
        put_has(out, &[member.name, alias])?;
    }
    out.end_object()
}

/// Writes the schema of objects with these members.
fn put_has(out: &mut Writer, names: &[&str]) -> Written {
    out.begin_object()?;
    out.key("required")?;
    out.begin_array()?;
    for name in names {
        out.string(name)?;
    }
    out.end_array()?;
    out.end_object()
}

/// Writes the members of a schema's object.
fn put_schema(out: &mut Writer, schema: &Schema, alloc: Global) -> Written {
    match schema {
        Schema::One(part) => put_part(out, part, alloc),
        Schema::List(part) => put_each(out, "array", "items", part, alloc),
        Schema::Map(part) => put_each(out, "object", "additionalProperties", part, alloc),
    }
}

fn put_each(out: &mut Writer, name: &str, each: &str, part: &Part, alloc: Global) -> Written {
    text_member(out, "type", name)?;
    out.key(each)?;
    out.begin_object()?;
    put_part(out, part, alloc)?;
    out.end_object()
}

fn put_part(out: &mut Writer, part: &Part, alloc: Global) -> Written {
    match part {
        Part::Scalar(scalar) => put_scalar(out, scalar, alloc),
        Part::Record(place) => {
            let name = OciRecords.record(*place).name;
            let place = format!(in alloc; "#/$defs/{name}")?;
            text_member(out, "$ref", place.as_str())
        }
    }
}

fn put_scalar(out: &mut Writer, scalar: &Scalar, alloc: Global) -> Written {
    match scalar {
        Scalar::String | Scalar::MediaType | Scalar::Os | Scalar::Arch => {
            text_member(out, "type", "string")
        }
        Scalar::Boolean => text_member(out, "type", "boolean"),
        Scalar::Integer(low, high) => put_bounds(out, *low, *high),
        Scalar::Enum(names) => put_enum(out, names),
        Scalar::Digest => put_pattern(out, DIGEST),
        Scalar::CpuList => put_pattern(out, CPU_LIST),
        Scalar::Capabilities => put_capabilities(out, alloc),
        Scalar::Keys => put_keys(out),
        Scalar::Detail => put_detail(out),
        Scalar::FreeValues => {
            text_member(out, "type", "object")?;
            out.key("additionalProperties")?;
            put_reference(out, NUMBERS_PLACE)
        }
    }
}

fn put_bounds(out: &mut Writer, low: i128, high: i128) -> Written {
    text_member(out, "type", "integer")?;
    out.key("minimum")?;
    put_integer(out, low)?;
    out.key("maximum")?;
    put_integer(out, high)
}

fn put_enum(out: &mut Writer, names: &[&str]) -> Written {
    out.key("enum")?;
    out.begin_array()?;
    for name in names {
        out.string(name)?;
    }
    out.end_array()
}

fn put_pattern(out: &mut Writer, pattern: &str) -> Written {
    text_member(out, "type", "string")?;
    text_member(out, "pattern", pattern)
}

/// An object of objects.
fn put_keys(out: &mut Writer) -> Written {
    text_member(out, "type", "object")?;
    out.key("additionalProperties")?;
    out.begin_object()?;
    text_member(out, "type", "object")?;
    out.end_object()
}

/// Any value with 64-bit integers, but null.
fn put_detail(out: &mut Writer) -> Written {
    text_member(out, "$ref", NUMBERS_PLACE)?;
    out.key("not")?;
    out.begin_object()?;
    text_member(out, "type", "null")?;
    out.end_object()
}

/// An array of names of capabilities, in any case and with any number of `CAP_` in front.
fn put_capabilities(out: &mut Writer, alloc: Global) -> Written {
    let pattern = capability_pattern(alloc)?;
    text_member(out, "type", "array")?;
    out.key("items")?;
    out.begin_object()?;
    put_pattern(out, pattern.as_str())?;
    out.end_object()
}

fn capability_pattern(alloc: Global) -> std::result::Result<String, AllocError> {
    let mut pattern = String::from_str(alloc, "^(?:[Cc][Aa][Pp]_)*(?:")?;
    let mut mark = "";
    for capability in &ALL {
        pattern.push_str(mark)?;
        push_any_case(&mut pattern, bare_name(capability.json_name()))?;
        mark = "|";
    }
    pattern.push_str(")$(?!\\n)")?;
    Ok(pattern)
}

/// The name of a capability without the `CAP_` in front of it.
fn bare_name(name: &str) -> &str {
    match name.strip_prefix("CAP_") {
        Some(bare) => bare,
        None => name,
    }
}

/// Adds what a text is in any case.
fn push_any_case(pattern: &mut String, text: &str) -> Written {
    for c in text.chars() {
        if c.is_ascii_uppercase() {
            pattern.push('[')?;
            pattern.push(c)?;
            pattern.push(c.to_ascii_lowercase())?;
            pattern.push(']')?;
        } else {
            pattern.push(c)?;
        }
    }
    Ok(())
}
