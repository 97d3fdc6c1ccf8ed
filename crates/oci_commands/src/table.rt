//! The members of a kind of documents, as a table for people.
ghost use Rattle.std.specs.Prelude.{◌≡◌, ◌++◌, codes, map, IfOk, string_bytes};
ghost use Rattle.oci_commands.specs.Tables.{IsMemberLine, IsPartText, IsRecordText, IsSchemaText, IsTable, IsTableOf, alias_text, default_text, presence_text};
ghost use Rattle.oci_commands.specs.Texts.{Joins};

use crate::records::records_of;
use oci_findings::wording::push_scalar;
use oci_schema::{DefaultValue, Member, Part, Presence, Record, Records, Schema};
use oci_schemas::{Kind, OciRecords};
use std::alloc::{AllocError, Global};

/// The members of a kind of documents, and of each record that they name. Fails if out of memory.
pub fn table_of(kind: Kind, alloc: Global) -> Result<String, AllocError>
    ensures { IfOk result (λ t. IsTableOf kind (string_bytes t)) }
{
    text_of(&OciRecords, kind.title(), kind.schema(), alloc)
}

/// A title, and the records that a schema names.
fn text_of<T: Records>(
    table: &T,
    title: &str,
    schema: &Schema,
    alloc: Global,
) -> Result<String, AllocError>
    ensures { IfOk result (λ t. IsTable (T.shape_at table.now) schema.now (string_bytes t)) }
{
    let records = records_of(table, schema, alloc)?;
    let lines = records_text(table, &records, alloc)?;
    format!(in alloc; "{title}\n{lines}")
}

fn records_text<T: Records>(
    table: &T,
    records: &Vec<&'static Record>,
    alloc: Global,
) -> Result<String, AllocError>
    ensures { IfOk result (λ t. Joins (IsRecordText (T.shape_at table.now)) (map (λ r. r.now) records.now.items) (string_bytes t)) }
{
    let mut text = String::new(alloc);
    for record in records {
        let lines = record_text(table, record, alloc)?;
        text.push_str(lines.as_str())?;
    }
    Ok(text)
}

/// An empty line, the name of a record, and a line for each member.
fn record_text<T: Records>(table: &T, record: &Record, alloc: Global) -> Result<String, AllocError>
    ensures { IfOk result (λ t. IsRecordText (T.shape_at table.now) record.now (string_bytes t)) }
{
    let name = record.name;
    let lines = member_lines(table, record.members, alloc)?;
    format!(in alloc; "\n{name}\n{lines}")
}

fn member_lines<T: Records>(
    table: &T,
    members: &[Member],
    alloc: Global,
) -> Result<String, AllocError>
    ensures { IfOk result (λ t. Joins (IsMemberLine (T.shape_at table.now)) members.now (string_bytes t)) }
{
    let mut lines = String::new(alloc);
    for member in members {
        let line = member_line(table, member, alloc)?;
        lines.push_str(line.as_str())?;
    }
    Ok(lines)
}

/// The line of a member: its name, whether it is required, what its value may be, and its alias.
fn member_line<T: Records>(table: &T, member: &Member, alloc: Global) -> Result<String, AllocError>
    ensures { IfOk result (λ t. IsMemberLine (T.shape_at table.now) member.now (string_bytes t)) }
{
    let name = member.name;
    let presence = presence_shown(&member.presence, alloc)?;
    let what = schema_text(table, &member.schema, alloc)?;
    let alias = alias_shown(member.alias, alloc)?;
    format!(in alloc; "  {name:<26} {presence}{what}{alias}\n")
}

fn presence_shown(presence: &Presence, alloc: Global) -> Result<String, AllocError>
    ensures { IfOk result (λ t. string_bytes t ≡ presence_text presence.now) }
{
    match presence {
        Presence::Required => String::from_str(alloc, "required  "),
        Presence::Optional | Presence::Nullable | Presence::UnlessEmpty => {
            String::from_str(alloc, "optional  ")
        }
        Presence::DefaultedRecord(_) => String::from_str(alloc, "default   "),
        Presence::Defaulted(value) => default_shown(value, alloc),
    }
}

fn default_shown(value: &DefaultValue, alloc: Global) -> Result<String, AllocError>
    ensures { IfOk result (λ t. string_bytes t ≡ codes "default " ++ (default_text value.now ++ codes ", ")) }
{
    let shown = value_shown(value, alloc)?;
    format!(in alloc; "default {shown}, ")
}

fn value_shown(value: &DefaultValue, alloc: Global) -> Result<String, AllocError>
    ensures { IfOk result (λ t. string_bytes t ≡ default_text value.now) }
{
    match value {
        DefaultValue::String(text) | DefaultValue::Variant(text) => {
            format!(in alloc; "\"{text}\"")
        }
        DefaultValue::Boolean(true) => String::from_str(alloc, "true"),
        DefaultValue::Boolean(false) => String::from_str(alloc, "false"),
        DefaultValue::Integer(number) => number.to_string(alloc),
        DefaultValue::EmptyArray => String::from_str(alloc, "[]"),
    }
}

fn alias_shown(alias: Option<&str>, alloc: Global) -> Result<String, AllocError>
    ensures { IfOk result (λ t. string_bytes t ≡ alias_text alias.entry) }
{
    match alias {
        Some(alias) => format!(in alloc; ", also read as {alias}"),
        None => Ok(String::new(alloc)),
    }
}

/// What a value may be.
fn schema_text<T: Records>(table: &T, schema: &Schema, alloc: Global) -> Result<String, AllocError>
    ensures { IfOk result (λ t. IsSchemaText (T.shape_at table.now) schema.now (string_bytes t)) }
{
    match schema {
        Schema::One(part) => part_text(table, part, alloc),
        Schema::List(part) => {
            let each = part_text(table, part, alloc)?;
            format!(in alloc; "an array, of each item: {each}")
        }
        Schema::Map(part) => {
            let each = part_text(table, part, alloc)?;
            format!(in alloc; "an object, of each member: {each}")
        }
    }
}

fn part_text<T: Records>(table: &T, part: &Part, alloc: Global) -> Result<String, AllocError>
    ensures { IfOk result (λ t. IsPartText (T.shape_at table.now) part.now (string_bytes t)) }
{
    match part {
        Part::Scalar(scalar) => {
            let mut text = String::new(alloc);
            push_scalar(&mut text, scalar, alloc)?;
            Ok(text)
        }
        Part::Record(place) => String::from_str(alloc, table.record(*place).name),
    }
}
