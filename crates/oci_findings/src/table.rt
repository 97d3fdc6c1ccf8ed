//! The members of a kind of documents.
use crate::wording::push_scalar;
use oci_schema::{DefaultValue, Member, Part, Presence, Record, Records, Schema};
use oci_schemas::{Kind, OciRecords};
use std::alloc::{AllocError, Global};

/// The most records that a document can have.
const RECORDS: usize = 100;

/// The members of a kind of documents, and of each record that they name.
pub fn table_of(kind: Kind, alloc: Global) -> Result<String, AllocError> {
    let mut text = String::new(alloc);
    text.push_str(kind.title())?;
    text.push_str("\n")?;
    for place in &records_of(kind, alloc)? {
        push_record(&mut text, OciRecords.record(*place), alloc)?;
    }
    Ok(text)
}

/// The places of the records that documents of a kind have, each once, in the order in which they are named.
pub fn records_of(kind: Kind, alloc: Global) -> Result<Vec<usize>, AllocError> {
    let mut places = Vec::new(alloc);
    note(kind.schema(), &mut places)?;
    for index in 0..RECORDS {
        let Some(place) = places.get(index) else {
            break;
        };
        for member in OciRecords.record(*place).members {
            note(&member.schema, &mut places)?;
        }
    }
    Ok(places)
}

/// Notes the record that a schema names, if it was not met before.
fn note(schema: &Schema, places: &mut Vec<usize>) -> Result<(), AllocError> {
    let part = match schema {
        Schema::One(part) | Schema::List(part) | Schema::Map(part) => part,
    };
    if let Part::Record(place) = part {
        if !places.contains(place) {
            places.push(*place)?;
        }
    }
    Ok(())
}

fn push_record(text: &mut String, record: &Record, alloc: Global) -> Result<(), AllocError> {
    text.push_str("\n")?;
    text.push_str(record.name)?;
    text.push_str("\n")?;
    for member in record.members {
        push_member(text, member, alloc)?;
    }
    Ok(())
}

fn push_member(text: &mut String, member: &Member, alloc: Global) -> Result<(), AllocError> {
    let name = member.name;
    let row = format!(in alloc; "  {name:<26} ")?;
    text.push_str(row.as_str())?;
    push_presence(text, &member.presence, alloc)?;
    push_schema(text, &member.schema, alloc)?;
    if let Some(alias) = member.alias {
        text.push_str(", also read as ")?;
        text.push_str(alias)?;
    }
    text.push_str("\n")
}

fn push_presence(text: &mut String, presence: &Presence, alloc: Global) -> Result<(), AllocError> {
    match presence {
        Presence::Required => text.push_str("required  "),
        Presence::Optional | Presence::Nullable | Presence::UnlessEmpty => text.push_str(
            "optional  ",
        ),
        Presence::DefaultedRecord(_) => text.push_str("default   "),
        Presence::Defaulted(value) => push_default(text, value, alloc),
    }
}

fn push_default(text: &mut String, value: &DefaultValue, alloc: Global) -> Result<(), AllocError> {
    match value {
        DefaultValue::String(default) | DefaultValue::Variant(default) => {
            push_quoted(text, default)
        }
        DefaultValue::Boolean(true) => text.push_str("default true, "),
        DefaultValue::Boolean(false) => text.push_str("default false, "),
        DefaultValue::Integer(default) => push_integer(text, *default, alloc),
        DefaultValue::EmptyArray => text.push_str("default [], "),
    }
}

fn push_quoted(text: &mut String, default: &str) -> Result<(), AllocError> {
    text.push_str("default \"")?;
    text.push_str(default)?;
    text.push_str("\", ")
}

fn push_integer(text: &mut String, default: i128, alloc: Global) -> Result<(), AllocError> {
    let shown = default.to_string(alloc)?;
    text.push_str("default ")?;
    text.push_str(shown.as_str())?;
    text.push_str(", ")
}

fn push_schema(text: &mut String, schema: &Schema, alloc: Global) -> Result<(), AllocError> {
    match schema {
        Schema::One(part) => push_part(text, part, alloc),
        Schema::List(part) => {
            text.push_str("an array, of each item: ")?;
            push_part(text, part, alloc)
        }
        Schema::Map(part) => {
            text.push_str("an object, of each member: ")?;
            push_part(text, part, alloc)
        }
    }
}

fn push_part(text: &mut String, part: &Part, alloc: Global) -> Result<(), AllocError> {
    match part {
        Part::Scalar(scalar) => push_scalar(text, scalar, alloc),
        Part::Record(place) => text.push_str(OciRecords.record(*place).name),
    }
}
