//! What is found of a text, in the form of a row's last line.
ghost use Rattle.oci_model.specs.WellFormed.{WellFormed};
ghost use Rattle.oci_schema.specs.Shapes.{schema_shape};

use anyhow::{Result, bail};
use oci_base::{OciSpecError, SerDeError};
use oci_image::OciLayout;
use oci_json::{from_slice, to_string};
use oci_model::OciRecord;
use oci_schema::by_value::normalize_value;
use oci_spec::schema::{
    Records, Schema, Workspace, is_valid, is_valid_as, is_valid_bytes, normalize, normalize_as,
    normalize_bytes, normalize_pretty, normalize_pretty_as, normalize_pretty_bytes, violations,
    violations_as, violations_in_bytes,
};
use serde_json::Value;
use std::alloc::Global;

/// A way from a text to its document.
#[derive(Clone, Copy, Debug)]
pub enum Reading {
    /// Of a value that is lent.
    Lent,
    /// Of a value that is taken apart.
    Owned,
    /// Of the bytes.
    Bytes,
}

impl Reading {
    /// All ways.
    pub const ALL: [Reading; 3] = [Reading::Lent, Reading::Owned, Reading::Bytes];

    fn read<T: OciRecord>(self, alloc: Global, text: &str) -> oci_base::Result<T> {
        match self {
            Reading::Lent => T::from_value(alloc, &Value::from_str(alloc, text)?),
            Reading::Owned => T::from_value_owned(alloc, Value::from_str(alloc, text)?),
            Reading::Bytes => from_slice(alloc, text.as_bytes()),
        }
    }

    /// The compact text of the document, and whether a copy, and what is read of both texts' bytes, is the same one.
    pub fn found<T: OciRecord>(self, alloc: Global, text: &str) -> Found {
        let document: T = self.read(alloc, text)?;
        let compact = to_string(&document, alloc)?;
        let again = from_slice(alloc, compact.as_bytes());
        let same = is_same(&document, document.duplicate(alloc))
            && is_same(&document, from_slice(alloc, text.as_bytes()))
            && is_same(&document, again);
        Ok((compact, same))
    }
}

/// What is found of a text by a record's calls.
pub type Found = oci_base::Result<(String, bool)>;

/// Whether what was made is this document too.
fn is_same<T: OciRecord>(document: &T, made: oci_base::Result<T>) -> bool {
    match made {
        Ok(other) => *document == other,
        Err(_) => false,
    }
}

/// The line of what is found: the compact text of the document, or the place that refuses the text.
pub fn line_of(alloc: Global, found: &Found) -> Result<String> {
    match found {
        Ok((compact, true)) => Ok(format!(in alloc; "= {compact}")?),
        Ok((compact, false)) => Ok(format!(in alloc; "another document is {compact}")?),
        Err(fault) => refused(alloc, fault),
    }
}

/// The place that rejects the text, or what else is reported.
fn refused(alloc: Global, fault: &OciSpecError) -> Result<String> {
    match fault {
        OciSpecError::SerDe(SerDeError::Schema(fault)) => {
            Ok(format!(in alloc; "! {}.{}", fault.owner, fault.member)?)
        }
        _ => Ok(format!(in alloc; "{fault}")?),
    }
}

/// What is found by a schema, with no document between: the compact text of the value's normal form, or the place
/// that refuses the text. Violations are listed exactly where it is refused, and it is valid exactly where none is.
pub fn by_schema<T: Records>(
    records: &T,
    schema: &Schema,
    alloc: Global,
    text: &str,
    workspace: &mut Workspace,
) -> Result<String>
    requires { WellFormed (schema_shape (T.shape_at records.now) schema.now) }
{
    let value = match Value::from_str(alloc, text) {
        Ok(value) => value,
        Err(fault) => return refused(alloc, &OciSpecError::from(fault)),
    };
    let valid = is_valid(records, schema, &value);
    let count = violations(records, schema, &value, alloc)?.len();
    let answer = normalize_value(records, schema, value, alloc);
    if valid != (count == 0) || valid != answer.is_ok() {
        return Ok(String::from_str(alloc, "violations are listed, or not")?);
    }
    if judged(records, schema, alloc, text, workspace)? != (valid, count) {
        return Ok(String::from_str(alloc, "the bytes are judged otherwise")?);
    }
    match answer {
        Ok(normal) => {
            let compact = normal.to_string(alloc)?;
            let pretty = normal.to_string_pretty(alloc)?;
            if streamed(records, schema, alloc, text, workspace)? != (compact, pretty) {
                return Ok(String::from_str(alloc, "a writer is given another text")?);
            }
            let compact = normal.to_string(alloc)?;
            Ok(format!(in alloc; "= {compact}")?)
        }
        Err(fault) => refused(alloc, &fault),
    }
}

/// The same straight from the bytes.
pub fn by_bytes<T: Records>(
    records: &T,
    schema: &Schema,
    alloc: Global,
    text: &str,
    workspace: &mut Workspace,
) -> Result<String>
    requires { WellFormed (schema_shape (T.shape_at records.now) schema.now) }
{
    let bytes = text.as_bytes();
    let mut out = Vec::new(alloc);
    match normalize_bytes(records, schema, alloc, bytes, workspace, &mut out) {
        Ok(()) => {
            let compact = text_of(alloc, &out)?;
            Ok(format!(in alloc; "= {compact}")?)
        }
        Err(fault) => refused(alloc, &fault),
    }
}

/// Whether the bytes of a text are valid, and how many violations they have.
fn judged<T: Records>(
    records: &T,
    schema: &Schema,
    alloc: Global,
    text: &str,
    workspace: &mut Workspace,
) -> Result<(bool, usize)>
    requires { WellFormed (schema_shape (T.shape_at records.now) schema.now) }
{
    let bytes = text.as_bytes();
    let valid = is_valid_bytes(records, schema, alloc, bytes, workspace)?;
    let found = violations_in_bytes(records, schema, alloc, bytes, workspace)?;
    Ok((valid, found.len()))
}

/// What a writer is given of a text that the schema allows, compact and indented. The indented text is made of the bytes too.
fn streamed<T: Records>(
    records: &T,
    schema: &Schema,
    alloc: Global,
    text: &str,
    workspace: &mut Workspace,
) -> Result<(String, String)>
    requires { WellFormed (schema_shape (T.shape_at records.now) schema.now) }
{
    let bytes = text.as_bytes();
    let (mut compact, mut pretty) = (Vec::new(alloc), Vec::new(alloc));
    normalize(records, schema, alloc, bytes, &mut compact)?;
    normalize_pretty(records, schema, alloc, bytes, &mut pretty)?;
    let mut again = Vec::new(alloc);
    normalize_pretty_bytes(records, schema, alloc, bytes, workspace, &mut again)?;
    if again != pretty {
        bail!("two pretty texts");
    }
    Ok((text_of(alloc, &compact)?, text_of(alloc, &pretty)?))
}

fn text_of(alloc: Global, bytes: &Vec<u8>) -> Result<String> {
    Ok(String::from_str(
        alloc,
        std::str::from_utf8(bytes.as_slice()).unwrap_or("no text"),
    )?)
}

/// What the calls by a record's type find: how many violations a layout with no members has, and the normal form of one with an
/// unknown member, compact and indented.
pub fn by_type(alloc: Global) -> Result<String> {
    let more = "{\"more\":1,\"imageLayoutVersion\":\"1.0.0\"}";
    let empty = Value::from_str(alloc, "{}")?;
    let count = violations_as::<OciLayout>(&empty, alloc)?.len();
    let whole = Value::from_str(alloc, more)?;
    let valid = is_valid_as::<OciLayout>(&empty) || !is_valid_as::<OciLayout>(&whole);
    let (mut compact, mut pretty) = (Vec::new(alloc), Vec::new(alloc));
    normalize_as::<OciLayout, _, _>(alloc, more.as_bytes(), &mut compact)?;
    normalize_pretty_as::<OciLayout, _, _>(alloc, more.as_bytes(), &mut pretty)?;
    let (compact, pretty) = (text_of(alloc, &compact)?, text_of(alloc, &pretty)?);
    Ok(format!(in alloc; "{count} violation, {valid}\n{compact}\n{pretty}")?)
}
