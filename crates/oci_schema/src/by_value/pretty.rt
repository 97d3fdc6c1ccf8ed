//! The normal form of a document, as pretty text.
ghost use Rattle.oci_model.specs.WellFormed.{WellFormed};
ghost use Rattle.oci_schema.specs.Shapes.{schema_shape};
ghost use Rattle.oci_schema.specs.Normalizes.{Normalizes, WritesPretty};

use crate::by_value::normal_value_from_reader;
use crate::{Records, Schema};
use oci_base::Result;
use oci_json::write_text;
use std::alloc::Global;
use std::io::{Read, Write};

/// Reads a document to its end and writes its canonical (normal) form as pretty JSON: a line for each member or item, indented by
/// two spaces a level. Fails as `normalize` does.
pub fn normalize_pretty<T: Records, R: Read + Drop, W: Write>(
    records: &T,
    schema: &Schema,
    alloc: Global,
    reader: R,
    writer: &mut W,
) -> Result<()>
    requires { WellFormed (schema_shape (T.shape_at records.now) schema.now) }
    ensures { let s = schema_shape (T.shape_at records.now) schema.now in Normalizes (WritesPretty s (R.remaining reader)) s (R.remaining reader) (W.contents writer.old) (W.contents writer.new) result }
{
    let normal = normal_value_from_reader(records, schema, alloc, reader)?;
    let text = normal.to_string_pretty(alloc)?;
    write_text(text.as_bytes(), writer)?;
    Ok(())
}
