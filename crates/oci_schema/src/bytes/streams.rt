//! From a reader to a writer, straight from the bytes.
ghost use Rattle.std.specs.Prelude.{IfErr, OnOk};
ghost use Rattle.oci_base.specs.Refused.{IsMemorySerDeOrIo};
ghost use Rattle.oci_model.specs.WellFormed.{WellFormed};
ghost use Rattle.oci_json.specs.Engines.{WritesDocument, ReadsBackDocument};
ghost use Rattle.oci_schema.specs.Normalizes.{Normalizes};
ghost use Rattle.oci_schema.specs.Shapes.{schema_shape};
ghost use Rattle.oci_schema.specs.Canonical.{MakesText};

use crate::bytes::calls::document_text;
use crate::bytes::lane::Workspace;
use crate::{Records, Schema};
use oci_base::Result;
use oci_json::{bytes_from_reader, write_text};
use std::alloc::Global;
use std::io::{Read, Write};

/// Reads a document to its end and writes its canonical (normal) form as compact JSON: unknown members are left out, the others
/// are in byte order of their names. The text has another digest than the document that was read.
///
/// Fails with `SerDe(Json)` if the input is not JSON, with `SerDe(Schema)` if it is invalid or has no normal form, with `Io` if a
/// read or a write fails, and with `Memory` if out of memory. Nothing is written unless the error is `Io`; then nothing was
/// written, or a beginning of the text.
pub fn normalize<T: Records, R: Read + Drop, W: Write>(
    records: &T,
    schema: &Schema,
    alloc: Global,
    reader: R,
    writer: &mut W,
) -> Result<()>
    requires { WellFormed (schema_shape (T.shape_at records.now) schema.now) }
    ensures normalizes { let s = schema_shape (T.shape_at records.now) schema.now in Normalizes (WritesDocument s (R.remaining reader)) s (R.remaining reader) (W.contents writer.old) (W.contents writer.new) result }
    ensures reads_back { OnOk result (ReadsBackDocument (schema_shape (T.shape_at records.now) schema.now) (R.remaining reader)) }
{
    let text = text_from_reader(records, schema, alloc, reader)?;
    write_text(text.as_slice(), writer)?;
    Ok(())
}

/// Reads a document to its end and returns the text of its normal form. The bytes that were read are dropped.
fn text_from_reader<T: Records, R: Read + Drop>(
    records: &T,
    schema: &Schema,
    alloc: Global,
    mut reader: R,
) -> Result<Vec<u8>>
    requires { WellFormed (schema_shape (T.shape_at records.now) schema.now) }
    ensures makes { MakesText (schema_shape (T.shape_at records.now) schema.now) (R.remaining reader) result }
    ensures kind { IfErr result IsMemorySerDeOrIo }
{
    let bytes = bytes_from_reader(alloc, &mut reader)?;
    let mut workspace = Workspace::new(alloc);
    document_text(records, schema, alloc, bytes.as_slice(), &mut workspace)
}
