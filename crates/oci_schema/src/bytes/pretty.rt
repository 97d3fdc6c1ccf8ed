//! The normal form of a document in bytes, as pretty text.
ghost use Rattle.std.specs.Prelude.{◌≡◌, ◌++◌, Some, IfErr, OnOk, OnErr};
ghost use Rattle.oci_base.specs.Refused.{IsSchema, IsJson, IsMemoryOrSerDe, IsMemorySerDeOrIo};
ghost use Rattle.oci_model.specs.WellFormed.{WellFormed};
ghost use Rattle.oci_json.specs.Engines.{IsNotNormalized, IsNoJson};
ghost use Rattle.oci_schema.specs.Canonical.{MakesPretty};
ghost use Rattle.oci_schema.specs.Normalizes.{Normalizes, WritesPretty};
ghost use Rattle.oci_schema.specs.Shapes.{schema_shape};

use crate::bytes::calls::{append, normal_value_of};
use crate::bytes::lane::{Workspace, pretty_text};
use crate::{Records, Schema};
use oci_base::Result;
use oci_json::{bytes_from_reader, write_text};
use std::alloc::Global;
use std::io::{Read, Write};

/// Reads a document from bytes and appends its canonical (normal) form as pretty JSON: a line for each member or item, indented by
/// two spaces a level. Fails as `normalize_bytes` does. Nothing is appended then.
pub fn normalize_pretty_bytes<T: Records>(
    records: &T,
    schema: &Schema,
    alloc: Global,
    bytes: &[u8],
    workspace: &mut Workspace,
    out: &mut Vec<u8>,
) -> Result<()>
    requires { WellFormed (schema_shape (T.shape_at records.now) schema.now) }
    ensures ok { OnOk result (WritesPretty (schema_shape (T.shape_at records.now) schema.now) (Some bytes.now) (λ text. out.new.items ≡ out.old.items ++ text)) }
    ensures json { IfErr result (λ e. IsJson e → IsNoJson bytes.now) }
    ensures schema { IfErr result (λ e. IsSchema e → IsNotNormalized (schema_shape (T.shape_at records.now) schema.now) bytes.now) }
    ensures unchanged { OnErr result (out.new.items ≡ out.old.items) }
    ensures kind { IfErr result IsMemoryOrSerDe }
{
    let text = pretty_document(records, schema, alloc, bytes, workspace)?;
    append(text.as_slice(), out)
}

/// Reads a document to its end and writes its canonical (normal) form as pretty JSON: a line for each member or item, indented by
/// two spaces a level. Fails as `normalize` does.
pub fn normalize_pretty<T: Records, R: Read + Drop, W: Write>(
    records: &T,
    schema: &Schema,
    alloc: Global,
    reader: R,
    writer: &mut W,
) -> Result<()>
    requires { WellFormed (schema_shape (T.shape_at records.now) schema.now) }
    ensures { let s = schema_shape (T.shape_at records.now) schema.now in Normalizes (WritesPretty s (R.remaining reader)) s (R.remaining reader) (W.contents writer.old) (W.contents writer.new) result }
{
    let text = pretty_from_reader(records, schema, alloc, reader)?;
    write_text(text.as_slice(), writer)?;
    Ok(())
}

/// Reads a document to its end and returns the pretty text of its normal form. The bytes that were read are dropped.
fn pretty_from_reader<T: Records, R: Read + Drop>(
    records: &T,
    schema: &Schema,
    alloc: Global,
    mut reader: R,
) -> Result<Vec<u8>>
    requires { WellFormed (schema_shape (T.shape_at records.now) schema.now) }
    ensures makes { MakesPretty (schema_shape (T.shape_at records.now) schema.now) (R.remaining reader) result }
    ensures kind { IfErr result IsMemorySerDeOrIo }
{
    let bytes = bytes_from_reader(alloc, &mut reader)?;
    let mut workspace = Workspace::new(alloc);
    pretty_document(records, schema, alloc, bytes.as_slice(), &mut workspace)
}

/// The pretty text of the normal form of a document.
fn pretty_document<T: Records>(
    records: &T,
    schema: &Schema,
    alloc: Global,
    bytes: &[u8],
    workspace: &mut Workspace,
) -> Result<Vec<u8>>
    requires { WellFormed (schema_shape (T.shape_at records.now) schema.now) }
    ensures makes { MakesPretty (schema_shape (T.shape_at records.now) schema.now) (Some bytes.now) result }
    ensures kind { IfErr result IsMemoryOrSerDe }
{
    let found = pretty_text(records, schema, alloc, bytes, workspace)?;
    match found {
        Some(text) => Ok(text),
        None => pretty_by_value(records, schema, alloc, bytes),
    }
}

/// The same by a value.
fn pretty_by_value<T: Records>(
    records: &T,
    schema: &Schema,
    alloc: Global,
    bytes: &[u8],
) -> Result<Vec<u8>>
    requires { WellFormed (schema_shape (T.shape_at records.now) schema.now) }
    ensures makes { MakesPretty (schema_shape (T.shape_at records.now) schema.now) (Some bytes.now) result }
    ensures kind { IfErr result IsMemoryOrSerDe }
{
    let normal = normal_value_of(records, schema, alloc, bytes)?;
    let text = normal.to_string_pretty(alloc)?;
    Ok(text.into_bytes())
}
