//! The normal form of a document, as compact text.
ghost use Rattle.std.specs.Prelude.{◌≡◌, IfOk, IfErr, IfSome, OnOk};
ghost use Rattle.serde_json.specs.View.{view};
ghost use Rattle.oci_base.specs.Refused.{IsSchema, IsJson, IsMemorySerDeOrIo};
ghost use Rattle.oci_model.specs.Plain.{Plain};
ghost use Rattle.oci_model.specs.Value.{value as json_of};
ghost use Rattle.oci_model.specs.WellFormed.{WellFormed};
ghost use Rattle.oci_model.specs.Writable.{Writable};
ghost use Rattle.oci_json.specs.Engines.{MeansBytes, WritesDocument, ReadsBackDocument, IsNotNormalized, IsNoJson};
ghost use Rattle.oci_schema.specs.Shapes.{schema_shape};
ghost use Rattle.oci_schema.specs.Normalizes.{Normalizes};

use crate::by_value::normalize_value;
use crate::{Records, Schema};
use oci_base::Result;
use oci_json::{value_from_reader, write_text};
use serde_json::Value;
use std::alloc::Global;
use std::io::{Read, Write};

/// Reads a document to its end and returns its normal form as a value. Fails as `value_from_reader` and `normalize_value` do.
pub fn normal_value_from_reader<T: Records, R: Read + Drop>(
    records: &T,
    schema: &Schema,
    alloc: Global,
    reader: R,
) -> Result<Value>
    requires { WellFormed (schema_shape (T.shape_at records.now) schema.now) }
    ensures ok { IfOk result (λ v. (p : Plain) × IfSome (R.remaining reader) (λ bytes. MeansBytes (schema_shape (T.shape_at records.now) schema.now) bytes p)
        × Writable (schema_shape (T.shape_at records.now) schema.now) p × (view v ≡ json_of (schema_shape (T.shape_at records.now) schema.now) p)) }
    ensures json { IfErr result (λ e. IsJson e → IfSome (R.remaining reader) IsNoJson) }
    ensures schema { IfErr result (λ e. IsSchema e → IfSome (R.remaining reader) (IsNotNormalized (schema_shape (T.shape_at records.now) schema.now))) }
    ensures kind { IfErr result IsMemorySerDeOrIo }
{
    let value = value_from_reader(alloc, reader)?;
    normalize_value(records, schema, value, alloc)
}

/// Reads a document to its end and writes its canonical (normal) form as compact JSON: unknown members are left out, the others
/// are in byte order of their names. The text has another digest than the document that was read.
///
/// Fails with `SerDe(Json)` if the input is not JSON, with `SerDe(Schema)` if it is invalid or has no normal form, with `Io` if a
/// read or a write fails, and with `Memory` if out of memory. Nothing is written unless the error is `Io`; then nothing was
/// written, or a beginning of the text.
pub fn normalize<T: Records, R: Read + Drop, W: Write>(
    records: &T,
    schema: &Schema,
    alloc: Global,
    reader: R,
    writer: &mut W,
) -> Result<()>
    requires { WellFormed (schema_shape (T.shape_at records.now) schema.now) }
    ensures normalizes { let s = schema_shape (T.shape_at records.now) schema.now in Normalizes (WritesDocument s (R.remaining reader)) s (R.remaining reader) (W.contents writer.old) (W.contents writer.new) result }
    ensures reads_back { OnOk result (ReadsBackDocument (schema_shape (T.shape_at records.now) schema.now) (R.remaining reader)) }
{
    let normal = normal_value_from_reader(records, schema, alloc, reader)?;
    let text = normal.to_string(alloc)?;
    write_text(text.as_bytes(), writer)?;
    Ok(())
}
