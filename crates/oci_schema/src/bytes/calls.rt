//! The calls.
ghost use Rattle.std.specs.Prelude.{◌≡◌, ◌↔◌, ◌++◌, [], map, Some, true, IfOk, IfErr, OnOk, OnErr};
ghost use Rattle.serde_json.specs.Data.{Data};
ghost use Rattle.serde_json.specs.View.{view};
ghost use Rattle.oci_base.specs.Refused.{IsMemory, IsSchema, IsJson, IsMemoryOrSerDe};
ghost use Rattle.oci_model.specs.Plain.{Plain};
ghost use Rattle.oci_model.specs.Value.{value as json_of};
ghost use Rattle.oci_model.specs.WellFormed.{WellFormed};
ghost use Rattle.oci_model.specs.Writable.{Writable};
ghost use Rattle.oci_json.specs.Engines.{MeansBytes, ReadsAs, WritesDocument, ReadsBackDocument, IsNotNormalized, IsNoJson};
ghost use Rattle.oci_schema.specs.Shapes.{schema_shape};
ghost use Rattle.oci_schema.specs.Violations.{reported, violations as all_violations};
ghost use Rattle.oci_schema.specs.Canonical.{MakesText};

use crate::by_value::normalize_value;
use crate::bytes::lane::{Workspace, is_accepted, normal_text};
use crate::{Records, Schema, Violation, is_valid, violations};
use oci_base::{OciSpecError, Result};
use oci_json::value_from_slice;
use serde_json::Value;
use std::alloc::Global;

/// Reads a document from bytes and appends its canonical (normal) form as compact JSON: unknown members are left out, the others
/// are in byte order of their names. The text is read back as the document.
///
/// Fails with `SerDe(Json)` if the bytes are not JSON, with `SerDe(Schema)` if they are invalid or have no normal form, and with
/// `Memory` if out of memory. Nothing is appended then.
pub fn normalize_bytes<T: Records>(
    records: &T,
    schema: &Schema,
    alloc: Global,
    bytes: &[u8],
    workspace: &mut Workspace,
    out: &mut Vec<u8>,
) -> Result<()>
    requires { WellFormed (schema_shape (T.shape_at records.now) schema.now) }
    ensures ok { OnOk result (WritesDocument (schema_shape (T.shape_at records.now) schema.now) (Some bytes.now) (λ text. out.new.items ≡ out.old.items ++ text)) }
    ensures reads_back { OnOk result (ReadsBackDocument (schema_shape (T.shape_at records.now) schema.now) (Some bytes.now)) }
    ensures json { IfErr result (λ e. IsJson e → IsNoJson bytes.now) }
    ensures schema { IfErr result (λ e. IsSchema e → IsNotNormalized (schema_shape (T.shape_at records.now) schema.now) bytes.now) }
    ensures unchanged { OnErr result (out.new.items ≡ out.old.items) }
    ensures kind { IfErr result IsMemoryOrSerDe }
{
    let text = document_text(records, schema, alloc, bytes, workspace)?;
    append(text.as_slice(), out)
}

/// Reads a document from bytes and returns the text of its normal form.
pub fn document_text<T: Records>(
    records: &T,
    schema: &Schema,
    alloc: Global,
    bytes: &[u8],
    workspace: &mut Workspace,
) -> Result<Vec<u8>>
    requires { WellFormed (schema_shape (T.shape_at records.now) schema.now) }
    ensures makes { MakesText (schema_shape (T.shape_at records.now) schema.now) (Some bytes.now) result }
    ensures kind { IfErr result IsMemoryOrSerDe }
{
    let found = normal_text(records, schema, alloc, bytes, workspace)?;
    match found {
        Some(text) => Ok(text),
        None => text_by_value(records, schema, alloc, bytes),
    }
}

/// Appends the bytes.
pub fn append(bytes: &[u8], out: &mut Vec<u8>) -> Result<()>
    ensures ok { OnOk result (out.new.items ≡ out.old.items ++ bytes.now) }
    ensures err { OnErr result (out.new.items ≡ out.old.items) }
    ensures kind { IfErr result IsMemory }
{
    match out.extend_from_slice(bytes) {
        Ok(()) => Ok(()),
        Err(_) => Err(OciSpecError::Memory),
    }
}

/// The same by a value.
pub fn text_by_value<T: Records>(
    records: &T,
    schema: &Schema,
    alloc: Global,
    bytes: &[u8],
) -> Result<Vec<u8>>
    requires { WellFormed (schema_shape (T.shape_at records.now) schema.now) }
    ensures makes { MakesText (schema_shape (T.shape_at records.now) schema.now) (Some bytes.now) result }
    ensures kind { IfErr result IsMemoryOrSerDe }
{
    let normal = normal_value_of(records, schema, alloc, bytes)?;
    let text = normal.to_string(alloc)?;
    Ok(text.into_bytes())
}

/// Reads a document from bytes and returns its normal form as a value.
pub fn normal_value_of<T: Records>(
    records: &T,
    schema: &Schema,
    alloc: Global,
    bytes: &[u8],
) -> Result<Value>
    requires { WellFormed (schema_shape (T.shape_at records.now) schema.now) }
    ensures ok { IfOk result (λ v. (p : Plain) × MeansBytes (schema_shape (T.shape_at records.now) schema.now) bytes.now p
        × Writable (schema_shape (T.shape_at records.now) schema.now) p × (view v ≡ json_of (schema_shape (T.shape_at records.now) schema.now) p)) }
    ensures json { IfErr result (λ e. IsJson e → IsNoJson bytes.now) }
    ensures schema { IfErr result (λ e. IsSchema e → IsNotNormalized (schema_shape (T.shape_at records.now) schema.now) bytes.now) }
    ensures kind { IfErr result IsMemoryOrSerDe }
{
    let value = value_from_slice(alloc, bytes)?;
    normalize_value(records, schema, value, alloc)
}

/// Returns whether the bytes are a valid document. Fails with `SerDe(Json)` if they are not JSON, and with `Memory` if out of
/// memory.
pub fn is_valid_bytes<T: Records>(
    records: &T,
    schema: &Schema,
    alloc: Global,
    bytes: &[u8],
    workspace: &mut Workspace,
) -> Result<bool>
    requires { WellFormed (schema_shape (T.shape_at records.now) schema.now) }
    ensures ok { IfOk result (λ b. (b ≡ true) ↔ ((p : Plain) × MeansBytes (schema_shape (T.shape_at records.now) schema.now) bytes.now p)) }
    ensures json { IfErr result (λ e. IsJson e → IsNoJson bytes.now) }
    ensures no_schema { IfErr result (λ e. ¬ IsSchema e) }
    ensures kind { IfErr result IsMemoryOrSerDe }
{
    let accepted = is_accepted(records, schema, alloc, bytes, workspace)?;
    if accepted {
        return Ok(true);
    }
    is_valid_by_value(records, schema, alloc, bytes)
}

/// The same by a value.
fn is_valid_by_value<T: Records>(
    records: &T,
    schema: &Schema,
    alloc: Global,
    bytes: &[u8],
) -> Result<bool>
    ensures ok { IfOk result (λ b. (b ≡ true) ↔ ((p : Plain) × MeansBytes (schema_shape (T.shape_at records.now) schema.now) bytes.now p)) }
    ensures json { IfErr result (λ e. IsJson e → IsNoJson bytes.now) }
    ensures no_schema { IfErr result (λ e. ¬ IsSchema e) }
    ensures kind { IfErr result IsMemoryOrSerDe }
{
    let value = value_from_slice(alloc, bytes)?;
    Ok(is_valid(records, schema, &value))
}

/// Returns every violation of the schema in a document, as `crate::violations` does of a value; none exactly if the document
/// is valid. Fails with `SerDe(Json)` if the bytes are not JSON, and with `Memory` if out of memory.
pub fn violations_in_bytes<T: Records>(
    records: &T,
    schema: &Schema,
    alloc: Global,
    bytes: &[u8],
    workspace: &mut Workspace,
) -> Result<Vec<Violation>>
    requires { WellFormed (schema_shape (T.shape_at records.now) schema.now) }
    ensures all { IfOk result (λ v. (d : Data) × ReadsAs bytes.now d × (map reported v.items ≡ all_violations (schema_shape (T.shape_at records.now) schema.now) [] d)) }
    ensures none { IfOk result (λ v. (v.items ≡ []) ↔ ((p : Plain) × MeansBytes (schema_shape (T.shape_at records.now) schema.now) bytes.now p)) }
    ensures json { IfErr result (λ e. IsJson e → IsNoJson bytes.now) }
    ensures no_schema { IfErr result (λ e. ¬ IsSchema e) }
    ensures kind { IfErr result IsMemoryOrSerDe }
{
    let accepted = is_accepted(records, schema, alloc, bytes, workspace)?;
    if accepted {
        return Ok(Vec::new(alloc));
    }
    violations_by_value(records, schema, alloc, bytes)
}

/// The same by a value.
fn violations_by_value<T: Records>(
    records: &T,
    schema: &Schema,
    alloc: Global,
    bytes: &[u8],
) -> Result<Vec<Violation>>
    ensures all { IfOk result (λ v. (d : Data) × ReadsAs bytes.now d × (map reported v.items ≡ all_violations (schema_shape (T.shape_at records.now) schema.now) [] d)) }
    ensures none { IfOk result (λ v. (v.items ≡ []) ↔ ((p : Plain) × MeansBytes (schema_shape (T.shape_at records.now) schema.now) bytes.now p)) }
    ensures json { IfErr result (λ e. IsJson e → IsNoJson bytes.now) }
    ensures no_schema { IfErr result (λ e. ¬ IsSchema e) }
    ensures kind { IfErr result IsMemoryOrSerDe }
{
    let value = value_from_slice(alloc, bytes)?;
    let found = violations(records, schema, &value, alloc)?;
    Ok(found)
}
