//! Schemas by types.
ghost use Rattle.std.specs.Prelude.{◌≡◌, ◌↔◌, [], true, map, IfOk, OnOk};
ghost use Rattle.std.specs.List.{Contains};
ghost use Rattle.serde_json.specs.View.{view};
ghost use Rattle.oci_model.specs.Plain.{Plain};
ghost use Rattle.oci_model.specs.Means.{Means};
ghost use Rattle.oci_json.specs.Engines.{WritesDocument, ReadsBackDocument};
ghost use Rattle.oci_schema.specs.Shapes.{schema_shape};
ghost use Rattle.oci_schema.specs.Violations.{Report, reported, violations as all_violations};
ghost use Rattle.oci_schema.specs.Wants.{IsViolation};
ghost use Rattle.oci_schema.specs.Normalizes.{Normalizes, WritesPretty};

use oci_base::Result;
use oci_model::OciRecord;
use oci_schema::{Records, Schema, Violation};
use serde_json::Value;
use std::alloc::{AllocError, Global};
use std::io::{Read, Write};

/// A type of documents that has a schema. All 83 record types of this library have one, in the table `OciRecords`; a type of your
/// own may name a table of your own.
pub trait HasSchema: OciRecord {
    /// The table of the records that the schema names.
    type Table: Records + 'static;

    /// Returns the table and the schema.
    fn schema() -> (&'static Self::Table, &'static Schema)
        ensures { schema_shape (Self.Table.shape_at result.0.now) result.1.now ≡ Self.shape };
}

/// Returns whether `value` is a valid `T`: whether reading it succeeds, memory aside.
pub fn is_valid_as<T: HasSchema>(value: &Value) -> bool
    ensures { (result ≡ true) ↔ ((p : Plain) × Means T.shape (view value.now) p) }
{
    let (records, schema) = T::schema();
    oci_schema::is_valid(records, schema, value)
}

/// Returns every violation of the schema of `T` in `value`, in schema order, as `violations` does: none exactly if `value` is a valid
/// `T`. Fails if out of memory.
pub fn violations_as<T: HasSchema>(
    value: &Value,
    alloc: Global,
) -> std::result::Result<Vec<Violation>, AllocError>
    ensures all { IfOk result (λ v. map reported v.items ≡ all_violations T.shape [] (view value.now)) }
    ensures exact { IfOk result (λ v. (x : Report) → Contains (map reported v.items) x ↔ IsViolation T.shape (view value.now) x) }
    ensures none { IfOk result (λ v. (v.items ≡ []) ↔ ((p : Plain) × Means T.shape (view value.now) p)) }
{
    let (records, schema) = T::schema();
    oci_schema::violations(records, schema, value, alloc)
}

/// Reads a `T` to the end of the input and writes its normal form as compact JSON, as `normalize` does.
pub fn normalize_as<T: HasSchema, R: Read + Drop, W: Write>(
    alloc: Global,
    reader: R,
    writer: &mut W,
) -> Result<()>
    ensures normalizes { Normalizes (WritesDocument T.shape (R.remaining reader)) T.shape (R.remaining reader) (W.contents writer.old) (W.contents writer.new) result }
    ensures reads_back { OnOk result (ReadsBackDocument T.shape (R.remaining reader)) }
{
    let (records, schema) = T::schema();
    oci_schema::bytes::normalize(records, schema, alloc, reader, writer)
}

/// Reads a `T` to the end of the input and writes its normal form as pretty JSON, as `normalize_pretty` does.
pub fn normalize_pretty_as<T: HasSchema, R: Read + Drop, W: Write>(
    alloc: Global,
    reader: R,
    writer: &mut W,
) -> Result<()>
    ensures { Normalizes (WritesPretty T.shape (R.remaining reader)) T.shape (R.remaining reader) (W.contents writer.old) (W.contents writer.new) result }
{
    let (records, schema) = T::schema();
    oci_schema::bytes::normalize_pretty(records, schema, alloc, reader, writer)
}
