//! The normal form of a value.
ghost use Rattle.std.specs.Prelude.{◌≡◌, IfOk, IfErr};
ghost use Rattle.serde_json.specs.View.{view};
ghost use Rattle.oci_base.specs.Refused.{IsSchema, IsMemoryOrSchema};
ghost use Rattle.oci_model.specs.Plain.{Plain};
ghost use Rattle.oci_model.specs.Means.{Means};
ghost use Rattle.oci_model.specs.Value.{value as json_of};
ghost use Rattle.oci_model.specs.WellFormed.{WellFormed};
ghost use Rattle.oci_model.specs.Writable.{Writable};
ghost use Rattle.oci_schema.specs.Shapes.{schema_shape};
ghost use Rattle.oci_schema.specs.Normalized.{HasNoNormalForm};

use crate::normal_value::normal_value;
use crate::{Records, Schema};
use oci_base::Result;
use serde_json::Value;
use std::alloc::Global;

/// Returns the normal form of a value: what is written for the document that it decodes to, with unknown members left out,
/// defaults filled in, aliases replaced by names, and the members of each record in byte order.
///
/// No typed document is made, and strings are moved, not copied. The value is consumed in any case. Fails with `SerDe(Schema)`
/// if the value is invalid, or holds a `detail` that nests too deep to be written; the error names the innermost record and its
/// first offending member in schema order. Fails with `Memory` if out of memory.
pub fn normalize_value<T: Records>(
    records: &T,
    schema: &Schema,
    value: Value,
    alloc: Global,
) -> Result<Value>
    requires { WellFormed (schema_shape (T.shape_at records.now) schema.now) }
    ensures ok { IfOk result (λ v. (p : Plain) × Means (schema_shape (T.shape_at records.now) schema.now) (view value) p × Writable (schema_shape (T.shape_at records.now) schema.now) p × (view v ≡ json_of (schema_shape (T.shape_at records.now) schema.now) p)) }
    ensures err { IfErr result (λ e. IsSchema e → HasNoNormalForm (schema_shape (T.shape_at records.now) schema.now) (view value)) }
    ensures kind { IfErr result IsMemoryOrSchema }
{
    normal_value(records, schema, value, alloc)
}
