//! Parts whose normal form is made of a value: key sets, details, free objects, maps of strings whose names are not in order, and sets
//! of capabilities that are not in their normal form.
ghost use Rattle.std.specs.Prelude.{ℕ, IsTrue};
ghost use Rattle.oci_model.specs.Shape.{Shape, map};
ghost use Rattle.oci_schema.specs.Shapes.{part_shape, scalar_shape, schema_shape};
ghost use Rattle.oci_schema.specs.Normalized.{IsSound};
ghost use Rattle.oci_schema.specs.Walks.{IfDone, Writes, WritesNormal};

use crate::normal_value::normal_value;
use crate::{Part, Records, Scalar, Schema};
use json::Element;
use oci_base::OciSpecError;
use oci_json_tape::{Sink, value_of, write_value};
use std::alloc::{AllocError, Global};

/// How deep such a value nests at most: no deeper than a text may.
const DEPTH: usize = 127;

/// Writes the normal form of what begins at the element by way of a value; `false` if the schema rejects it.
pub fn write_by_value<T: Records, K: Sink>(
    records: &T,
    schema: &Schema,
    element: &Element<'_, '_>,
    alloc: Global,
    out: &mut K,
) -> Result<bool, AllocError>
    requires { IsSound (schema_shape (T.shape_at records.now) schema.now) }
    ensures { IfDone result (Writes K.holds (WritesNormal (schema_shape (T.shape_at records.now) schema.now) element.now) out.old out.new) }
{
    match value_of(element, DEPTH, alloc)? {
        Some(value) => match normal_value(records, schema, value, alloc) {
            Ok(normal) => write_value(&normal, out),
            Err(OciSpecError::Memory) => Err(AllocError),
            Err(_) => Ok(false),
        },
        None => Ok(false),
    }
}

/// Whether the normal form of the scalar is made of a value.
pub fn is_by_value(scalar: &Scalar) -> bool
    ensures { IsTrue result → IsSound (scalar_shape scalar.now) }
{
    match scalar {
        Scalar::Capabilities => true,
        Scalar::Keys => true,
        Scalar::Detail => true,
        Scalar::FreeValues => true,
        _ => false,
    }
}

/// Whether maps of the part are maps of strings.
pub fn is_string(part: &Part) -> bool
    ensures { IsTrue result → (f : ℕ → Shape) → IsSound (map (part_shape f part.now)) }
{
    match part {
        Part::Scalar(scalar) => match scalar {
            Scalar::String => true,
            _ => false,
        },
        Part::Record(_) => false,
    }
}
