//! What is written for absent members.
ghost use Rattle.std.specs.Prelude.{◌≡◌, ℕ, None, Some};
ghost use Rattle.serde_json.specs.Data.{Data, null, number};
ghost use Rattle.serde_json.specs.Find.{of_integer};
ghost use Rattle.oci_model.specs.Shape.{Shape};
ghost use Rattle.oci_model.specs.Value.{value as json_of};
ghost use Rattle.oci_schema.specs.Shapes.{scalar_shape, default_plain};
ghost use Rattle.oci_schema.specs.Fields.{written_for};
ghost use Rattle.oci_schema.specs.Walks.{IfDone, Writes, WritesTree};

use crate::bytes::scalar::{write_boolean, write_signed, write_string, write_unsigned};
use crate::{DefaultValue, Member, Part, Presence, Scalar, Schema};
use oci_json_tape::Sink;
use std::alloc::AllocError;

/// Writes what is written for the member where it is absent.
pub fn write_absent<K: Sink>(member: &Member, out: &mut K) -> Result<bool, AllocError>
    ensures { IfDone result (Writes K.holds (λ a b. (f : ℕ → Shape) (n : Data) → written_for f member.now None ≡ Some n → WritesTree n a b) out.old out.new) }
{
    match member.presence {
        Presence::Nullable => write_null(out),
        Presence::Defaulted(default) => match member.schema {
            Schema::One(part) => match part {
                Part::Scalar(scalar) => write_default(&scalar, &default, out),
                Part::Record(_) => Ok(false),
            },
            _ => Ok(false),
        },
        _ => Ok(false),
    }
}

fn write_null<K: Sink>(out: &mut K) -> Result<bool, AllocError>
    ensures { IfDone result (Writes K.holds (WritesTree null) out.old out.new) }
{
    out.null()?;
    Ok(true)
}

/// Writes the default value of a scalar, if it is a string, a boolean or an integer.
fn write_default<K: Sink>(
    scalar: &Scalar,
    default: &DefaultValue,
    out: &mut K,
) -> Result<bool, AllocError>
    ensures { IfDone result (Writes K.holds (WritesTree (json_of (scalar_shape scalar.now) (default_plain default.now))) out.old out.new) }
{
    match scalar {
        Scalar::String => match default {
            DefaultValue::String(text) => write_string(text, out),
            _ => Ok(false),
        },
        Scalar::Enum(_) => match default {
            DefaultValue::Variant(text) => write_string(text, out),
            _ => Ok(false),
        },
        Scalar::Boolean => match default {
            DefaultValue::Boolean(truth) => write_boolean(*truth, out),
            _ => Ok(false),
        },
        Scalar::Integer(_, _) => match default {
            DefaultValue::Integer(integer) => write_integer(*integer, out),
            _ => Ok(false),
        },
        _ => Ok(false),
    }
}

/// Writes an integer of 64 bits.
fn write_integer<K: Sink>(integer: i128, out: &mut K) -> Result<bool, AllocError>
    ensures { IfDone result (Writes K.holds (WritesTree (number (of_integer integer))) out.old out.new) }
{
    match u64::try_from(integer) {
        Ok(n) => write_unsigned(n, out),
        Err(_) => match i64::try_from(integer) {
            Ok(n) => write_signed(n, out),
            Err(_) => Ok(false),
        },
    }
}
