//! Scalars.
ghost use Rattle.std.specs.Prelude.{◌≡◌, Some, IsTrue};
ghost use Rattle.serde_json.specs.Data.{string, boolean as boolean_data, number as number_data, unsigned as unsigned_number};
ghost use Rattle.serde_json.specs.Find.{of_integer};
ghost use Rattle.oci_model.specs.Shape.{text as text_shape};
ghost use Rattle.oci_base.specs.Names.{is_listed};
ghost use Rattle.oci_text.specs.CpuScan.{is_cpu_text};
ghost use Rattle.oci_schema.specs.Shapes.{scalar_shape, names_of};
ghost use Rattle.oci_schema.specs.Allows.{is_digest_text, is_in_range};
ghost use Rattle.oci_json_tape.specs.Numbers.{num_of};
ghost use Rattle.oci_schema.specs.Walks.{IfDone, Writes, WritesTree, WritesNormal, IsTextOf, WritesWhole};

use crate::Scalar;
use json::Element;
use oci_json_tape::{Number, Sink, boolean, number, text};
use oci_text::{is_cpu_list, is_digest};
use std::alloc::AllocError;

/// Writes a scalar.
pub fn write_scalar<K: Sink>(
    scalar: &Scalar,
    element: &Element<'_, '_>,
    out: &mut K,
) -> Result<bool, AllocError>
    ensures { IfDone result (Writes K.holds (WritesNormal (scalar_shape scalar.now) element.now) out.old out.new) }
{
    match scalar {
        Scalar::Boolean => match boolean(element) {
            Some(truth) => write_boolean(truth, out),
            None => Ok(false),
        },
        Scalar::Integer(low, high) => match number(element) {
            Some(found) => write_number(low, high, found, out),
            None => Ok(false),
        },
        _ => match text(element) {
            Some(content) => {
                if !is_text_of(scalar, content) {
                    return Ok(false);
                }
                write_string(content, out)
            }
            None => Ok(false),
        },
    }
}

/// Writes an element that is any string.
#[inline(always)]
pub fn write_text<K: Sink>(element: &Element<'_, '_>, out: &mut K) -> Result<bool, AllocError>
    ensures { IfDone result (Writes K.holds (WritesNormal text_shape element.now) out.old out.new) }
{
    match text(element) {
        Some(content) => write_string(content, out),
        None => Ok(false),
    }
}

/// Writes a string.
pub fn write_string<K: Sink>(text: &str, out: &mut K) -> Result<bool, AllocError>
    ensures { IfDone result (Writes K.holds (WritesTree (string text.now)) out.old out.new) }
{
    out.string(text)?;
    Ok(true)
}

/// Writes a boolean.
pub fn write_boolean<K: Sink>(truth: bool, out: &mut K) -> Result<bool, AllocError>
    ensures { IfDone result (Writes K.holds (WritesTree (boolean_data truth)) out.old out.new) }
{
    out.boolean(truth)?;
    Ok(true)
}

/// Writes an unsigned integer.
pub fn write_unsigned<K: Sink>(integer: u64, out: &mut K) -> Result<bool, AllocError>
    ensures { IfDone result (Writes K.holds (WritesTree (number_data (unsigned_number integer))) out.old out.new) }
{
    out.unsigned(integer)?;
    Ok(true)
}

/// Writes a signed integer.
pub fn write_signed<K: Sink>(integer: i64, out: &mut K) -> Result<bool, AllocError>
    ensures { IfDone result (Writes K.holds (WritesTree (number_data (of_integer integer))) out.old out.new) }
{
    out.signed(integer)?;
    Ok(true)
}

/// Whether the string is one of the scalar's.
fn is_text_of(scalar: &Scalar, text: &str) -> bool
    ensures { IsTrue result → IsTextOf (scalar_shape scalar.now) text.now }
{
    match scalar {
        Scalar::String => true,
        Scalar::MediaType => true,
        Scalar::Os => true,
        Scalar::Arch => true,
        Scalar::Enum(table) => is_among(table, text),
        Scalar::Digest => is_digest_value(text),
        Scalar::CpuList => is_cpu_list_value(text),
        _ => false,
    }
}

/// Writes an integer within these bounds.
fn write_number<K: Sink>(
    low: &i128,
    high: &i128,
    number: Number,
    out: &mut K,
) -> Result<bool, AllocError>
    ensures { IfDone result (Writes K.holds (WritesWhole low.now high.now (num_of number)) out.old out.new) }
{
    match number {
        Number::Unsigned(n) => {
            if !is_within(low, high, n as i128) {
                return Ok(false);
            }
            write_unsigned(n, out)
        }
        Number::Negative(n) => {
            if !is_within(low, high, n as i128) {
                return Ok(false);
            }
            write_signed(n, out)
        }
        Number::Float(_) => Ok(false),
    }
}

fn is_within(low: &i128, high: &i128, whole: i128) -> bool
    ensures { result ≡ is_in_range low.now high.now (Some whole) }
{
    *low <= whole && whole <= *high
}

fn is_among(table: &[&'static str], text: &str) -> bool
    ensures { result ≡ is_listed (names_of table.now) text.now }
{
    for name in table {
        if text == *name {
            return true;
        }
    }
    false
}

fn is_digest_value(text: &str) -> bool
    ensures { result ≡ is_digest_text text.now }
{
    is_digest(text)
}

fn is_cpu_list_value(text: &str) -> bool
    ensures { result ≡ is_cpu_text text.now }
{
    is_cpu_list(text)
}
