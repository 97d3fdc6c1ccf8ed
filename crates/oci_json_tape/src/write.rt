//! Values as the tokens of their text.
ghost use Rattle.std.specs.Prelude.{◌≡◌, ◌++◌, IfOk, IsTrue, not};
ghost use Rattle.serde_json.specs.Data.{array, boolean as boolean_data, null as null_data, number as number_data, object, string as string_data};
ghost use Rattle.serde_json.specs.Find.{is_float};
ghost use Rattle.serde_json.specs.View.{view, number_view, items_view, members_view};
ghost use Rattle.serde_json.specs.Written.{has_float, items_have_float, members_have_float};
ghost use Rattle.oci_json.specs.Readable.{IsHeld, IsReadable, AreReadable, IsInOrder, HoldReadable};
ghost use Rattle.oci_json_tape.specs.Sinks.{Writes};
ghost use Rattle.oci_json_tape.specs.Tokens.{data_tokens};
ghost use Rattle.oci_json_tape.specs.Values.{IfDone};

use crate::sink::Sink;
use serde_json::{Map, Number, Value};
use std::alloc::AllocError;

/// Writes the value; `false` if it holds a number that is no 64-bit integer. What was written then is of no use, and so it is if
/// out of memory. It recurses as deep as the value nests.
#[cycle(writes)]
pub fn write_value<K: Sink>(value: &Value, out: &mut K) -> Result<bool, AllocError>
    ensures writes { IfDone result (Writes K.holds (λ a b. b ≡ a ++ data_tokens (view value.now)) out.old out.new) }
    ensures readable { IfDone result (IsReadable (view value.now)) }
    ensures whole { IfOk result (λ done. has_float (view value.now) ≡ not done) }
{
    match value {
        Value::Null => write_null(out),
        Value::Bool(truth) => write_boolean(*truth, out),
        Value::Number(number) => write_number(number, out),
        Value::String(text) => write_string(text.as_str(), out),
        Value::Array(items) => write_items(items, out),
        Value::Object(members) => write_members(members, out),
    }
}

#[cycle(writes)]
fn write_items<K: Sink>(items: &Vec<Value>, out: &mut K) -> Result<bool, AllocError>
    ensures writes { IfDone result (Writes K.holds (λ a b. b ≡ a ++ data_tokens (array (items_view items.now.items))) out.old out.new) }
    ensures readable { IfDone result (AreReadable (items_view items.now.items)) }
    ensures whole { IfOk result (λ done. items_have_float (items_view items.now.items) ≡ not done) }
{
    out.begin_array()?;
    for item in items {
        if !write_value(item, out)? {
            return Ok(false);
        }
    }
    out.end_array()?;
    Ok(true)
}

#[cycle(writes)]
fn write_members<K: Sink>(members: &Map<String, Value>, out: &mut K) -> Result<bool, AllocError>
    ensures writes { IfDone result (Writes K.holds (λ a b. b ≡ a ++ data_tokens (object (members_view members.now.entries))) out.old out.new) }
    ensures ordered { IfDone result (IsInOrder (members_view members.now.entries)) }
    ensures readable { IfDone result (HoldReadable (members_view members.now.entries)) }
    ensures whole { IfOk result (λ done. members_have_float (members_view members.now.entries) ≡ not done) }
{
    out.begin_object()?;
    for (name, member) in members.iter() {
        out.key(name.as_str())?;
        if !write_value(member, out)? {
            return Ok(false);
        }
    }
    out.end_object()?;
    Ok(true)
}

fn write_null<K: Sink>(out: &mut K) -> Result<bool, AllocError>
    ensures writes { IfDone result (Writes K.holds (λ a b. b ≡ a ++ data_tokens null_data) out.old out.new) }
    ensures done { IfOk result IsTrue }
{
    out.null()?;
    Ok(true)
}

fn write_boolean<K: Sink>(truth: bool, out: &mut K) -> Result<bool, AllocError>
    ensures writes { IfDone result (Writes K.holds (λ a b. b ≡ a ++ data_tokens (boolean_data truth)) out.old out.new) }
    ensures done { IfOk result IsTrue }
{
    out.boolean(truth)?;
    Ok(true)
}

fn write_string<K: Sink>(text: &str, out: &mut K) -> Result<bool, AllocError>
    ensures writes { IfDone result (Writes K.holds (λ a b. b ≡ a ++ data_tokens (string_data text.now)) out.old out.new) }
    ensures done { IfOk result IsTrue }
{
    out.string(text)?;
    Ok(true)
}

/// Writes a number, if it is a 64-bit integer.
fn write_number<K: Sink>(number: &Number, out: &mut K) -> Result<bool, AllocError>
    ensures writes { IfDone result (Writes K.holds (λ a b. b ≡ a ++ data_tokens (number_data (number_view number.now))) out.old out.new) }
    ensures held { IfDone result (IsHeld (number_view number.now)) }
    ensures whole { IfOk result (λ done. is_float (number_view number.now) ≡ not done) }
{
    if let Some(n) = number.as_u64() {
        out.unsigned(n)?;
        return Ok(true);
    }
    match number.as_i64() {
        Some(n) => {
            out.signed(n)?;
            Ok(true)
        }
        None => Ok(false),
    }
}
