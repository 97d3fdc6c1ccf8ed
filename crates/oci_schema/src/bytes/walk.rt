//! The walk over a tape by a schema, which writes the normal form of what it finds, or keeps nothing where only validity is asked: the sink
//! is its parameter. It knows nothing of values, which the walks of `oci_schema` are over.
ghost use Rattle.std.specs.Prelude.{IsTrue};
ghost use Rattle.oci_model.specs.Shape.{cap_set, list, map};
ghost use Rattle.oci_text.specs.Capability.{capability_table};
ghost use Rattle.oci_schema.specs.Shapes.{part_shape, schema_shape};
ghost use Rattle.oci_schema.specs.Objects.{fields_in};
ghost use Rattle.oci_schema.specs.Walks.{IfDone, Writes, WritesNormal, WritesField, WritesFields, IsAfter};

use crate::bytes::absent::write_absent;
use crate::bytes::by_value::{is_by_value, is_string, write_by_value};
use crate::bytes::capabilities::{is_normal_set, write_strings};
use crate::bytes::fields::choose;
use crate::bytes::object::{Object, Slot};
use crate::bytes::scalar::{write_scalar, write_text};
use crate::{Member, Part, Records, Scalar, Schema};
use json::Element;
use oci_json_tape::{Sink, items, members, next_item, next_member};
use std::alloc::{AllocError, Global};
use std::cmp::Ordering;

/// Writes the normal form of what begins at the element; `false` if that was not found out, or if out of memory. What was written
/// then is of no use. Arrays, maps and records nest no deeper than `depth`.
#[cycle(writes)]
#[inline(always)]
pub fn write_value<T: Records, K: Sink>(
    records: &T,
    schema: &Schema,
    element: &Element<'_, '_>,
    depth: usize,
    alloc: Global,
    out: &mut K,
) -> Result<bool, AllocError>
    ensures { IfDone result (Writes K.holds (WritesNormal (schema_shape (T.shape_at records.now) schema.now) element.now) out.old out.new) }
{
    if depth == 0 {
        return Ok(false);
    }
    match schema {
        Schema::One(part) => write_part(records, part, element, depth - 1, alloc, out),
        Schema::List(part) => write_items(records, part, element, depth - 1, alloc, out),
        Schema::Map(part) => write_map(records, part, element, depth - 1, alloc, out),
    }
}

/// Writes a value alone.
#[cycle(writes)]
#[inline(always)]
fn write_part<T: Records, K: Sink>(
    records: &T,
    part: &Part,
    element: &Element<'_, '_>,
    depth: usize,
    alloc: Global,
    out: &mut K,
) -> Result<bool, AllocError>
    ensures { IfDone result (Writes K.holds (WritesNormal (part_shape (T.shape_at records.now) part.now) element.now) out.old out.new) }
{
    match part {
        Part::Scalar(Scalar::String) => write_text(element, out),
        Part::Scalar(Scalar::Capabilities) => write_capabilities(records, element, alloc, out),
        Part::Scalar(scalar) => {
            if is_by_value(scalar) {
                let schema = Schema::One(Part::Scalar(*scalar));
                return write_by_value(records, &schema, element, alloc, out);
            }
            write_scalar(scalar, element, out)
        }
        Part::Record(place) => write_record(records, *place, element, depth, alloc, out),
    }
}

/// Writes a set of capabilities, by way of a value if it is not in its normal form.
fn write_capabilities<T: Records, K: Sink>(
    records: &T,
    element: &Element<'_, '_>,
    alloc: Global,
    out: &mut K,
) -> Result<bool, AllocError>
    ensures { IfDone result (Writes K.holds (WritesNormal (cap_set capability_table) element.now) out.old out.new) }
{
    if is_normal_set(element) {
        return write_strings(element, out);
    }
    write_by_value(
        records,
        &Schema::One(Part::Scalar(Scalar::Capabilities)),
        element,
        alloc,
        out,
    )
}

/// Writes an array, item by item.
#[cycle(writes)]
fn write_items<T: Records, K: Sink>(
    records: &T,
    part: &Part,
    element: &Element<'_, '_>,
    depth: usize,
    alloc: Global,
    out: &mut K,
) -> Result<bool, AllocError>
    ensures { IfDone result (Writes K.holds (WritesNormal (list (part_shape (T.shape_at records.now) part.now)) element.now) out.old out.new) }
{
    let Some(mut rest) = items(element) else {
        return Ok(false);
    };
    out.begin_array()?;
    'each_item: while let Some(item) = next_item(&mut rest) {
        let done = write_part(records, part, &item, depth, alloc, out)?;
        if !done {
            return Ok(false);
        }
    }
    out.end_array()?;
    Ok(true)
}

/// Writes a map member by member, if its names are in byte order in the text, or else by way of a value, if it is one of strings.
#[cycle(writes)]
fn write_map<T: Records, K: Sink>(
    records: &T,
    part: &Part,
    element: &Element<'_, '_>,
    depth: usize,
    alloc: Global,
    out: &mut K,
) -> Result<bool, AllocError>
    ensures { IfDone result (Writes K.holds (WritesNormal (map (part_shape (T.shape_at records.now) part.now)) element.now) out.old out.new) }
{
    if is_string(part) && !is_in_order(element) {
        return write_by_value(records, &Schema::Map(*part), element, alloc, out);
    }
    let Some(mut rest) = members(element) else {
        return Ok(false);
    };
    out.begin_object()?;
    let mut last = None;
    'each_member: while let Some((name, member)) = next_member(&mut rest) {
        if !comes_after(name, last) {
            return Ok(false);
        }
        out.key(name)?;
        let done = write_part(records, part, &member, depth, alloc, out)?;
        if !done {
            return Ok(false);
        }
        last = Some(name);
    }
    out.end_object()?;
    Ok(true)
}

/// Whether the element is an object whose names are in byte order, each once.
fn is_in_order(element: &Element<'_, '_>) -> bool {
    let Some(mut rest) = members(element) else {
        return false;
    };
    let mut last = None;
    'each_member: while let Some((name, _)) = next_member(&mut rest) {
        if !comes_after(name, last) {
            return false;
        }
        last = Some(name);
    }
    true
}

/// Whether the name comes after the last one, by bytes.
fn comes_after(name: &str, last: Option<&str>) -> bool
    ensures { IsTrue result → IsAfter name.now last.entry }
{
    match last {
        Some(last) => match name.cmp(last) {
            Ordering::Less => false,
            Ordering::Equal => false,
            Ordering::Greater => true,
        },
        None => true,
    }
}

/// Writes a record.
#[cycle(writes)]
#[inline(never)]
fn write_record<T: Records, K: Sink>(
    records: &T,
    place: usize,
    element: &Element<'_, '_>,
    depth: usize,
    alloc: Global,
    out: &mut K,
) -> Result<bool, AllocError>
    ensures { IfDone result (Writes K.holds (WritesNormal (T.shape_at records.now place) element.now) out.old out.new) }
{
    let record = records.record(place);
    let Some(mut object) = Object::open(element, alloc)? else {
        return Ok(false);
    };
    if !choose(record.members, &mut object) {
        return Ok(false);
    }
    write_fields(records, object.slots.as_slice(), depth, alloc, out)
}

/// Writes an object of those of the members that are written.
#[cycle(writes)]
fn write_fields<T: Records, K: Sink>(
    records: &T,
    slots: &[Slot<'_, '_>],
    depth: usize,
    alloc: Global,
    out: &mut K,
) -> Result<bool, AllocError>
    ensures { IfDone result (Writes K.holds (WritesFields (T.shape_at records.now) (fields_in slots.now)) out.old out.new) }
{
    out.begin_object()?;
    for slot in slots {
        let Some(member) = slot.member else {
            continue;
        };
        out.key(member.name)?;
        let done = write_field(records, member, &slot.value, depth, alloc, out)?;
        if !done {
            return Ok(false);
        }
    }
    out.end_object()?;
    Ok(true)
}

/// Writes the value of a member, or what is written where it has none.
#[cycle(writes)]
#[inline(always)]
fn write_field<T: Records, K: Sink>(
    records: &T,
    member: &Member,
    value: &Option<Element<'_, '_>>,
    depth: usize,
    alloc: Global,
    out: &mut K,
) -> Result<bool, AllocError>
    ensures { IfDone result (Writes K.holds (WritesField (T.shape_at records.now) (record { member = member.entry; value = value.now })) out.old out.new) }
{
    match value {
        Some(value) => write_value(records, &member.schema, value, depth, alloc, out),
        None => write_absent(member, out),
    }
}
