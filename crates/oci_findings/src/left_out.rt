//! Which members of a document its canonical form lacks, found in one walk by the schema over a tape of its text.
ghost use Rattle.std.specs.Prelude.{OnOk};
ghost use Rattle.oci_findings.specs.LeftOut.{Adds};

use crate::repeated::repeated_if_any;
use json::{Element, Error, Scratch};
use oci_json_tape::{is_null, items, members, next_item, next_member, open};
use oci_schema::place::{Place, pointer};
use oci_schema::{Member, Part, Presence, Records, Scalar, Schema};
use oci_schemas::{Kind, OciRecords};
use serde_json::Value;
use std::alloc::{AllocError, Global};

/// How deep records nest at most.
const DEPTH: usize = 16;

/// What becomes of a member that the canonical form lacks, or has under another name.
#[derive(Clone, Copy)]
pub enum Change {
    /// It is left out.
    Dropped,
    /// It is written under this name.
    Renamed(&'static str),
    /// It replaces an earlier member of its name, which is left out.
    Repeated,
}

/// A member that the canonical form lacks, or has under another name.
#[derive(Drop)]
pub struct LeftOut {
    /// Where it is, as a JSON pointer (RFC 6901).
    pub pointer: String,
    /// What becomes of it.
    pub change: Change,
}

/// The members that the canonical form of a document of the kind, of which this is the root, lacks or has under another name, in the
/// order of its text. No object may have a name twice, and the document has to be valid: else not all are listed. Fails if out of
/// memory.
pub fn left_out(
    kind: Kind,
    root: &Element<'_, '_>,
    alloc: Global,
) -> Result<Vec<LeftOut>, AllocError> {
    let mut found = Vec::new(alloc);
    add_value(kind.schema(), root, &Place::Root, DEPTH, &mut found, alloc)?;
    Ok(found)
}

/// The same of the bytes of a document, in which a name may stand twice in an object: of the members of one name the last one counts,
/// and the others are listed behind all else. Nothing is listed of bytes that are not JSON. Fails if out of memory.
pub fn left_out_by_value(
    kind: Kind,
    bytes: &[u8],
    alloc: Global,
) -> Result<Vec<LeftOut>, AllocError> {
    let Ok(value) = Value::from_slice(alloc, bytes) else {
        return Ok(Vec::new(alloc));
    };
    let text = value.to_string(alloc)?;
    let mut found = left_out_of_text(kind, text.as_str(), alloc)?;
    for pointer in repeated_if_any(bytes, alloc)? {
        found.push(LeftOut {
            pointer,
            change: Change::Repeated,
        })?;
    }
    Ok(found)
}

/// The same of a text in which no object has a name twice.
fn left_out_of_text(kind: Kind, text: &str, alloc: Global) -> Result<Vec<LeftOut>, AllocError> {
    let mut scratch = Scratch::new(alloc);
    match open(alloc, text, &mut scratch) {
        Ok(Some(tape)) => left_out(kind, &tape.root(), alloc),
        Err(Error::OutOfMemory) => Err(AllocError),
        Ok(None) | Err(_) => Ok(Vec::new(alloc)),
    }
}

/// Adds what is left out of the value at the element, which is at this place.
#[cycle(left_out)]
fn add_value(
    schema: &Schema,
    element: &Element<'_, '_>,
    at: &Place<'_>,
    depth: usize,
    found: &mut Vec<LeftOut>,
    alloc: Global,
) -> Result<(), AllocError>
    ensures { OnOk result (Adds at.now found.old.items found.new.items) }
{
    match schema {
        Schema::One(part) => add_part(part, element, at, depth, found, alloc),
        Schema::List(part) => add_items(part, element, at, depth, found, alloc),
        Schema::Map(part) => add_entries(part, element, at, depth, found, alloc),
    }
}

#[cycle(left_out)]
fn add_part(
    part: &Part,
    element: &Element<'_, '_>,
    at: &Place<'_>,
    depth: usize,
    found: &mut Vec<LeftOut>,
    alloc: Global,
) -> Result<(), AllocError>
    ensures { OnOk result (Adds at.now found.old.items found.new.items) }
{
    match part {
        Part::Scalar(Scalar::Keys) => add_inner(element, at, found, alloc),
        Part::Scalar(_) => Ok(()),
        Part::Record(place) => {
            if depth == 0 {
                return Ok(());
            }
            let listed = OciRecords.record(*place).members;
            add_members(listed, element, at, depth - 1, found, alloc)
        }
    }
}

#[cycle(left_out)]
fn add_items(
    part: &Part,
    element: &Element<'_, '_>,
    at: &Place<'_>,
    depth: usize,
    found: &mut Vec<LeftOut>,
    alloc: Global,
) -> Result<(), AllocError>
    ensures { OnOk result (Adds at.now found.old.items found.new.items) }
{
    let Some(mut rest) = items(element) else {
        return Ok(());
    };
    let mut index = 0usize;
    'each_item: while let Some(item) = next_item(&mut rest) {
        let place = Place::Item(&*at, index);
        add_part(part, &item, &place, depth, found, alloc)?;
        index = index.saturating_add(1);
    }
    Ok(())
}

#[cycle(left_out)]
fn add_entries(
    part: &Part,
    element: &Element<'_, '_>,
    at: &Place<'_>,
    depth: usize,
    found: &mut Vec<LeftOut>,
    alloc: Global,
) -> Result<(), AllocError>
    ensures { OnOk result (Adds at.now found.old.items found.new.items) }
{
    let Some(mut rest) = members(element) else {
        return Ok(());
    };
    'each_entry: while let Some((name, entry)) = next_member(&mut rest) {
        let place = Place::Member(&*at, name);
        add_part(part, &entry, &place, depth, found, alloc)?;
    }
    Ok(())
}

/// The same of a record's object.
#[cycle(left_out)]
fn add_members(
    listed: &'static [Member],
    element: &Element<'_, '_>,
    at: &Place<'_>,
    depth: usize,
    found: &mut Vec<LeftOut>,
    alloc: Global,
) -> Result<(), AllocError>
    ensures { OnOk result (Adds at.now found.old.items found.new.items) }
{
    let Some(mut rest) = members(element) else {
        return Ok(());
    };
    'each_member: while let Some((name, value)) = next_member(&mut rest) {
        let place = Place::Member(&*at, name);
        add_member(member_of(listed, name), &value, &place, depth, found, alloc)?;
    }
    Ok(())
}

/// The same of a member with this value, if a record lists it: it may be omitted, or be there under its alias.
#[cycle(left_out)]
fn add_member(
    listed: Option<&'static Member>,
    value: &Element<'_, '_>,
    at: &Place<'_>,
    depth: usize,
    found: &mut Vec<LeftOut>,
    alloc: Global,
) -> Result<(), AllocError>
    ensures { OnOk result (Adds at.now found.old.items found.new.items) }
{
    let Some(member) = listed else {
        return push(at, Change::Dropped, found, alloc);
    };
    if is_omitted(member, value) {
        return push(at, Change::Dropped, found, alloc);
    }
    if is_alias(member, at) {
        push(at, Change::Renamed(member.name), found, alloc)?;
    }
    add_value(&member.schema, value, at, depth, found, alloc)
}

/// Adds a member.
fn push(
    at: &Place<'_>,
    change: Change,
    found: &mut Vec<LeftOut>,
    alloc: Global,
) -> Result<(), AllocError>
    ensures { OnOk result (Adds at.now found.old.items found.new.items) }
{
    let pointer = pointer(at, alloc)?;
    found.push(LeftOut { pointer, change })?;
    Ok(())
}

/// The member that has this name, or this alias.
fn member_of(listed: &'static [Member], name: &str) -> Option<&'static Member> {
    for member in listed {
        if member.name == name || member.alias == Some(name) {
            return Some(member);
        }
    }
    None
}

/// Whether a member stands at this place under its alias.
fn is_alias(member: &Member, at: &Place<'_>) -> bool {
    match at {
        Place::Member(_, name) => *name != member.name,
        _ => false,
    }
}

/// Whether a member with this value is not written.
fn is_omitted(member: &Member, value: &Element<'_, '_>) -> bool {
    match member.presence {
        Presence::Optional => is_null(value),
        Presence::UnlessEmpty => is_null(value) || is_empty_array(value),
        _ => false,
    }
}

fn is_empty_array(value: &Element<'_, '_>) -> bool {
    match items(value) {
        Some(mut rest) => next_item(&mut rest).is_none(),
        None => false,
    }
}

/// Adds the members of each member of an object of objects: only the names of those are written.
fn add_inner(
    element: &Element<'_, '_>,
    at: &Place<'_>,
    found: &mut Vec<LeftOut>,
    alloc: Global,
) -> Result<(), AllocError>
    ensures { OnOk result (Adds at.now found.old.items found.new.items) }
{
    let Some(mut rest) = members(element) else {
        return Ok(());
    };
    'each_key: while let Some((name, value)) = next_member(&mut rest) {
        add_all(&value, &Place::Member(&*at, name), found, alloc)?;
    }
    Ok(())
}

/// Adds all members of an object.
fn add_all(
    element: &Element<'_, '_>,
    at: &Place<'_>,
    found: &mut Vec<LeftOut>,
    alloc: Global,
) -> Result<(), AllocError>
    ensures { OnOk result (Adds at.now found.old.items found.new.items) }
{
    let Some(mut rest) = members(element) else {
        return Ok(());
    };
    'each_inner: while let Some((name, _)) = next_member(&mut rest) {
        push(&Place::Member(&*at, name), Change::Dropped, found, alloc)?;
    }
    Ok(())
}
