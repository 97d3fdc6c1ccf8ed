//! The members of an object in a tape, in byte order of their names.
ghost use Rattle.std.specs.Prelude.{◌≡◌, ◌<◌, ◌↔◌, [], true, false, length, Some, None, Option, IfOk, IfSome, IsTrue, MatchOption};
ghost use Rattle.std.specs.List.{insert as inserted};
ghost use Rattle.serde_json.specs.Data.{Data};
ghost use Rattle.serde_json.specs.Find.{get};
ghost use Rattle.oci_model.specs.Means.{is_object as holds_members};
ghost use Rattle.oci_json_tape.specs.Elements.{BeginsWithData};
ghost use Rattle.oci_schema.specs.Objects.{IsObject, IsAt, IsFoundAt, IsPlaceOf, HasMark, WritesAt, fields_in, mark};

use crate::Member;
use json::Element;
use oci_json_tape::{members, next_member};
use std::alloc::{AllocError, Global};
use std::cmp::Ordering;

/// For how many members memory is allocated at first.
const FIRST_CAPACITY: usize = 16;

/// How many members an object has at most. No record of the specifications has more than 17.
const MAX_MEMBERS: usize = 64;

/// A member of an object, or one that is written though the object has none of its name.
#[derive(Drop)]
pub struct Slot<'t, 'a> {
    /// The name.
    pub name: &'a str,
    /// The value; `None` if what is written is that of an absent member.
    pub value: Option<Element<'t, 'a>>,
    /// The member of the schema, if it is written.
    pub member: Option<&'static Member>,
}

/// The members of an object in byte order of their names, each once, and the marks of the names: a name whose mark is not there is
/// none of them. Most members of a schema are absent, and are found to be so by their marks.
#[derive(Drop)]
pub struct Object<'t, 'a> {
    /// The members.
    pub slots: Vec<Slot<'t, 'a>>,
    marks: u64,
}

impl<'t, 'a> Object<'t, 'a> {
    /// The object that begins at the element, with nothing written; `None` if none does, if it has a name twice, or more than
    /// `MAX_MEMBERS` members. Fails if out of memory.
    pub fn open(
        element: &Element<'t, 'a>,
        alloc: Global,
    ) -> Result<Option<Object<'t, 'a>>, AllocError>
        ensures object { IfOk result (λ r. IfSome r (λ o. (d : Data) → BeginsWithData element.now d → (holds_members d ≡ true) × IsObject o d)) }
        ensures unwritten { IfOk result (λ r. IfSome r (λ o. fields_in o.slots.items ≡ [])) }
    {
        let Some(mut rest) = members(element) else {
            return Ok(None);
        };
        let mut slots = Vec::with_capacity(alloc, FIRST_CAPACITY)?;
        let mut marks = 0;
        'each_member: while let Some((name, value)) = next_member(&mut rest) {
            if slots.len() == MAX_MEMBERS {
                return Ok(None);
            }
            let Some(_) = put(&mut slots, name, Some(value)) else {
                return Ok(None);
            };
            marks |= 1u64 << mark_of(name);
        }
        Ok(Some(Object { slots, marks }))
    }

    /// Whether the object has no member of this name; `false` says nothing.
    #[inline]
    pub fn lacks(&self, name: &str) -> bool
        ensures { IsTrue result → (d : Data) → IsObject self.now d → get name.now d ≡ None }
    {
        !has_mark(self.marks, mark_of(name))
    }

    /// Whether the object has a member of this name. It is asked for aliases alone, which are rare.
    #[cold]
    #[inline(never)]
    pub fn has(&self, name: &str) -> bool
        ensures { (result ≡ false) → (d : Data) → IsObject self.now d → get name.now d ≡ None }
    {
        self.find(name).is_some()
    }

    /// Where the member of this name is.
    #[inline(always)]
    pub fn find(&self, name: &str) -> Option<usize>
        ensures { MatchOption result ((d : Data) → IsObject self.now d → get name.now d ≡ None) (λ at. IsFoundAt at name.now self.now) }
    {
        let mut at = 0;
        for slot in &self.slots {
            if slot.name == name {
                return Some(at);
            }
            at += 1;
        }
        None
    }

    /// The value of the member at this place; `None` if it is written already.
    pub fn unwritten(&self, at: usize) -> Option<&Element<'t, 'a>>
        requires { at < length self.now.slots.items }
        ensures { (s : _) → IsAt at s self.now.slots.items → IfSome result (λ value. (s.member ≡ None) × (s.value ≡ Some value.now)) }
    {
        let slot = &self.slots[at];
        match slot.member {
            Some(_) => None,
            None => slot.value.as_ref(),
        }
    }

    /// Writes the member at this place, with its value.
    pub fn write(&mut self, at: usize, member: &'static Member)
        requires { at < length self.old.slots.items }
        ensures { (s : _) → IsAt at s self.old.slots.items → WritesAt at s member.entry s.value self.old self.new }
    {
        self.slots[at].member = Some(member);
    }

    /// Writes the member at this place as an absent one.
    pub fn write_absent(&mut self, at: usize, member: &'static Member)
        requires { at < length self.old.slots.items }
        ensures { (s : _) → IsAt at s self.old.slots.items → WritesAt at s member.entry None self.old self.new }
    {
        self.slots[at].value = None;
        self.slots[at].member = Some(member);
    }
}

/// Puts a member in its place, which is not written yet, and returns the place; `None` if there is one of this name, or if out of
/// memory.
#[inline(always)]
pub fn put<'t, 'a>(
    slots: &mut Vec<Slot<'t, 'a>>,
    name: &'a str,
    value: Option<Element<'t, 'a>>,
) -> Option<usize>
    ensures { IfSome result (λ at. IsPlaceOf name.now slots.old.items at
        × (slots.new.items ≡ inserted slots.old.items at (record { name = name.entry; value = value.entry; member = None }))) }
{
    let at = place_of(slots.as_slice(), name)?;
    let slot = Slot {
        name,
        value,
        member: None,
    };
    if at == slots.len() {
        return match slots.push(slot) {
            Ok(()) => Some(at),
            Err(_) => None,
        };
    }
    match slots.insert(at, slot) {
        Ok(()) => Some(at),
        Err(_) => None,
    }
}

/// Where a member of this name goes; `None` if one is there.
#[inline(always)]
fn place_of(slots: &[Slot<'_, '_>], name: &str) -> Option<usize>
    ensures { IfSome result (IsPlaceOf name.now slots.now) }
{
    let mut at = 0;
    for slot in slots {
        match name.cmp(slot.name) {
            Ordering::Less => return Some(at),
            Ordering::Equal => return None,
            Ordering::Greater => at += 1,
        }
    }
    Some(at)
}

/// Whether the mark is one of the marks.
fn has_mark(marks: u64, mark: u32) -> bool
    requires { mark < 64 }
    ensures { (result ≡ true) ↔ HasMark marks mark }
{
    (marks >> mark) & 1 == 1
}

/// The mark of a name, by its length and its first byte.
fn mark_of(name: &str) -> u32
    ensures value { result ≡ mark name.now }
    ensures small { result < 64 }
{
    let bytes = name.as_bytes();
    let first = if bytes.is_empty() {
        0
    } else {
        bytes[0] as usize
    };
    ((bytes.len() % 64 + first) % 64) as u32
}
