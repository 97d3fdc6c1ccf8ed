//! The members of an object that are written.
ghost use Rattle.std.specs.Prelude.{◌≡◌, ◌<◌, [], ℕ, true, false, Some, None, IsTrue};
ghost use Rattle.serde_json.specs.Data.{Data};
ghost use Rattle.serde_json.specs.Find.{get};
ghost use Rattle.oci_model.specs.Means.{get_second};
ghost use Rattle.oci_model.specs.Shape.{Shape};
ghost use Rattle.oci_schema.specs.Shapes.{alias_of, members_in, presence_of};
ghost use Rattle.oci_schema.specs.Given.{may_be_null as null_counts, written};
ghost use Rattle.oci_schema.specs.Normalized.{known_accepted, known_normalized};
ghost use Rattle.oci_schema.specs.Fields.{written_for, accepted_for, AreFieldsOf};
ghost use Rattle.oci_schema.specs.Objects.{IsObject, IsAt, IsFoundAt, Adds, AddsField, fields_in};

use crate::bytes::object::{Object, put};
use crate::{Member, Presence};
use oci_json_tape::is_null;

/// Finds out which members are written for an object that has nothing written; `false` if that was not found out.
pub fn choose(members: &'static [Member], object: &mut Object<'_, '_>) -> bool
    ensures { IsTrue result → fields_in object.old.slots.items ≡ [] → (f : ℕ → Shape) (d : Data) → IsObject object.old d
        → AreFieldsOf f (members_in f members.now) d (fields_in object.new.slots.items) }
{
    for member in members {
        if !add_member(member, object) {
            return false;
        }
    }
    true
}

/// Adds what is written for the member; `false` if that was not found out. Most members of a schema are not there, and nothing is
/// written for them.
#[inline(always)]
fn add_member(member: &'static Member, object: &mut Object<'_, '_>) -> bool
    ensures { IsTrue result → (f : ℕ → Shape) (d : Data) → IsObject object.old d
        → Adds f d member.now.name.now (known_normalized f member.now d) (known_accepted f member.now d ≡ true) object.old object.new }
{
    if has_alias(member, object) {
        return false;
    }
    if object.lacks(member.name) {
        return add_absent(member, object);
    }
    match object.find(member.name) {
        Some(at) => add_found(member, at, object),
        None => add_absent(member, object),
    }
}

/// Whether the object has the member under its alias.
#[inline(always)]
fn has_alias(member: &Member, object: &Object<'_, '_>) -> bool
    ensures { (result ≡ false) → (d : Data) → IsObject object.now d → get_second (alias_of member.now.alias) d ≡ None }
{
    match member.alias {
        None => false,
        Some(alias) => {
            if object.lacks(alias) {
                return false;
            }
            object.has(alias)
        }
    }
}

/// Adds the member, which is at this place.
fn add_found(member: &'static Member, at: usize, object: &mut Object<'_, '_>) -> bool
    requires { IsFoundAt at member.now.name.now object.old }
    ensures { IsTrue result → (f : ℕ → Shape) (d : Data) → IsObject object.old d → get_second (alias_of member.now.alias) d ≡ None
        → Adds f d member.now.name.now (known_normalized f member.now d) (known_accepted f member.now d ≡ true) object.old object.new }
{
    let Some(value) = object.unwritten(at) else {
        return false;
    };
    if may_be_null(&member.presence) && is_null(value) {
        return add_null(member, at, object);
    }
    if is_unless_empty(&member.presence) {
        return false;
    }
    object.write(at, member);
    true
}

/// Whether null counts as absent.
fn may_be_null(presence: &Presence) -> bool
    ensures { result ≡ null_counts (presence_of presence.now) }
{
    match presence {
        Presence::Required => false,
        Presence::Optional => true,
        Presence::Nullable => true,
        Presence::UnlessEmpty => true,
        Presence::Defaulted(_) => false,
        Presence::DefaultedRecord(_) => false,
    }
}

/// Whether a member is omitted where it is empty.
fn is_unless_empty(presence: &Presence) -> bool
    ensures { (result ≡ false) → (d : Data) → written (presence_of presence.now) d ≡ Some d }
{
    match presence {
        Presence::Required => false,
        Presence::Optional => false,
        Presence::Nullable => false,
        Presence::UnlessEmpty => true,
        Presence::Defaulted(_) => false,
        Presence::DefaultedRecord(_) => false,
    }
}

/// Adds what is written for the member, which is at this place and null, where it is absent.
#[inline(never)]
fn add_null(member: &'static Member, at: usize, object: &mut Object<'_, '_>) -> bool
    requires { (s : _) × IsAt at s object.old.slots.items × (s.name.now ≡ member.now.name.now) × (s.member ≡ None) }
    ensures { IsTrue result → (f : ℕ → Shape) (d : Data) → IsObject object.old d
        → Adds f d member.now.name.now (written_for f member.now None) (accepted_for f member.now None ≡ true) object.old object.new }
{
    match member.presence {
        Presence::Optional => true,
        Presence::UnlessEmpty => true,
        Presence::Nullable => {
            object.write_absent(at, member);
            true
        }
        _ => false,
    }
}

/// Adds what is written for the member, which is absent.
#[inline(always)]
fn add_absent(member: &'static Member, object: &mut Object<'_, '_>) -> bool
    ensures { IsTrue result → (f : ℕ → Shape) (d : Data) → IsObject object.old d → get member.now.name.now d ≡ None
        → Adds f d member.now.name.now (written_for f member.now None) (accepted_for f member.now None ≡ true) object.old object.new }
{
    match member.presence {
        Presence::Optional => true,
        _ => add_default(member, object),
    }
}

/// The same of a member that is not optional.
#[inline(never)]
fn add_default(member: &'static Member, object: &mut Object<'_, '_>) -> bool
    ensures { IsTrue result → (f : ℕ → Shape) (d : Data) → IsObject object.old d → get member.now.name.now d ≡ None
        → Adds f d member.now.name.now (written_for f member.now None) (accepted_for f member.now None ≡ true) object.old object.new }
{
    match member.presence {
        Presence::UnlessEmpty => true,
        Presence::Nullable => add_without_value(member, object),
        Presence::Defaulted(_) => add_without_value(member, object),
        _ => false,
    }
}

/// Adds the member, which has no value; `false` if the name is there already, or if out of memory.
fn add_without_value(member: &'static Member, object: &mut Object<'_, '_>) -> bool
    ensures { IsTrue result → (f : ℕ → Shape) (d n : Data) → IsObject object.old d → get member.now.name.now d ≡ None
        → written_for f member.now None ≡ Some n
        → AddsField f d n (record { member = member.entry; value = None }) object.old object.new }
{
    let Some(at) = put(&mut object.slots, member.name, None) else {
        return false;
    };
    object.write(at, member);
    true
}
