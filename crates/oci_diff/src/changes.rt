//! The differences of two values.
ghost use Rattle.std.specs.Prelude.{◌≡◌, ◌≤◌, ◌<◌, ◌↔◌, [], length, map, true, false, Some, IfOk, OnOk};
ghost use Rattle.std.specs.List.{All, Contains};
ghost use Rattle.serde_json.specs.Data.{object, array, Members};
ghost use Rattle.serde_json.specs.Find.{get};
ghost use Rattle.serde_json.specs.View.{view, items_view, members_view};
ghost use Rattle.oci_schema.specs.Leads.{Have};
ghost use Rattle.oci_diff.specs.Aligned.{IsWithin};
ghost use Rattle.oci_diff.specs.Best.{IsStepOf};
ghost use Rattle.oci_diff.specs.Differs.{IsSo, HoldsAt, StandAt, AddsIf};
ghost use Rattle.oci_diff.specs.Same.{AreSame};
ghost use Rattle.oci_diff.specs.Tells.{told, said, have_parts, Tells, AddsTold, TellsMember, TellsMembers, TellsNewMember, TellsNewMembers, TellsStep};
ghost use Rattle.oci_schema.specs.Places.{under_name as place_under};

use crate::aligned::{Step, alignment};
use oci_model::alike::equal_trees;
use oci_schema::place::{under_index, under_name};
use serde_json::{Map, Value};
use std::alloc::{AllocError, Global};

/// How two values differ at a place.
#[derive(Clone, Copy)]
pub enum Change<'a> {
    /// There is only this value, in the second.
    Added(&'a Value),
    /// There is only this value, in the first.
    Removed(&'a Value),
    /// There is this value in the first, and that in the second.
    Changed(&'a Value, &'a Value),
}

/// A difference of two values.
#[derive(Drop)]
pub struct Difference<'a> {
    /// Where it is, as a JSON pointer (RFC 6901).
    pub pointer: String,
    /// What it is.
    pub change: Change<'a>,
}

/// Returns all that differs between two values: members and items that only one of them has, and parts that are not the same, each at
/// its place. Two objects are compared member by member and two arrays item by item, down to values that are not both objects nor both
/// arrays. Nothing is returned exactly if the values are the same. All numbers other than 64-bit integers count as one. Arrays of at
/// most 64 items are aligned by their longest common part, and others by index: an item that is in no pair is added or removed, and the
/// items of a pair that are not the same are at one index, and are compared. Fails if out of memory.
pub fn differences<'a>(
    before: &'a Value,
    after: &'a Value,
    alloc: Global,
) -> Result<Vec<Difference<'a>>, AllocError>
    ensures none { IfOk result (λ v. (v.items ≡ []) ↔ AreSame (view before.now) (view after.now)) }
    ensures each { IfOk result (λ v. All (IsSo (view before.now) (view after.now)) v.items) }
    ensures all { IfOk result (λ v. Tells (map told v.items) [] (view before.now) (view after.now)) }
{
    let mut found = Vec::new(alloc);
    add_differences(before, after, "", &mut found, alloc)?;
    Ok(found)
}

fn push<'a>(
    at: &str,
    change: Change<'a>,
    found: &mut Vec<Difference<'a>>,
    alloc: Global,
) -> Result<(), AllocError>
    ensures so { OnOk result (AddsIf (λ a b. HoldsAt a b at.now change.entry) found.old.items found.new.items) }
    ensures grows { OnOk result (length found.old.items < length found.new.items) }
    ensures told { OnOk result (AddsTold (λ list. Contains list (at.now, said change.entry)) found.old.items found.new.items) }
{
    let pointer = String::from_str(alloc, at)?;
    found.push(Difference { pointer, change })?;
    Ok(())
}

/// Adds the differences of the values at a place.
#[cycle(differences)]
fn add_differences<'a>(
    before: &'a Value,
    after: &'a Value,
    at: &str,
    found: &mut Vec<Difference<'a>>,
    alloc: Global,
) -> Result<(), AllocError>
    ensures so { OnOk result (AddsIf (StandAt (view before.now) (view after.now) at.now) found.old.items found.new.items) }
    ensures same { OnOk result (AreSame (view before.now) (view after.now) → found.new.items ≡ found.old.items) }
    ensures other { OnOk result (length found.new.items ≡ length found.old.items → AreSame (view before.now) (view after.now)) }
    ensures grows { OnOk result (length found.old.items ≤ length found.new.items) }
    ensures told { OnOk result (AddsTold (λ list. Tells list at.now (view before.now) (view after.now)) found.old.items found.new.items) }
{
    if equal_trees(before, after) {
        return Ok(());
    }
    let count = found.len();
    add_parts(before, after, at, found, alloc)?;
    if found.len() == count {
        push(at, Change::Changed(before, after), found, alloc)?;
    }
    Ok(())
}

/// Adds the differences of the parts of the values at a place, which are not the same, where both are objects or both are arrays.
#[cycle(differences)]
fn add_parts<'a>(
    before: &'a Value,
    after: &'a Value,
    at: &str,
    found: &mut Vec<Difference<'a>>,
    alloc: Global,
) -> Result<(), AllocError>
    requires { AreSame (view before.now) (view after.now) → ⊥ }
    ensures so { OnOk result (AddsIf (StandAt (view before.now) (view after.now) at.now) found.old.items found.new.items) }
    ensures grows { OnOk result (length found.old.items ≤ length found.new.items) }
    ensures told { OnOk result (AddsTold (λ list. have_parts (view before.now) (view after.now) ≡ true → Tells list at.now (view before.now) (view after.now)) found.old.items found.new.items) }
    ensures apart { OnOk result (have_parts (view before.now) (view after.now) ≡ false → found.new.items ≡ found.old.items) }
{
    match (before, after) {
        (Value::Object(members), Value::Object(others)) => {
            add_members(members, after, at, found, alloc)?;
            add_new_members(before, others, at, found, alloc)
        }
        (Value::Array(items), Value::Array(others)) => {
            add_items(items, others, at, found, alloc)
        }
        _ => Ok(()),
    }
}

/// Adds the differences of the members that an object has, and another value.
#[cycle(differences)]
fn add_members<'a>(
    members: &'a Map<String, Value>,
    after: &'a Value,
    at: &str,
    found: &mut Vec<Difference<'a>>,
    alloc: Global,
) -> Result<(), AllocError>
    ensures so { OnOk result (AddsIf (StandAt (object (members_view members.now.entries)) (view after.now) at.now) found.old.items found.new.items) }
    ensures grows { OnOk result (length found.old.items ≤ length found.new.items) }
    ensures told { OnOk result (AddsTold (λ list. TellsMembers list at.now (members_view members.now.entries) (view after.now)) found.old.items found.new.items) }
{
    for (name, member) in members.iter() {
        add_member(name.as_str(), member, after, at, found, alloc)?;
    }
    Ok(())
}

#[cycle(differences)]
fn add_member<'a>(
    name: &str,
    member: &'a Value,
    after: &'a Value,
    at: &str,
    found: &mut Vec<Difference<'a>>,
    alloc: Global,
) -> Result<(), AllocError>
    ensures so { OnOk result ((ms : Members) → Have ms name.now (view member.now) → AddsIf (StandAt (object ms) (view after.now) at.now) found.old.items found.new.items) }
    ensures grows { OnOk result (length found.old.items ≤ length found.new.items) }
    ensures told { OnOk result (AddsTold (λ list. TellsMember list (place_under at.now name.now) (view member.now) (get name.now (view after.now))) found.old.items found.new.items) }
{
    let place = under_name(alloc, at, name)?;
    match after.get(name) {
        Some(other) => add_differences(member, other, place.as_str(), found, alloc),
        None => push(place.as_str(), Change::Removed(member), found, alloc),
    }
}

/// Adds the members of an object that another value has not.
fn add_new_members<'a>(
    before: &'a Value,
    others: &'a Map<String, Value>,
    at: &str,
    found: &mut Vec<Difference<'a>>,
    alloc: Global,
) -> Result<(), AllocError>
    ensures so { OnOk result (AddsIf (StandAt (view before.now) (object (members_view others.now.entries)) at.now) found.old.items found.new.items) }
    ensures grows { OnOk result (length found.old.items ≤ length found.new.items) }
    ensures told { OnOk result (AddsTold (λ list. TellsNewMembers list at.now (view before.now) (members_view others.now.entries)) found.old.items found.new.items) }
{
    for (name, other) in others.iter() {
        add_new_member(before, name.as_str(), other, at, found, alloc)?;
    }
    Ok(())
}

fn add_new_member<'a>(
    before: &'a Value,
    name: &str,
    other: &'a Value,
    at: &str,
    found: &mut Vec<Difference<'a>>,
    alloc: Global,
) -> Result<(), AllocError>
    ensures so { OnOk result ((ms : Members) → Have ms name.now (view other.now) → AddsIf (StandAt (view before.now) (object ms) at.now) found.old.items found.new.items) }
    ensures grows { OnOk result (length found.old.items ≤ length found.new.items) }
    ensures told { OnOk result (AddsTold (λ list. TellsNewMember list at.now (view before.now) name.now (view other.now)) found.old.items found.new.items) }
{
    if before.get(name).is_some() {
        return Ok(());
    }
    let place = under_name(alloc, at, name)?;
    push(place.as_str(), Change::Added(other), found, alloc)
}

/// Adds the differences of two arrays that are not the same: an item that the alignment of both has alone, and what differs in a pair.
#[cycle(differences)]
fn add_items<'a>(
    items: &'a Vec<Value>,
    others: &'a Vec<Value>,
    at: &str,
    found: &mut Vec<Difference<'a>>,
    alloc: Global,
) -> Result<(), AllocError>
    requires { AreSame (array (items_view items.now.items)) (array (items_view others.now.items)) → ⊥ }
    ensures so { OnOk result (AddsIf (StandAt (array (items_view items.now.items)) (array (items_view others.now.items)) at.now) found.old.items found.new.items) }
    ensures grows { OnOk result (length found.old.items ≤ length found.new.items) }
    ensures told { OnOk result (AddsTold (λ list. Tells list at.now (array (items_view items.now.items)) (array (items_view others.now.items))) found.old.items found.new.items) }
{
    let steps = alignment(items, others, alloc)?;
    for step in &steps {
        add_step(*step, items, others, at, found, alloc)?;
    }
    Ok(())
}

/// Adds the differences of the items of a step.
#[cycle(differences)]
fn add_step<'a>(
    step: Step,
    items: &'a Vec<Value>,
    others: &'a Vec<Value>,
    at: &str,
    found: &mut Vec<Difference<'a>>,
    alloc: Global,
) -> Result<(), AllocError>
    requires differ { AreSame (array (items_view items.now.items)) (array (items_view others.now.items)) → ⊥ }
    requires within { IsWithin (length items.now.items) (length others.now.items) step }
    requires aligned { IsStepOf (items_view items.now.items) (items_view others.now.items) step }
    ensures so { OnOk result (AddsIf (StandAt (array (items_view items.now.items)) (array (items_view others.now.items)) at.now) found.old.items found.new.items) }
    ensures grows { OnOk result (length found.old.items ≤ length found.new.items) }
    ensures told { OnOk result (AddsTold (λ list. TellsStep list at.now (items_view items.now.items) (items_view others.now.items) step) found.old.items found.new.items) }
{
    match step {
        Step::Same => Ok(()),
        Step::Both(index) => {
            let place = under_index(alloc, at, index)?;
            add_differences(&items[index], &others[index], place.as_str(), found, alloc)
        }
        Step::First(index) => {
            let place = under_index(alloc, at, index)?;
            push(place.as_str(), Change::Removed(&items[index]), found, alloc)
        }
        Step::Second(index) => {
            let place = under_index(alloc, at, index)?;
            push(place.as_str(), Change::Added(&others[index]), found, alloc)
        }
    }
}
