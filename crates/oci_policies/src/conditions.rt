//! The conditions of a policy.
ghost use Rattle.std.specs.Prelude.{◌≡◌, [], true, codes};
ghost use Rattle.oci_rules.specs.Tables.{texts_of, check_of, condition_of as code_condition, origin_of as code_origin};
ghost use Rattle.oci_policies.specs.Conditions as conditions;
ghost use Rattle.oci_policies.specs.Values.{Reads};
ghost use Rattle.oci_policies.specs.Values as values;
ghost use Rattle.toml.specs.Data.{as_bool};
ghost use Rattle.toml.specs.View.{view, table_view};

use crate::error::{Fault, expected};
use crate::places::way;
use crate::values::{
    boolean, bounds, found, kept_under, sole_other, some_texts, some_texts_under, table_of, texts,
    unknown, yes,
};
use bumpalo::Bump;
use oci_rules::{Condition, Origin, Predicate};
use std::alloc::Global;
use toml::{Table, Value};

static CONDITION_NAMES: [&str; 3] = ["part", "document", "holds"];

static ITEM_NAMES: [&str; 4] = ["name", "values", "with", "without"];

fn condition_names() -> &'static [&'static str]
    ensures { texts_of result.now ≡ conditions.condition_names }
{
    &CONDITION_NAMES
}

fn item_names() -> &'static [&'static str]
    ensures { texts_of result.now ≡ conditions.item_names }
{
    &ITEM_NAMES
}

/// The strings under a name, or none.
fn texts_or_none<'a>(
    arena: &'a Bump,
    key: &'static str,
    table: &Table,
) -> Result<&'a [&'a str], Fault>
    ensures { Reads (λ ts. texts_of ts.now) result (values.under_or [] values.texts_in key.now (table_view table.now)) }
{
    match found(table, key) {
        Some(value) => texts(arena, key, value),
        None => Ok(&[]),
    }
}

#[tactic(auto, using(crate::proofs::Both::first_missing, crate::proofs::Both::second_missing, crate::proofs::Both::both_there, crate::proofs::Both::mapped_missing))]
fn item<'a>(arena: &'a Bump, table: &Table) -> Result<Predicate<'a>, Fault>
    ensures { Reads check_of result (conditions.item_of (table_view table.now)) }
{
    let name = kept_under(arena, "name", table)?;
    let values = some_texts_under(arena, "values", table)?;
    let with = texts_or_none(arena, "with", table)?;
    let without = texts_or_none(arena, "without", table)?;
    Ok(Predicate::ListsItem(name, values, with, without))
}

/// A check, by its name.
fn check<'a>(
    arena: &'a Bump,
    key: &str,
    value: &Value,
    alloc: Global,
) -> Result<Predicate<'a>, Fault>
    ensures { Reads check_of result (conditions.check_named key.now (view value.now)) }
{
    match key {
        "there" => {
            yes("there", value)?;
            Ok(Predicate::There)
        }
        "one_of" => Ok(Predicate::OneOf(some_texts(arena, "one_of", value)?)),
        "boolean" => Ok(Predicate::Boolean(boolean("boolean", value)?)),
        "within" => {
            let (low, high) = bounds("within", value, alloc)?;
            Ok(Predicate::Within(low, high))
        }
        "lists" => Ok(Predicate::Lists(some_texts(arena, "lists", value)?)),
        "lists_item" => item(arena, table_of(item_names(), "lists_item", value, alloc)?),
        _ => Err(unknown(key, alloc)),
    }
}

/// From where a condition looks, and the way from there.
fn origin<'a>(
    arena: &'a Bump,
    table: &Table,
    alloc: Global,
) -> Result<(Origin, &'a [&'a str]), Fault>
    ensures { Reads (λ o. (code_origin o.0, texts_of o.1.now)) result (conditions.origin_in (table_view table.now)) }
{
    match (found(table, "part"), found(table, "document")) {
        (Some(value), None) => Ok((Origin::Part, way(arena, "part", value, alloc)?)),
        (None, Some(value)) => Ok((Origin::Document, way(arena, "document", value, alloc)?)),
        _ => Err(expected("when", "`part` or `document`, and not both")),
    }
}

fn holds(table: &Table) -> Result<bool, Fault>
    ensures { Reads (λ b. b) result (values.under_or true as_bool (codes "holds") (table_view table.now)) }
{
    match found(table, "holds") {
        Some(value) => boolean("holds", value),
        None => Ok(true),
    }
}

fn checked<'a>(arena: &'a Bump, table: &Table, alloc: Global) -> Result<Predicate<'a>, Fault>
    ensures { Reads check_of result (conditions.checked_in (table_view table.now)) }
{
    let (key, value) = sole_other(condition_names(), table, alloc)?;
    check(arena, key, value, alloc)
}

/// A condition.
#[tactic(auto, using(crate::proofs::Both::first_missing, crate::proofs::Both::second_missing, crate::proofs::Both::both_there, crate::proofs::Both::mapped_missing))]
pub(crate) fn condition<'a>(
    arena: &'a Bump,
    value: &Value,
    alloc: Global,
) -> Result<Condition<'a>, Fault>
    ensures { Reads code_condition result (conditions.condition_in (view value.now)) }
{
    let Some(table) = value.as_table() else {
        return Err(expected("when", "an array of tables"));
    };
    let (origin, way) = origin(arena, table, alloc)?;
    let holds = holds(table)?;
    let check = checked(arena, table, alloc)?;
    Ok(Condition {
        origin,
        way,
        holds,
        check,
    })
}
