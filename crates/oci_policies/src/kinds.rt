//! The tests of a policy, by their names.
ghost use Rattle.std.specs.Prelude.{◌≡◌};
ghost use Rattle.oci_rules.specs.Tables.{texts_of, ways_of, key_of as code_key, test_of};
ghost use Rattle.oci_policies.specs.Tests as tests;
ghost use Rattle.oci_policies.specs.Values.{Reads, each, some_in};
ghost use Rattle.oci_policies.specs.Places.{way_in};
ghost use Rattle.toml.specs.View.{view, items_view, table_view};

use crate::error::{Fault, expected};
use crate::grammars::grammar;
use crate::places::way;
use crate::values::{
    boolean, bounds, kept_expression, kept_some_text, kept_text, kept_under, natural, pair,
    some_items, some_texts, table_of, texts_under, under, unknown, yes,
};
use bumpalo::Bump;
use bumpalo::collections::into_bump_slice;
use oci_rules::{Key, Test};
use std::alloc::Global;
use toml::{Table, Value};

static RESERVED_NAMES: [&str; 2] = ["prefix", "names"];

static SUM_NAMES: [&str; 2] = ["members", "most"];

static ITEM_NAMES: [&str; 2] = ["name", "value"];

fn reserved_names() -> &'static [&'static str]
    ensures { texts_of result.now ≡ tests.reserved_names }
{
    &RESERVED_NAMES
}

fn sum_names() -> &'static [&'static str]
    ensures { texts_of result.now ≡ tests.sum_names }
{
    &SUM_NAMES
}

fn item_names() -> &'static [&'static str]
    ensures { texts_of result.now ≡ tests.item_names }
{
    &ITEM_NAMES
}

#[tactic(auto, using(crate::proofs::Both::first_missing, crate::proofs::Both::second_missing, crate::proofs::Both::both_there, crate::proofs::Both::mapped_missing))]
fn reserved<'a>(arena: &'a Bump, table: &Table) -> Result<Test<'a>, Fault>
    ensures { Reads test_of result (tests.reserved_of (table_view table.now)) }
{
    let prefix = kept_under(arena, "prefix", table)?;
    let names = texts_under(arena, "names", table)?;
    Ok(Test::Reserved(prefix, names))
}

#[tactic(auto, using(crate::proofs::Both::first_missing, crate::proofs::Both::second_missing, crate::proofs::Both::both_there, crate::proofs::Both::mapped_missing), unfolding(crate::specs::Tests::sum_of))]
fn sum<'a>(arena: &'a Bump, table: &Table) -> Result<Test<'a>, Fault>
    ensures { Reads test_of result (tests.sum_of (table_view table.now)) }
{
    let (first, second) = pair(arena, "members", under(table, "members")?)?;
    let most = natural("most", under(table, "most")?)?;
    Ok(Test::SumAtMost(first, second, most))
}

#[tactic(auto, using(crate::proofs::Both::first_missing, crate::proofs::Both::second_missing, crate::proofs::Both::both_there, crate::proofs::Both::mapped_missing))]
fn item<'a>(arena: &'a Bump, table: &Table) -> Result<Test<'a>, Fault>
    ensures { Reads test_of result (tests.item_of (table_view table.now)) }
{
    let name = kept_under(arena, "name", table)?;
    let value = kept_under(arena, "value", table)?;
    Ok(Test::ListsItem(name, value))
}

/// The ways to what tells items apart.
fn ways<'a>(arena: &'a Bump, value: &Value, alloc: Global) -> Result<&'a [&'a [&'a str]], Fault>
    ensures { Reads (λ ws. ways_of ws.now) result (some_in way_in (view value.now)) }
{
    let items = some_items(
        "distinct",
        "`itself`, `entry-name` or an array of places",
        value,
    )?;
    each_way(arena, items, alloc)
}

#[tactic(auto, using(crate::proofs::Lists::behind_nothing, crate::proofs::Lists::behind_more))]
fn each_way<'a>(
    arena: &'a Bump,
    items: &Vec<Value>,
    alloc: Global,
) -> Result<&'a [&'a [&'a str]], Fault>
    ensures { Reads (λ ws. ways_of ws.now) result (each way_in (items_view items.now.items)) }
{
    let mut found = Vec::new(arena);
    for item in items {
        found.push(way(arena, "distinct", item, alloc)?)?;
    }
    Ok(into_bump_slice(found))
}

/// What tells items apart, by its word.
fn key_named<'a>(word: &str) -> Result<Key<'a>, Fault>
    ensures { Reads code_key result (tests.key_named word.now) }
{
    match word {
        "itself" => Ok(Key::Itself),
        "entry-name" => Ok(Key::EntryName),
        _ => Err(expected("distinct", "`itself`, `entry-name` or an array of places")),
    }
}

fn key<'a>(arena: &'a Bump, value: &Value, alloc: Global) -> Result<Key<'a>, Fault>
    ensures { Reads code_key result (tests.key_in (view value.now)) }
{
    match value.as_str() {
        Some(word) => key_named(word),
        None => Ok(Key::Members(ways(arena, value, alloc)?)),
    }
}

/// A test of arrays, by its name.
#[tactic(auto, unfolding(crate::specs::Tests::array_test))]
fn array_test<'a>(
    arena: &'a Bump,
    key_name: &str,
    value: &Value,
    alloc: Global,
) -> Result<Test<'a>, Fault>
    ensures { Reads test_of result (tests.array_test key_name.now (view value.now)) }
{
    match key_name {
        "lists" => Ok(Test::Lists(some_texts(arena, "lists", value)?)),
        "lists_item" => item(arena, table_of(item_names(), "lists_item", value, alloc)?),
        "distinct" => Ok(Test::Distinct(key(arena, value, alloc)?)),
        _ => Err(unknown(key_name, alloc)),
    }
}

/// A test of objects or of arrays, by its name.
#[tactic(auto, unfolding(crate::specs::Tests::object_test))]
fn object_test<'a>(
    arena: &'a Bump,
    key_name: &str,
    value: &Value,
    alloc: Global,
) -> Result<Test<'a>, Fault>
    ensures { Reads test_of result (tests.object_test key_name.now (view value.now)) }
{
    match key_name {
        "there" => Ok(Test::There(kept_text(arena, "there", value)?)),
        "absent" => Ok(Test::Absent(kept_text(arena, "absent", value)?)),
        "either" => Ok(Test::Either(some_texts(arena, "either", value)?)),
        "at_most" => {
            let (first, second) = pair(arena, "at_most", value)?;
            Ok(Test::AtMost(first, second))
        }
        "sum_at_most" => sum(arena, table_of(sum_names(), "sum_at_most", value, alloc)?),
        "among" => {
            let (first, second) = pair(arena, "among", value)?;
            Ok(Test::Among(first, second))
        }
        _ => array_test(arena, key_name, value, alloc),
    }
}

/// A test of numbers, booleans and lengths, or of objects or arrays, by its name.
#[tactic(auto, unfolding(crate::specs::Tests::size_test))]
fn size_test<'a>(
    arena: &'a Bump,
    key_name: &str,
    value: &Value,
    alloc: Global,
) -> Result<Test<'a>, Fault>
    ensures { Reads test_of result (tests.size_test key_name.now (view value.now)) }
{
    match key_name {
        "within" => {
            let (low, high) = bounds("within", value, alloc)?;
            Ok(Test::Within(low, high))
        }
        "boolean" => Ok(Test::Boolean(boolean("boolean", value)?)),
        "not_empty" => {
            yes("not_empty", value)?;
            Ok(Test::NotEmpty)
        }
        "length_at_most" => Ok(Test::LengthAtMost(natural("length_at_most", value)? as usize)),
        _ => object_test(arena, key_name, value, alloc),
    }
}

/// A test, by its name.
#[tactic(auto, unfolding(crate::specs::Tests::test_named))]
pub(crate) fn test<'a>(
    arena: &'a Bump,
    key_name: &str,
    value: &Value,
    alloc: Global,
) -> Result<Test<'a>, Fault>
    ensures { Reads test_of result (tests.test_named key_name.now (view value.now)) }
{
    match key_name {
        "format" => Ok(Test::Text(grammar("format", value)?)),
        "one_of" => Ok(Test::OneOf(some_texts(arena, "one_of", value)?)),
        "none_of" => Ok(Test::NoneOf(some_texts(arena, "none_of", value)?)),
        "begins" => Ok(Test::Begins(kept_some_text(arena, "begins", value)?)),
        "matches" => Ok(Test::Matches(kept_expression(arena, "matches", value, alloc)?)),
        "reserved" => reserved(arena, table_of(reserved_names(), "reserved", value, alloc)?),
        _ => size_test(arena, key_name, value, alloc),
    }
}
