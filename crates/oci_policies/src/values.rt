//! Values of a TOML document.
ghost use Rattle.std.specs.Prelude.{◌≡◌, true, false, Some, None, option_map, IfErr, OnOk, MatchResult};
ghost use Rattle.oci_base.specs.Names.{is_listed};
ghost use Rattle.oci_rules.specs.Tables.{texts_of};
ghost use Rattle.oci_policies.specs.declared.error.Fault.TheVariants.{Memory, TooBig};
ghost use Rattle.oci_policies.specs.Values as values;
ghost use Rattle.oci_policies.specs.Values.{Reads};
ghost use Rattle.toml.specs.Data.{as_str, as_bool, as_integer, get_member};
ghost use Rattle.toml.specs.View.{view, items_view, table_view};

use crate::error::{Fault, Reason, empty, expected};
use bumpalo::Bump;
use bumpalo::collections::into_bump_slice;
use oci_patterns::{PatternError, validate};
use std::alloc::Global;
use toml::{Table, Value};

/// A string.
pub(crate) fn text<'t>(key: &'static str, value: &'t Value) -> Result<&'t str, Fault>
    ensures { Reads (λ t. t.now) result (as_str (view value.now)) }
{
    match value.as_str() {
        Some(text) => Ok(text),
        None => Err(expected(key, "a string")),
    }
}

/// A string that stays in the arena.
pub(crate) fn kept_text<'a>(
    arena: &'a Bump,
    key: &'static str,
    value: &Value,
) -> Result<&'a str, Fault>
    ensures { Reads (λ t. t.now) result (as_str (view value.now)) }
{
    Ok(arena.try_alloc_str(text(key, value)?)?)
}

/// A string that is not empty and stays in the arena.
pub(crate) fn kept_some_text<'a>(
    arena: &'a Bump,
    key: &'static str,
    value: &Value,
) -> Result<&'a str, Fault>
    ensures { Reads (λ t. t.now) result (values.some_text_in (view value.now)) }
{
    let text = text(key, value)?;
    if text.is_empty() {
        return Err(empty(key));
    }
    Ok(arena.try_alloc_str(text)?)
}

/// Checks that a string is a regular expression.
#[tactic(auto, using(crate::proofs::Expressions::expression_there, crate::proofs::Expressions::expression_missing))]
fn check_expression(key: &'static str, text: &str, alloc: Global) -> Result<(), Fault>
    ensures { MatchResult result (λ _. values.expression text.now ≡ Some text.now) (λ e. ¬ (e ≡ Memory) → ¬ (e ≡ TooBig) → values.expression text.now ≡ None) }
{
    match validate(text, alloc) {
        Ok(()) => Ok(()),
        Err(PatternError::Memory) => Err(Fault::Memory),
        Err(PatternError::TooBig) => Err(Fault::TooBig),
        Err(PatternError::Syntax { what, at }) => {
            Err(Fault::Refused(Reason::Pattern { key, what, at }))
        }
    }
}

/// A regular expression that is not empty and stays in the arena.
pub(crate) fn kept_expression<'a>(
    arena: &'a Bump,
    key: &'static str,
    value: &Value,
    alloc: Global,
) -> Result<&'a str, Fault>
    ensures { Reads (λ t. t.now) result (values.expression_in (view value.now)) }
{
    let text = text(key, value)?;
    if text.is_empty() {
        return Err(empty(key));
    }
    check_expression(key, text, alloc)?;
    Ok(arena.try_alloc_str(text)?)
}

/// The string under a name, which stays in the arena.
pub(crate) fn kept_under<'a>(
    arena: &'a Bump,
    key: &'static str,
    table: &Table,
) -> Result<&'a str, Fault>
    ensures { Reads (λ t. t.now) result (values.under as_str key.now (table_view table.now)) }
{
    kept_text(arena, key, under(table, key)?)
}

/// An array of strings.
pub(crate) fn texts<'a>(
    arena: &'a Bump,
    key: &'static str,
    value: &Value,
) -> Result<&'a [&'a str], Fault>
    ensures { Reads (λ ts. texts_of ts.now) result (values.texts_in (view value.now)) }
{
    match value.as_array() {
        Some(items) => each_text(arena, key, items),
        None => Err(expected(key, "an array of strings")),
    }
}

/// The array of strings under a name.
pub(crate) fn texts_under<'a>(
    arena: &'a Bump,
    key: &'static str,
    table: &Table,
) -> Result<&'a [&'a str], Fault>
    ensures { Reads (λ ts. texts_of ts.now) result (values.under values.texts_in key.now (table_view table.now)) }
{
    texts(arena, key, under(table, key)?)
}

#[tactic(auto, using(crate::proofs::Lists::behind_nothing, crate::proofs::Lists::behind_more))]
fn each_text<'a>(
    arena: &'a Bump,
    key: &'static str,
    items: &Vec<Value>,
) -> Result<&'a [&'a str], Fault>
    ensures { Reads (λ ts. texts_of ts.now) result (values.each as_str (items_view items.now.items)) }
{
    let mut found = Vec::new(arena);
    for item in items {
        found.push(kept_text(arena, key, item)?)?;
    }
    Ok(into_bump_slice(found))
}

/// An array of strings that has some.
pub(crate) fn some_texts<'a>(
    arena: &'a Bump,
    key: &'static str,
    value: &Value,
) -> Result<&'a [&'a str], Fault>
    ensures { Reads (λ ts. texts_of ts.now) result (values.some_texts_in (view value.now)) }
{
    each_text(arena, key, some_items(key, "an array of strings", value)?)
}

/// The array of strings under a name, which has some.
pub(crate) fn some_texts_under<'a>(
    arena: &'a Bump,
    key: &'static str,
    table: &Table,
) -> Result<&'a [&'a str], Fault>
    ensures { Reads (λ ts. texts_of ts.now) result (values.under values.some_texts_in key.now (table_view table.now)) }
{
    some_texts(arena, key, under(table, key)?)
}

/// The items of an array that has some; `wanted` says what the array is of.
#[tactic(auto, using(crate::proofs::Lists::some_there, crate::proofs::Lists::some_missing))]
pub(crate) fn some_items<'t>(
    key: &'static str,
    wanted: &'static str,
    value: &'t Value,
) -> Result<&'t Vec<Value>, Fault>
    ensures { Reads (λ v. items_view v.now.items) result (values.some_items_in (view value.now)) }
{
    match value.as_array() {
        Some(items) => {
            if items.is_empty() {
                Err(empty(key))
            } else {
                Ok(items)
            }
        }
        None => Err(expected(key, wanted)),
    }
}

/// Two strings, if there are two.
#[tactic(auto, using(crate::proofs::Lists::two_texts_missing))]
fn two_texts<'a>(texts: &[&'a str]) -> Option<(&'a str, &'a str)>
    ensures { option_map (λ p. (p.0.now, p.1.now)) result ≡ values.two (texts_of texts.now) }
{
    match texts {
        [first, second] => Some((*first, *second)),
        _ => None,
    }
}

/// An array of two strings.
pub(crate) fn pair<'a>(
    arena: &'a Bump,
    key: &'static str,
    value: &Value,
) -> Result<(&'a str, &'a str), Fault>
    ensures { Reads (λ p. (p.0.now, p.1.now)) result (values.pair_in (view value.now)) }
{
    match two_texts(texts(arena, key, value)?) {
        Some(pair) => Ok(pair),
        None => Err(expected(key, "an array of two strings")),
    }
}

/// A boolean.
pub(crate) fn boolean(key: &'static str, value: &Value) -> Result<bool, Fault>
    ensures { Reads (λ b. b) result (as_bool (view value.now)) }
{
    match value.as_bool() {
        Some(boolean) => Ok(boolean),
        None => Err(expected(key, "true or false")),
    }
}

/// `true`.
pub(crate) fn yes(key: &'static str, value: &Value) -> Result<bool, Fault>
    ensures { Reads (λ b. b) result (values.yes_in (view value.now)) }
{
    if boolean(key, value)? {
        Ok(true)
    } else {
        Err(expected(key, "true"))
    }
}

/// An integer that is not negative.
pub(crate) fn natural(key: &'static str, value: &Value) -> Result<u64, Fault>
    ensures { Reads (λ n. n) result (values.natural_in (view value.now)) }
{
    match value.as_integer() {
        Some(integer) => {
            if 0 <= integer {
                Ok(integer.unsigned_abs())
            } else {
                Err(expected(key, "an integer that is not negative"))
            }
        }
        None => Err(expected(key, "an integer")),
    }
}

/// An integer.
fn integer(key: &'static str, value: &Value) -> Result<i128, Fault>
    ensures { Reads (λ z. z) result (as_integer (view value.now)) }
{
    match value.as_integer() {
        Some(integer) => Ok(integer as i128),
        None => Err(expected(key, "integers")),
    }
}

#[tactic(auto, using(crate::proofs::Lists::behind_nothing, crate::proofs::Lists::behind_more))]
fn each_integer(key: &'static str, items: &Vec<Value>, alloc: Global) -> Result<Vec<i128>, Fault>
    ensures { Reads (λ v. v.items) result (values.each as_integer (items_view items.now.items)) }
{
    let mut found = Vec::new(alloc);
    for item in items {
        found.push(integer(key, item)?)?;
    }
    Ok(found)
}

fn integers(key: &'static str, value: &Value, alloc: Global) -> Result<Vec<i128>, Fault>
    ensures { Reads (λ v. v.items) result (values.list_in as_integer (view value.now)) }
{
    match value.as_array() {
        Some(items) => each_integer(key, items, alloc),
        None => Err(expected(key, "an array of two integers")),
    }
}

/// Two integers, if there are two.
#[tactic(auto, using(crate::proofs::Lists::two_missing))]
fn two_integers(integers: &[i128]) -> Option<(i128, i128)>
    ensures { result ≡ values.two integers.now }
{
    match integers {
        [first, second] => Some((*first, *second)),
        _ => None,
    }
}

/// An array of two integers.
pub(crate) fn bounds(key: &'static str, value: &Value, alloc: Global) -> Result<(i128, i128), Fault>
    ensures { Reads (λ b. b) result (values.bounds_in (view value.now)) }
{
    let integers = integers(key, value, alloc)?;
    match two_integers(integers.as_slice()) {
        Some(bounds) => Ok(bounds),
        None => Err(expected(key, "an array of two integers")),
    }
}

/// The value under a name that has to be there.
pub(crate) fn under<'t>(table: &'t Table, name: &'static str) -> Result<&'t Value, Fault>
    ensures { Reads (λ v. view v.now) result (get_member name.now (table_view table.now)) }
{
    match found(table, name) {
        Some(value) => Ok(value),
        None => Err(Fault::Refused(Reason::Missing(name))),
    }
}

/// The value under a name, if there is one.
pub(crate) fn found<'t>(table: &'t Table, name: &str) -> Option<&'t Value>
    ensures { option_map (λ v. view v.now) result ≡ get_member name.now (table_view table.now) }
{
    table.get(name)
}

/// Whether the name is among these.
fn is_among(names: &[&str], name: &str) -> bool
    ensures { result ≡ is_listed (texts_of names.now) name.now }
{
    for other in names {
        if name == *other {
            return true;
        }
    }
    false
}

/// The only member under another name than these.
pub(crate) fn sole_other<'t>(
    names: &[&str],
    table: &'t Table,
    alloc: Global,
) -> Result<(&'t str, &'t Value), Fault>
    ensures { Reads (λ m. (m.0.now, view m.1.now)) result (values.sole_other (texts_of names.now) (table_view table.now)) }
{
    let mut sole = None;
    for (name, value) in table.iter() {
        if !is_among(names, name.as_str()) {
            if sole.is_some() {
                return Err(second_test(name.as_str(), alloc));
            }
            sole = Some((name.as_str(), value));
        }
    }
    match sole {
        Some(member) => Ok(member),
        None => Err(Fault::Refused(Reason::NoTest)),
    }
}

/// That there is another member beside a test.
fn second_test(name: &str, alloc: Global) -> Fault {
    match String::from_str(alloc, name) {
        Ok(name) => Fault::Refused(Reason::SecondTest(name)),
        Err(_) => Fault::Memory,
    }
}

/// That there is no member of this name.
pub(crate) fn unknown(name: &str, alloc: Global) -> Fault {
    match String::from_str(alloc, name) {
        Ok(name) => Fault::Refused(Reason::Unknown(name)),
        Err(_) => Fault::Memory,
    }
}

/// A table with no names but these.
pub(crate) fn table_of<'t>(
    names: &[&str],
    key: &'static str,
    value: &'t Value,
    alloc: Global,
) -> Result<&'t Table, Fault>
    ensures { Reads (λ t. table_view t.now) result (values.table_of (texts_of names.now) (view value.now)) }
{
    match value.as_table() {
        Some(table) => {
            only(names, table, alloc)?;
            Ok(table)
        }
        None => Err(expected(key, "a table")),
    }
}

/// That the table has no names but these.
pub(crate) fn only(names: &[&str], table: &Table, alloc: Global) -> Result<(), Fault>
    ensures ok { OnOk result (values.has_only (texts_of names.now) (table_view table.now) ≡ true) }
    ensures refused { IfErr result (λ e. ¬ (e ≡ Memory) → values.has_only (texts_of names.now) (table_view table.now) ≡ false) }
{
    for (name, _) in table.iter() {
        if !is_among(names, name.as_str()) {
            return Err(unknown(name.as_str(), alloc));
        }
    }
    Ok(())
}
