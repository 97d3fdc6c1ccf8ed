//! Whether a part passes a test, as far as its own items are not compared.
ghost use Rattle.std.specs.Prelude.{◌≡◌, option_map, IfOk};
ghost use Rattle.std.specs.List.{list_any};
ghost use Rattle.serde_json.specs.View.{view, items_view};
ghost use Rattle.oci_grammars.specs.DecidedLicenses.{has_listed};
ghost use Rattle.oci_grammars.specs.DecidedPrecedence.{are_in_order as in_order};
ghost use Rattle.oci_grammars.specs.Licenses.{words_in};
ghost use Rattle.oci_grammars.specs.Tests.{is_of};
ghost use Rattle.oci_patterns.specs.Expressions.{has_match as does_match};
ghost use Rattle.oci_rules.specs.Decided.{has as does_have, is_passed, begins_with as does_begin, is_at_most, are_versions as are_versions_in, is_sum_at_most, is_as_many, some_item, has_text_under as does_have_text};
ghost use Rattle.oci_rules.specs.Parts.{without};
ghost use Rattle.oci_rules.specs.Tables.{texts_of, test_of};

use crate::apart::are_apart;
use crate::conditions::{has_text, is_among, is_in};
use crate::parts::{
    count, extent, has, is_null_at, is_true_at, items_led, natural_at, present, text_at, whole,
    whole_at,
};
use crate::rule::Test;
use oci_grammars::{Grammar, are_in_order, has_listed_licenses};
use oci_patterns::is_match;
use serde_json::Value;
use std::alloc::{AllocError, Global};

/// Whether the part passes the test; where a test compares items, nothing is asked here.
pub fn passes(test: &Test, part: &Value, alloc: Global) -> Result<bool, AllocError>
    ensures { IfOk result (λ b. b ≡ is_passed (test_of test.now) (view part.now)) }
{
    let passed = match test {
        Test::Text(grammar) => match part.as_str() {
            Some(text) => accepts(*grammar, text),
            None => true,
        },
        Test::SpdxIdentifiers(licenses, exceptions) => match part.as_str() {
            Some(text) => are_listed(text, licenses, exceptions),
            None => true,
        },
        Test::OneOf(texts) => match part.as_str() {
            Some(text) => is_among(texts, text),
            None => true,
        },
        Test::NoneOf(texts) => match part.as_str() {
            Some(text) => !is_among(texts, text),
            None => true,
        },
        Test::Begins(front) => match part.as_str() {
            Some(text) => begins_with(front, text),
            None => true,
        },
        Test::Matches(pattern) => match part.as_str() {
            Some(text) => has_match(pattern, text, alloc)?,
            None => true,
        },
        Test::Reserved(front, texts) => match part.as_str() {
            Some(text) => !begins_with(front, text) || is_among(texts, text),
            None => true,
        },
        Test::Within(low, high) => match whole(part) {
            Some(number) => is_in(*low, *high, number),
            None => true,
        },
        Test::Boolean(boolean) => match part.as_bool() {
            Some(found) => *boolean == found,
            None => true,
        },
        Test::There(name) => !part.is_object() || has(part, name),
        Test::Absent(name) => !has(part, name),
        Test::NotNull(name) => !is_null_at(part, name),
        Test::BooleanMember(name) => match present(part, name) {
            Some(member) => member.is_boolean(),
            None => true,
        },
        Test::Either(names) => !part.is_object() || has_one(part, names),
        Test::NotEmpty => match extent(part) {
            Some(length) => length != 0,
            None => true,
        },
        Test::LengthAtMost(most) => match extent(part) {
            Some(length) => length <= *most,
            None => true,
        },
        Test::AtMost(first, second) => is_no_more(whole_at(part, first), whole_at(part, second)),
        Test::VersionsInOrder(first, second) => {
            are_versions(text_at(part, first), text_at(part, second))
        }
        Test::SumAtMost(first, second, most) => {
            is_sum_no_more(natural_at(part, first), natural_at(part, second), *most)
        }
        Test::AsMany(first, name, second) => {
            are_as_many(name, items_led(part, first), items_led(part, second))
        }
        Test::Lists(texts) => match part.as_array() {
            Some(items) => has_text(texts, items),
            None => true,
        },
        Test::ListsItem(name, text) => match part.as_array() {
            Some(items) => has_text_under(name, text, items),
            None => true,
        },
        Test::Apart(name) => match part.as_array() {
            Some(items) => are_apart(name, items),
            None => true,
        },
        Test::Distinct(_) | Test::Among(_, _) => true,
    };
    Ok(passed)
}

fn accepts(grammar: Grammar, text: &str) -> bool
    ensures { result ≡ is_of grammar text.now }
{
    grammar.accepts(text)
}

fn are_listed(text: &str, licenses: &str, exceptions: &str) -> bool
    ensures { result ≡ has_listed (words_in licenses.now) (words_in exceptions.now) text.now }
{
    has_listed_licenses(text, licenses, exceptions)
}

/// Whether the text has a match of the regular expression.
fn has_match(pattern: &str, text: &str, alloc: Global) -> Result<bool, AllocError>
    ensures { IfOk result (λ b. b ≡ does_match pattern.now text.now) }
{
    let found = is_match(pattern, text, alloc)?;
    Ok(found)
}

fn begins_with(front: &str, text: &str) -> bool
    ensures { result ≡ does_begin front.now text.now }
{
    text.as_bytes().starts_with(front.as_bytes())
}

/// Whether the value has one of the members.
fn has_one(value: &Value, names: &[&str]) -> bool
    ensures { result ≡ list_any (does_have (view value.now)) (texts_of names.now) }
{
    for name in names {
        if has(value, name) {
            return true;
        }
    }
    false
}

fn is_no_more(first: Option<i128>, second: Option<i128>) -> bool
    ensures { result ≡ is_at_most first second }
{
    match first {
        Some(first) => match second {
            Some(second) => first <= second,
            None => true,
        },
        None => true,
    }
}

/// Whether the second version is of no lower precedence than the first, where both are there.
fn are_versions(first: Option<&str>, second: Option<&str>) -> bool
    ensures { result ≡ are_versions_in (option_map (λ t. t.now) first.entry) (option_map (λ t. t.now) second.entry) }
{
    match first {
        Some(first) => match second {
            Some(second) => is_in_order(first, second),
            None => true,
        },
        None => true,
    }
}

fn is_in_order(first: &str, second: &str) -> bool
    ensures { result ≡ in_order first.now second.now }
{
    are_in_order(first, second)
}

fn is_sum_no_more(first: Option<u64>, second: Option<u64>, most: u64) -> bool
    ensures { result ≡ is_sum_at_most most first second }
{
    match first {
        Some(first) => match second {
            Some(second) => first as u128 + second as u128 <= most as u128,
            None => true,
        },
        None => true,
    }
}

/// Whether the first items without `true` under the name are as many as the second items, where both are there.
fn are_as_many(name: &str, first: Option<&Vec<Value>>, second: Option<&Vec<Value>>) -> bool
    ensures { result ≡ is_as_many name.now (option_map (λ v. items_view v.now.items) first.entry) (option_map (λ v. items_view v.now.items) second.entry) }
{
    match first {
        Some(first) => match second {
            Some(second) => count_without(name, first) == count(second),
            None => true,
        },
        None => true,
    }
}

/// How many of the items do not have `true` under the name.
fn count_without(name: &str, items: &Vec<Value>) -> usize
    ensures { result ≡ without name.now (items_view items.now.items) }
{
    let mut count = 0;
    for item in items {
        if !is_true_at(item, name) {
            count += 1;
        }
    }
    count
}

/// Whether one of the items has this string under the name.
fn has_text_under(name: &str, text: &str, items: &Vec<Value>) -> bool
    ensures { result ≡ some_item (does_have_text name.now text.now) (items_view items.now.items) }
{
    for item in items {
        if is_text_at(name, text, item) {
            return true;
        }
    }
    false
}

fn is_text_at(name: &str, text: &str, item: &Value) -> bool
    ensures { result ≡ does_have_text name.now text.now (view item.now) }
{
    match text_at(item, name) {
        Some(found) => text == found,
        None => false,
    }
}
