//! Whether conditions hold.
ghost use Rattle.std.specs.Prelude.{◌≡◌};
ghost use Rattle.std.specs.List.{list_all};
ghost use Rattle.serde_json.specs.View.{view, items_view};
ghost use Rattle.oci_base.specs.Names.{is_listed};
ghost use Rattle.oci_rules.specs.Decided.{is_set as is_set_in, is_unset, is_one_of as is_text_of, is_in as is_number_in, is_so as comes_so, is_item as is_such_item, some_item, holds as does_hold};
ghost use Rattle.oci_rules.specs.Tables.{texts_of, check_of, condition_of};

use crate::parts::{is_set, led, text_at, whole};
use crate::rule::{Condition, Origin, Predicate};
use serde_json::Value;

/// Whether the condition holds of a part of the document.
pub fn holds(document: &Value, condition: &Condition, part: &Value) -> bool
    ensures { result ≡ does_hold (view document.now) (condition_of condition.now) (view part.now) }
{
    let origin = match condition.origin {
        Origin::Part => part,
        Origin::Document => document,
    };
    match led(origin, condition.way) {
        Some(value) => condition.holds == is_so(&condition.check, value),
        None => !condition.holds,
    }
}

/// Whether the check is so of the value.
fn is_so(check: &Predicate, value: &Value) -> bool
    ensures { result ≡ comes_so (check_of check.now) (view value.now) }
{
    match check {
        Predicate::There => true,
        Predicate::OneOf(texts) => is_one_of(texts, value),
        Predicate::Boolean(boolean) => match value.as_bool() {
            Some(found) => *boolean == found,
            None => false,
        },
        Predicate::Within(low, high) => match whole(value) {
            Some(number) => is_in(*low, *high, number),
            None => false,
        },
        Predicate::Lists(texts) => match value.as_array() {
            Some(items) => has_text(texts, items),
            None => false,
        },
        Predicate::ListsItem(name, texts, with, without) => match value.as_array() {
            Some(items) => has_item(name, texts, with, without, items),
            None => false,
        },
    }
}

/// Whether the number is from the one bound to the other.
pub fn is_in(low: i128, high: i128, number: i128) -> bool
    ensures { result ≡ is_number_in low high number }
{
    low <= number && number <= high
}

/// Whether the string is among these.
pub fn is_among(texts: &[&str], text: &str) -> bool
    ensures { result ≡ is_listed (texts_of texts.now) text.now }
{
    for other in texts {
        if text == *other {
            return true;
        }
    }
    false
}

/// Whether the value is one of these strings.
fn is_one_of(texts: &[&str], value: &Value) -> bool
    ensures { result ≡ is_text_of (texts_of texts.now) (view value.now) }
{
    match value.as_str() {
        Some(text) => is_among(texts, text),
        None => false,
    }
}

/// Whether one of the items is one of these strings.
pub fn has_text(texts: &[&str], items: &Vec<Value>) -> bool
    ensures { result ≡ some_item (is_text_of (texts_of texts.now)) (items_view items.now.items) }
{
    for item in items {
        if is_one_of(texts, item) {
            return true;
        }
    }
    false
}

/// Whether one of the items has one of the strings under the name, all of the members `with` and none of the members `without`; an empty
/// string is none.
fn has_item(name: &str, texts: &[&str], with: &[&str], without: &[&str], items: &Vec<Value>) -> bool
    ensures { result ≡ some_item (is_such_item name.now (texts_of texts.now) (texts_of with.now) (texts_of without.now)) (items_view items.now.items) }
{
    for item in items {
        if is_item(name, texts, with, without, item) {
            return true;
        }
    }
    false
}

fn is_item(name: &str, texts: &[&str], with: &[&str], without: &[&str], item: &Value) -> bool
    ensures { result ≡ is_such_item name.now (texts_of texts.now) (texts_of with.now) (texts_of without.now) (view item.now) }
{
    match text_at(item, name) {
        Some(text) => is_among(texts, text) && has_all(item, with) && lacks_all(item, without),
        None => false,
    }
}

fn has_all(value: &Value, names: &[&str]) -> bool
    ensures { result ≡ list_all (is_set_in (view value.now)) (texts_of names.now) }
{
    for name in names {
        if !is_set(value, name) {
            return false;
        }
    }
    true
}

fn lacks_all(value: &Value, names: &[&str]) -> bool
    ensures { result ≡ list_all (is_unset (view value.now)) (texts_of names.now) }
{
    for name in names {
        if is_set(value, name) {
            return false;
        }
    }
    true
}
