//! Tests that compare the items of a part.
ghost use Rattle.std.specs.Prelude.{◌≡◌, ◌∷◌, ◌++◌, ◌||◌, [], ℕ, List, map, option_map, unwrap_or, string_bytes, IfOk, OnOk};
ghost use Rattle.std.specs.BTreeSet.{contains_text};
ghost use Rattle.serde_json.specs.Data.{no_items};
ghost use Rattle.serde_json.specs.Find.{as_str};
ghost use Rattle.serde_json.specs.View.{view, items_view};
ghost use Rattle.oci_schema.specs.Places as places;
ghost use Rattle.oci_rules.specs.Decided.{there_and, if_any};
ghost use Rattle.oci_rules.specs.Listed.{unless, no_text, with_text, has_text, twins, others, items_told, others_of};
ghost use Rattle.oci_rules.specs.Parts as parts;
ghost use Rattle.oci_rules.specs.Tables.{told, rule_of, test_of, key_of as key_for};

use crate::keys::key_of;
use crate::parts::items_at;
use crate::rule::{Broken, Key, Rule, Test};
use oci_schema::place::{Place, pointer};
use serde_json::Value;
use std::alloc::{AllocError, Global};
use std::collections::BTreeSet;

/// Adds that the rule is broken at this place.
pub fn push<'a>(
    rule: &'a Rule<'a>,
    at: &Place<'_>,
    found: &mut Vec<Broken<'a>>,
    alloc: Global,
) -> Result<(), AllocError>
    ensures { OnOk result (map told found.new.items ≡ map told found.old.items ++ (rule_of rule.now, places.pointer at.now) ∷ []) }
{
    let pointer = pointer(at, alloc)?;
    found.push(Broken { rule, pointer })?;
    Ok(())
}

/// Adds the items of the part that break the rule.
pub fn add_items_broken<'a>(
    rule: &'a Rule<'a>,
    part: &Value,
    at: &Place<'_>,
    found: &mut Vec<Broken<'a>>,
    alloc: Global,
) -> Result<(), AllocError>
    ensures { OnOk result (map told found.new.items ≡ map told found.old.items ++ items_told (test_of rule.now.test) (rule_of rule.now) (places.pointer at.now) (view part.now)) }
{
    match &rule.test {
        Test::Distinct(key) => match part.as_array() {
            Some(items) => add_twins(rule, key, items, at, found, alloc),
            None => Ok(()),
        },
        Test::Among(first, second) => add_among(rule, (first, second), part, at, found, alloc),
        _ => Ok(()),
    }
}

/// Adds the item at this index, unless the rule is kept.
fn add_unless<'a>(
    kept: bool,
    rule: &'a Rule<'a>,
    index: usize,
    at: &Place<'_>,
    found: &mut Vec<Broken<'a>>,
    alloc: Global,
) -> Result<(), AllocError>
    ensures { OnOk result (map told found.new.items ≡ map told found.old.items ++ unless kept (rule_of rule.now) (places.under_index (places.pointer at.now) index)) }
{
    if kept {
        return Ok(());
    }
    let place = Place::Item(&*at, index);
    push(rule, &place, found, alloc)
}

/// Whether the string, if there is one, is in the set.
fn has(set: &BTreeSet<String>, text: &Option<String>) -> bool
    ensures { result ≡ there_and (contains_text set.now) (option_map string_bytes text.now) }
{
    match text {
        Some(text) => set.contains(text.as_str()),
        None => false,
    }
}

/// Puts the string, if there is one, into the set.
fn put(text: Option<String>, set: &mut BTreeSet<String>) -> Result<(), AllocError>
    ensures { OnOk result ((q : List ℕ) → contains_text set.new q ≡ with_text (option_map string_bytes text) (contains_text set.old) q) }
{
    if let Some(text) = text {
        drop(set.insert(text)?);
    }
    Ok(())
}

/// Adds each item whose key an earlier item has.
fn add_twins<'a>(
    rule: &'a Rule<'a>,
    key: &Key,
    items: &Vec<Value>,
    at: &Place<'_>,
    found: &mut Vec<Broken<'a>>,
    alloc: Global,
) -> Result<(), AllocError>
    ensures { OnOk result (map told found.new.items ≡ map told found.old.items ++ twins (rule_of rule.now) (key_for key.now) (places.pointer at.now) 0 no_text (items_view items.now.items)) }
{
    let mut before = BTreeSet::new(alloc);
    for (index, item) in items.iter().enumerate() {
        let text = key_of(key, item, alloc)?;
        add_unless(!has(&before, &text), rule, index, at, found, alloc)?;
        put(text, &mut before)?;
    }
    Ok(())
}

/// Adds each string of the array under the first of the names that is not in the array under the second.
fn add_among<'a>(
    rule: &'a Rule<'a>,
    names: (&str, &str),
    part: &Value,
    at: &Place<'_>,
    found: &mut Vec<Broken<'a>>,
    alloc: Global,
) -> Result<(), AllocError>
    ensures { OnOk result (map told found.new.items ≡ map told found.old.items ++ others_of (rule_of rule.now) (has_text (unwrap_or (parts.items_at names.entry.1.now (view part.now)) no_items)) (places.under_name (places.pointer at.now) names.entry.0.now) (parts.items_at names.entry.0.now (view part.now))) }
{
    let (first, second) = names;
    let Some(items) = items_at(part, first) else {
        return Ok(());
    };
    let known = texts_of(items_at(part, second), alloc)?;
    let place = Place::Member(&*at, first);
    add_others(rule, &known, items, &place, found, alloc)
}

/// The strings of the items, if there are any.
fn texts_of(items: Option<&Vec<Value>>, alloc: Global) -> Result<BTreeSet<String>, AllocError>
    ensures { IfOk result (λ s. (q : List ℕ) → contains_text s q ≡ has_text (unwrap_or (option_map (λ v. items_view v.now.items) items.entry) no_items) q) }
{
    let mut texts = BTreeSet::new(alloc);
    if let Some(items) = items {
        put_texts(items, &mut texts, alloc)?;
    }
    Ok(texts)
}

fn put_texts(
    items: &Vec<Value>,
    texts: &mut BTreeSet<String>,
    alloc: Global,
) -> Result<(), AllocError>
    ensures { OnOk result ((q : List ℕ) → contains_text texts.new q ≡ (contains_text texts.old q || has_text (items_view items.now.items) q)) }
{
    for item in items {
        put(text_of(item, alloc)?, texts)?;
    }
    Ok(())
}

fn text_of(item: &Value, alloc: Global) -> Result<Option<String>, AllocError>
    ensures { IfOk result (λ o. option_map string_bytes o ≡ as_str (view item.now)) }
{
    match item.as_str() {
        Some(text) => Ok(Some(String::from_str(alloc, text)?)),
        None => Ok(None),
    }
}

/// Adds each string that is not in the set.
fn add_others<'a>(
    rule: &'a Rule<'a>,
    known: &BTreeSet<String>,
    items: &Vec<Value>,
    at: &Place<'_>,
    found: &mut Vec<Broken<'a>>,
    alloc: Global,
) -> Result<(), AllocError>
    ensures { OnOk result (map told found.new.items ≡ map told found.old.items ++ others (rule_of rule.now) (contains_text known.now) (places.pointer at.now) 0 (items_view items.now.items)) }
{
    for (index, item) in items.iter().enumerate() {
        add_unless(is_known(known, item), rule, index, at, found, alloc)?;
    }
    Ok(())
}

/// Whether the item, if it is a string, is in the set.
fn is_known(known: &BTreeSet<String>, item: &Value) -> bool
    ensures { result ≡ if_any (contains_text known.now) (as_str (view item.now)) }
{
    match item.as_str() {
        Some(text) => known.contains(text),
        None => true,
    }
}
