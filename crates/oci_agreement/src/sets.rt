//! Arrays with the same strings.
ghost use Rattle.std.specs.Prelude.{◌≡◌, ◌||◌, ℕ, List, option_map, string_bytes, IfOk, OnOk};
ghost use Rattle.std.specs.BTreeSet.{contains_text};
ghost use Rattle.serde_json.specs.Find.{as_str};
ghost use Rattle.serde_json.specs.View.{view, items_view};
ghost use Rattle.oci_rules.specs.Decided.{all_items, if_any};
ghost use Rattle.oci_rules.specs.Listed.{with_text, has_text};
ghost use Rattle.oci_agreement.specs.Listed as listed;

use serde_json::Value;
use std::alloc::{AllocError, Global};
use std::collections::BTreeSet;

/// Whether each string of one array is in the other, and each of the other in the one.
pub fn have_same_texts(
    one: &Vec<Value>,
    other: &Vec<Value>,
    alloc: Global,
) -> Result<bool, AllocError>
    ensures { IfOk result (λ b. b ≡ listed.have_same_texts (items_view one.now.items) (items_view other.now.items)) }
{
    let of_one = texts_of(one, alloc)?;
    let of_other = texts_of(other, alloc)?;
    Ok(are_known(&of_other, one) && are_known(&of_one, other))
}

/// The strings of the items.
fn texts_of(items: &Vec<Value>, alloc: Global) -> Result<BTreeSet<String>, AllocError>
    ensures { IfOk result (λ s. (q : List ℕ) → contains_text s q ≡ has_text (items_view items.now.items) q) }
{
    let mut texts = BTreeSet::new(alloc);
    put_texts(items, &mut texts, alloc)?;
    Ok(texts)
}

fn put_texts(
    items: &Vec<Value>,
    texts: &mut BTreeSet<String>,
    alloc: Global,
) -> Result<(), AllocError>
    ensures { OnOk result ((q : List ℕ) → contains_text texts.new q ≡ (contains_text texts.old q || has_text (items_view items.now.items) q)) }
{
    for item in items {
        put(text_of(item, alloc)?, texts)?;
    }
    Ok(())
}

/// Puts the string, if there is one, into the set.
fn put(text: Option<String>, set: &mut BTreeSet<String>) -> Result<(), AllocError>
    ensures { OnOk result ((q : List ℕ) → contains_text set.new q ≡ with_text (option_map string_bytes text) (contains_text set.old) q) }
{
    if let Some(text) = text {
        drop(set.insert(text)?);
    }
    Ok(())
}

fn text_of(item: &Value, alloc: Global) -> Result<Option<String>, AllocError>
    ensures { IfOk result (λ o. option_map string_bytes o ≡ as_str (view item.now)) }
{
    match item.as_str() {
        Some(text) => Ok(Some(String::from_str(alloc, text)?)),
        None => Ok(None),
    }
}

/// Whether each item that is a string is in the set.
fn are_known(known: &BTreeSet<String>, items: &Vec<Value>) -> bool
    ensures { result ≡ all_items (λ d. if_any (contains_text known.now) (as_str d)) (items_view items.now.items) }
{
    for item in items {
        if !is_known(known, item) {
            return false;
        }
    }
    true
}

fn is_known(known: &BTreeSet<String>, item: &Value) -> bool
    ensures { result ≡ if_any (contains_text known.now) (as_str (view item.now)) }
{
    match item.as_str() {
        Some(text) => known.contains(text),
        None => true,
    }
}
