//! The kinds of documents that the rules of a policy are for.
ghost use Rattle.std.specs.Prelude.{◌≡◌, codes};
ghost use Rattle.oci_policies.specs.Policies as policies;
ghost use Rattle.oci_policies.specs.Values.{Reads, each, some_in, under_or};
ghost use Rattle.oci_schemas.specs.Kinds.{kind_of as kind_named};
ghost use Rattle.toml.specs.View.{view, items_view, table_view};

use crate::error::{Fault, expected};
use crate::values::{found, some_items, text};
use bumpalo::Bump;
use bumpalo::collections::into_bump_slice;
use oci_rules::Rule;
use oci_schemas::Kind;
use toml::{Table, Value};

static EVERY_KIND: [Kind; 14] = [
    Kind::Manifest,
    Kind::Index,
    Kind::Config,
    Kind::Artifact,
    Kind::Layout,
    Kind::Descriptor,
    Kind::Error,
    Kind::Repositories,
    Kind::Tags,
    Kind::Reference,
    Kind::Spec,
    Kind::State,
    Kind::ProcessState,
    Kind::Features,
];

/// The rules of a table of a policy, and the kinds of documents of which they are asked.
#[derive(Clone, Copy)]
pub struct Book<'a> {
    /// The kinds.
    pub kinds: &'a [Kind],
    /// The rules.
    pub rules: &'a [Rule<'a>],
}

/// All kinds of documents.
pub(crate) fn every_kind() -> &'static [Kind]
    ensures { result.now ≡ policies.every_kind }
{
    &EVERY_KIND
}

fn kind_of(word: &str) -> Result<Kind, Fault>
    ensures { Reads (λ k. k) result (kind_named word.now) }
{
    match Kind::from_word(word) {
        Some(kind) => Ok(kind),
        None => Err(expected("kind", "a kind of documents, as `manifest`")),
    }
}

fn kind(value: &Value) -> Result<Kind, Fault>
    ensures { Reads (λ k. k) result (policies.kind_in (view value.now)) }
{
    kind_of(text("kind", value)?)
}

fn listed_kinds<'a>(arena: &'a Bump, value: &Value) -> Result<&'a [Kind], Fault>
    ensures { Reads (λ ks. ks.now) result (some_in policies.kind_in (view value.now)) }
{
    let items = some_items("kind", "a string or an array of strings", value)?;
    each_kind(arena, items)
}

#[tactic(auto, using(crate::proofs::Lists::behind_nothing, crate::proofs::Lists::behind_more))]
fn each_kind<'a>(arena: &'a Bump, items: &Vec<Value>) -> Result<&'a [Kind], Fault>
    ensures { Reads (λ ks. ks.now) result (each policies.kind_in (items_view items.now.items)) }
{
    let mut found = Vec::new(arena);
    for item in items {
        found.push(kind(item)?)?;
    }
    Ok(into_bump_slice(found))
}

/// One kind, or those of an array.
fn kinds<'a>(arena: &'a Bump, value: &Value) -> Result<&'a [Kind], Fault>
    ensures { Reads (λ ks. ks.now) result (policies.kinds_in (view value.now)) }
{
    match value.as_str() {
        Some(word) => Ok(arena.try_alloc_slice_copy(&[kind_of(word)?])?),
        None => listed_kinds(arena, value),
    }
}

/// The kinds that a table names, or else these.
pub(crate) fn kinds_or<'a>(
    arena: &'a Bump,
    others: &'a [Kind],
    table: &Table,
) -> Result<&'a [Kind], Fault>
    ensures { Reads (λ ks. ks.now) result (under_or others.now policies.kinds_in (codes "kind") (table_view table.now)) }
{
    match found(table, "kind") {
        Some(value) => kinds(arena, value),
        None => Ok(others),
    }
}
