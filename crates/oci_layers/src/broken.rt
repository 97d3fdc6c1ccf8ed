//! Which rules the entries of a layer break.
ghost use Rattle.std.specs.Prelude.{◌≡◌, ◌↔◌, ◌++◌, ◌∷◌, [], ℕ, List, Some, length, slice_get, take, IfOk, OnOk};
ghost use Rattle.std.specs.List.{Contains};
ghost use Rattle.tar.specs.Entries.{Member, member_of};
ghost use Rattle.oci_layers.specs.Decided.{AreFactsOf, HasSeen, every, findings_behind, members, told_each, unless};
ghost use Rattle.oci_layers.specs.Decided as decided;
ghost use Rattle.oci_layers.specs.Rules.{IsBroken, Keeps};
ghost use Rattle.oci_layers.specs.declared.broken.LayerFinding.{LayerFinding};
ghost use Rattle.oci_layers.specs.declared.rule.LayerRule.{LayerRule};

use crate::facts::{Facts, facts_of};
use crate::kept::keeps;
use crate::rule::{LAYER_RULES, LayerRule};
use crate::seen::Seen;
use std::alloc::{AllocError, Global};
use tar::{Entry, Place};

/// A rule that an entry of a layer breaks.
#[derive(Clone, Copy, Debug, PartialEq, Eq)]
pub struct LayerFinding {
    /// Its place among the entries.
    pub place: usize,
    pub rule: LayerRule,
}

/// The rules that the entries of a layer break, entry by entry, and in the order of `LAYER_RULES`. `tar_folder::read_index` reads the
/// entries of an archive within bounds. Takes as much memory again as the paths of the entries. Fails if out of memory.
pub fn broken_rules(alloc: Global, places: &[Place]) -> Result<Vec<LayerFinding>, AllocError>
    ensures all { IfOk result (λ v. v.items ≡ findings_behind [] (members places.now)) }
    ensures listed { IfOk result (λ v. (x : LayerFinding) → Contains v.items x ↔ IsBroken (members places.now) x) }
    ensures none { IfOk result (λ v. v.items ≡ [] → (i : ℕ) (m : Member) (r : LayerRule) → slice_get (members places.now) i ≡ Some m → Keeps r (take i (members places.now)) m) }
{
    let mut found = Vec::new(alloc);
    let mut seen = Seen::new(alloc);
    'each: for at in 0..places.len() {
        add_entry(alloc, at, &places[at].entry, &mut seen, &mut found)?;
    }
    Ok(found)
}

/// Adds the rules that the entry at a place breaks, and then the entry to those that were seen.
fn add_entry(
    alloc: Global,
    at: usize,
    entry: &Entry,
    seen: &mut Seen,
    found: &mut Vec<LayerFinding>,
) -> Result<(), AllocError>
    ensures { OnOk result ((before : List Member) → HasSeen seen.old before → at ≡ length before
        → HasSeen seen.new (before ++ member_of entry.now ∷ []) × (found.new.items ≡ found.old.items ++ told_each every before (member_of entry.now))) }
{
    let facts = facts_of(alloc, entry)?;
    add_each(&LAYER_RULES, at, entry, (&facts, &*seen), found)?;
    let Facts { path, tail, .. } = facts;
    seen.add(entry.kind, path, tail)
}

/// Adds those of the rules that the entry at a place breaks.
fn add_each(
    rules: &[LayerRule],
    at: usize,
    entry: &Entry,
    known: (&Facts<'_>, &Seen),
    found: &mut Vec<LayerFinding>,
) -> Result<(), AllocError>
    ensures { OnOk result ((before : List Member) → HasSeen known.entry.1.now before → AreFactsOf known.entry.0.now (member_of entry.now) → at ≡ length before
        → found.new.items ≡ found.old.items ++ told_each rules.now before (member_of entry.now)) }
{
    let (facts, seen) = known;
    for rule in rules {
        add_one(*rule, at, keeps(*rule, seen, entry, facts), found)?;
    }
    Ok(())
}

fn add_one(
    rule: LayerRule,
    place: usize,
    is_kept: bool,
    found: &mut Vec<LayerFinding>,
) -> Result<(), AllocError>
    ensures { OnOk result (found.new.items ≡ found.old.items ++ unless is_kept place rule) }
{
    if !is_kept {
        found.push(LayerFinding { place, rule })?;
    }
    Ok(())
}
