//! The walk over all that is reached: each claim is looked at once, in the order in which it was found.
ghost use Rattle.std.specs.Prelude.{◌≡◌, ◌+◌, ◌<◌, ◌≤◌, [], ◌∷◌, List, length, vec_len, false, IsTrue, IfOk, OnOk};
ghost use Rattle.std.specs.List.{Contains};
ghost use Rattle.oci_layout.specs.declared.claim.Claim.{Claim};
ghost use Rattle.oci_layout.specs.Walk.{IsUnderway, IsWalk, Extends, IsWithin, IsOnly};

use crate::claim::{Claim, Detail, Fault, Shown};
use std::alloc::{AllocError, Global};
use std::collections::BTreeMap;

/// Where a claim was found first.
#[derive(Clone, Copy, Debug, PartialEq, Eq)]
pub struct Mention {
    /// The place of the claim whose document claims it; none if it is one of the first.
    pub by: Option<usize>,
    /// Its index among what that document claims, or among the first.
    pub at: usize,
}

/// A walk: all claims that were reached so far, where each was found first, and for those that were looked at, from the first on,
/// what stands against it and what was seen beside that.
#[derive(Drop)]
pub struct Walk {
    pub claims: Vec<Claim>,
    pub mentions: Vec<Mention>,
    pub faults: Vec<Option<Fault>>,
    pub details: Vec<Detail>,
    // where a claim stands, by a text of it
    places: BTreeMap<String, usize>,
}

impl Walk {
    /// A walk that has reached the first claims, and has looked at none. Fails if out of memory.
    pub fn begin(alloc: Global, first: Vec<Claim>) -> Result<Walk, AllocError>
        ensures within { IfOk result (λ w. IsWithin first.items w.claims.items) }
        ensures only { IfOk result (λ w. IsWithin w.claims.items first.items) }
        ensures none { IfOk result (λ w. w.faults.items ≡ []) }
    {
        let mut walk = Walk {
            claims: Vec::new(alloc),
            mentions: Vec::new(alloc),
            faults: Vec::new(alloc),
            details: Vec::new(alloc),
            places: BTreeMap::new(alloc),
        };
        walk.add_all(alloc, None, first)?;
        Ok(walk)
    }

    /// Looks at the next claim, and adds what its document claims; whether there was one. Fails if out of memory.
    pub fn step<S: Shown>(
        &mut self,
        store: &S,
        alloc: Global,
        buffer: &mut [u8],
    ) -> Result<bool, AllocError>
        requires { 0 < length buffer.old }
        ensures underway { OnOk result ((first : List Claim) → IsUnderway (S.shows store.now) first self.old.claims.items self.old.faults.items
            → IsUnderway (S.shows store.now) first self.new.claims.items self.new.faults.items) }
        ensures one { IfOk result (λ more. IsTrue more → vec_len self.new.faults ≡ vec_len self.old.faults + 1) }
        ensures all { IfOk result (λ more. more ≡ false → length self.new.claims.items ≤ length self.new.faults.items) }
    {
        let place = self.faults.len();
        let Some(claim) = self.claims.get(place) else {
            return Ok(false);
        };
        let seen = store.look(alloc, claim, buffer)?;
        self.faults.push(seen.fault)?;
        self.details.push(seen.detail)?;
        self.add_all(alloc, Some(place), seen.claims)?;
        Ok(true)
    }

    /// Drops the bytes of the document that was looked at last, which are kept in its detail until then.
    pub fn drop_text(&mut self)
        ensures claims { self.new.claims ≡ self.old.claims }
        ensures faults { self.new.faults ≡ self.old.faults }
    {
        if let Some(detail) = self.details.last_mut() {
            detail.text = None;
        }
    }

    /// Adds the claims that were not reached yet.
    fn add_all(
        &mut self,
        alloc: Global,
        by: Option<usize>,
        more: Vec<Claim>,
    ) -> Result<(), AllocError>
        ensures kept { OnOk result (Extends self.new.claims.items self.old.claims.items) }
        ensures added { OnOk result (IsWithin more.items self.new.claims.items) }
        ensures only { OnOk result (IsOnly self.new.claims.items self.old.claims.items more.items) }
        ensures faults { self.new.faults ≡ self.old.faults }
    {
        let mut at: usize = 0;
        'more: for claim in more {
            self.add(alloc, Mention { by, at }, claim)?;
            at = at.saturating_add(1);
        }
        Ok(())
    }

    /// Adds a claim, if it was not reached yet.
    fn add(&mut self, alloc: Global, mention: Mention, claim: Claim) -> Result<(), AllocError>
        ensures kept { OnOk result (Extends self.new.claims.items self.old.claims.items) }
        ensures added { OnOk result (Contains self.new.claims.items claim) }
        ensures only { OnOk result (IsOnly self.new.claims.items self.old.claims.items (claim ∷ [])) }
        ensures faults { self.new.faults ≡ self.old.faults }
    {
        let key = key_of(alloc, &claim)?;
        if self.is_reached(key.as_str(), &claim) {
            return Ok(());
        }
        self.places.insert(key, self.claims.len())?;
        self.mentions.push(mention)?;
        self.claims.push(claim)?;
        Ok(())
    }

    /// Whether the claim, of which this is the text, was reached.
    fn is_reached(&self, key: &str, claim: &Claim) -> bool
        ensures { IsTrue result → Contains self.now.claims.items claim.now }
    {
        let Some(place) = self.places.get(key) else {
            return false;
        };
        match self.claims.get(*place) {
            Some(known) => *known == *claim,
            None => false,
        }
    }
}

/// A text of a claim, another for each other claim.
fn key_of(alloc: Global, claim: &Claim) -> Result<String, AllocError> {
    let digest = claim.digest.as_ref();
    let size = claim.size;
    let role = claim.role as u8;
    let kind = claim.kind as u8;
    let elsewhere = claim.elsewhere;
    format!(in alloc; "{digest} {size} {role} {kind} {elsewhere}")
}

/// Looks at all claims that are reached from the first ones, each once. Fails if out of memory.
pub fn walk_all<S: Shown>(
    store: &S,
    alloc: Global,
    first: Vec<Claim>,
    buffer: &mut [u8],
) -> Result<Walk, AllocError>
    requires { 0 < length buffer.old }
    ensures { IfOk result (λ w. IsWalk (S.shows store.now) first.items w.claims.items w.faults.items) }
{
    let mut walk = Walk::begin(alloc, first)?;
    'looks: while walk.step(store, alloc, buffer)? {}
    Ok(walk)
}
