//! Whether nothing stands against the claims of a walk.
ghost use Rattle.std.specs.Prelude.{◌≡◌, ◌↔◌, None, false, IsTrue};
ghost use Rattle.std.specs.List.{All};
ghost use Rattle.oci_layout.specs.Looks.{is_unread};
ghost use Rattle.oci_layout.specs.Sound.{IsFine, AreFine};

use crate::claim::{Claim, Fault};
use crate::walk::Walk;

/// Whether nothing stands against a claim, or its content is missing and may be.
pub fn is_fine(claim: &Claim, fault: Option<Fault>) -> bool
    ensures { IsTrue result ↔ IsFine claim.now fault }
{
    match fault {
        None => true,
        Some(Fault::Missing) => claim.may_be_missing(),
        Some(_) => false,
    }
}

/// The same, for each claim and what is found at its place.
pub fn are_fine(claims: &[Claim], faults: &[Option<Fault>]) -> bool
    ensures { IsTrue result ↔ AreFine claims.now faults.now }
{
    'each: for place in 0..claims.len().min(faults.len()) {
        if !is_fine(&claims[place], faults[place]) {
            return false;
        }
    }
    true
}

/// Whether nothing stands against the index of a layout, nor against the claims of a walk.
pub fn is_sound_walk(fault: Option<Fault>, walk: &Walk) -> bool
    ensures { IsTrue result ↔ ((fault ≡ None) × AreFine walk.now.claims.items walk.now.faults.items) }
{
    match fault {
        None => are_fine(walk.claims.as_slice(), walk.faults.as_slice()),
        Some(_) => false,
    }
}

/// Whether nothing was found at any of these claims, not even that a content is missing which may be.
pub fn are_found(faults: &[Option<Fault>]) -> bool
    ensures { IsTrue result ↔ All (λ f. f ≡ None) faults.now }
{
    'each: for place in 0..faults.len() {
        if faults[place].is_some() {
            return false;
        }
    }
    true
}

/// Whether the content of each claim is looked into, as far as its role asks.
pub fn are_read(claims: &[Claim]) -> bool
    ensures { IsTrue result ↔ All (λ c. is_unread c ≡ false) claims.now }
{
    claims.iter().all(|claim| !claim.is_unread())
}
