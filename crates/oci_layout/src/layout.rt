//! Looking at claims in a store of contents.
ghost use Rattle.std.specs.Prelude.{◌≡◌, ◌↔◌, ◌<◌, ℕ, List, length, false, None, Some, IfOk, IfSome, IsTrue};
ghost use Rattle.oci_layout.specs.Kinds.{document_shape};
ghost use Rattle.oci_layout.specs.Looks.{Shows, IsShownOrFails, IsSmall, IsVerified, IsVerifiedOrFails, IsJudgedBy, fault_of};

use crate::claim::{Claim, Fault, Seen, Shown};
use crate::document::read_document;
use crate::kind::Kind;
use crate::store::{Opened, Store};
use oci_content::{Verdict, verify_bytes};
use std::alloc::{AllocError, Global};

/// A store whose contents are looked at.
pub struct Layout<'a, S> {
    pub store: &'a S,
    /// How large a document may be.
    pub limit: u64,
    /// Whether contents that are no documents are left unread: their sizes alone are looked at.
    pub quick: bool,
}

impl<'a, S> Drop for Layout<'a, S> {
    fn drop(self) {
        let Layout {
            store,
            limit,
            quick,
        } = self;
    }
}

impl<'a, S: Store> Shown for Layout<'a, S> {
    ghost shows = { λ l. Shows l.quick (S.steady l.store.now) l.limit (S.contents l.store.now) };

    fn look(&self, alloc: Global, claim: &Claim, buffer: &mut [u8]) -> Result<Seen, AllocError> {
        match self.store.open(alloc, &claim.digest)? {
            Opened::Missing => Ok(Seen::of_fault(alloc, Fault::Missing)),
            Opened::Unreadable(fault) => Ok(Seen::unreadable(alloc, fault)),
            Opened::Content(mut blob, size) => {
                self.look_into(alloc, claim, &mut blob, size, buffer)
            }
        }
    }
}

impl<'a, S: Store> Layout<'a, S> {
    /// What is found at a claim of what is left to read, whose length is known beforehand or not.
    fn look_into(
        &self,
        alloc: Global,
        claim: &Claim,
        blob: &mut S::Blob,
        size: Option<u64>,
        buffer: &mut [u8],
    ) -> Result<Seen, AllocError>
        requires { 0 < length buffer.old }
        ensures { IfOk result (λ s. (bytes : List ℕ) → S.Blob.remaining blob.old ≡ Some bytes → IfSome size (λ n. n ≡ length bytes) → self.now.quick ≡ false
            → IsShownOrFails (S.steady self.now.store.now) self.now.limit (Some bytes) claim.now s.fault s.claims.items) }
    {
        if !is_small(claim, self.limit) {
            return Ok(Seen::of_fault(alloc, Fault::TooLarge));
        }
        if let Some(seen) = look_at_size(alloc, claim, size) {
            return Ok(seen);
        }
        if self.quick && claim.kind.schema().is_none() {
            return Ok(Seen::nothing(alloc));
        }
        look_at(self.store, alloc, claim, blob, buffer)
    }
}

/// Whether a claim is of no document, or of one that is said to be no larger than the limit.
fn is_small(claim: &Claim, limit: u64) -> bool
    ensures { IsTrue result ↔ IsSmall limit claim.now }
{
    match claim.kind.schema() {
        Some(_) => claim.size <= limit,
        None => true,
    }
}

/// What is found by the size of a content alone, where it is not the one that is said.
fn look_at_size(alloc: Global, claim: &Claim, size: Option<u64>) -> Option<Seen>
    ensures { IfSome result (λ s. (bytes : List ℕ) → IfSome size (λ n. n ≡ length bytes) → IsVerified bytes claim.now s.fault s.claims.items) }
{
    let found = size?;
    if found < claim.size {
        Some(Seen::of_fault(alloc, Fault::Shorter(found)))
    } else if found > claim.size {
        Some(Seen::of_fault(alloc, Fault::Longer))
    } else {
        None
    }
}

/// What is found at a claim of what is left to read.
fn look_at<S: Store>(
    store: &S,
    alloc: Global,
    claim: &Claim,
    blob: &mut S::Blob,
    buffer: &mut [u8],
) -> Result<Seen, AllocError>
    requires { 0 < length buffer.old }
    ensures { IfOk result (λ s. IfSome (S.Blob.remaining blob.old) (λ bytes. IsVerifiedOrFails (S.steady store.now) bytes claim.now s.fault s.claims.items)) }
{
    match claim.kind.schema() {
        None => look_at_bytes(store, alloc, claim, blob, buffer),
        Some(_) => look_at_document(store, alloc, claim, blob, buffer),
    }
}

/// What is found at a claim of bytes that are no document.
fn look_at_bytes<S: Store>(
    store: &S,
    alloc: Global,
    claim: &Claim,
    blob: &mut S::Blob,
    buffer: &mut [u8],
) -> Result<Seen, AllocError>
    requires { 0 < length buffer.old }
    ensures { document_shape claim.now.kind ≡ None → IfOk result (λ s. IfSome (S.Blob.remaining blob.old) (λ bytes. IsVerifiedOrFails (S.steady store.now) bytes claim.now s.fault s.claims.items)) }
{
    match store.verify(blob, claim.digest.as_ref(), claim.size, buffer) {
        Ok(verdict) => judged(alloc, verdict, claim.kind, &[]),
        Err(fault) => Ok(Seen::unreadable(alloc, fault)),
    }
}

/// What is found at a claim of a document.
fn look_at_document<S: Store>(
    store: &S,
    alloc: Global,
    claim: &Claim,
    blob: &mut S::Blob,
    buffer: &mut [u8],
) -> Result<Seen, AllocError>
    requires { 0 < length buffer.old }
    ensures { IfOk result (λ s. IfSome (S.Blob.remaining blob.old) (λ bytes. IsVerifiedOrFails (S.steady store.now) bytes claim.now s.fault s.claims.items)) }
{
    match store.read(alloc, blob, claim.size, buffer)? {
        Ok(bytes) => {
            let verdict = verify_bytes(claim.digest.as_ref(), claim.size, bytes.as_slice());
            judged(alloc, verdict, claim.kind, bytes.as_slice())
        }
        Err(fault) => Ok(Seen::unreadable(alloc, fault)),
    }
}

/// What stands against a content by its verdict.
fn verdict_fault(verdict: Verdict) -> Option<Fault>
    ensures { result ≡ fault_of verdict }
{
    match verdict {
        Verdict::Same => None,
        Verdict::Shorter(found) => Some(Fault::Shorter(found)),
        Verdict::Longer => Some(Fault::Longer),
        Verdict::OtherDigest(found) => Some(Fault::OtherDigest(found)),
        Verdict::Unjudged => Some(Fault::Unjudged),
    }
}

/// What is found in bytes with this verdict.
#[tactic(auto, using(crate::proofs::Details::verdict_alone))]
fn judged(alloc: Global, verdict: Verdict, kind: Kind, bytes: &[u8]) -> Result<Seen, AllocError>
    ensures { IfOk result (λ s. IsJudgedBy (fault_of verdict) kind bytes.now s.fault s.claims.items) }
{
    match verdict_fault(verdict) {
        None => read_document(alloc, kind, bytes),
        Some(fault) => Ok(Seen::of_fault(alloc, fault)),
    }
}
