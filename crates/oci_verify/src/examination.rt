//! The documents of a layout: whether each passes `check`.
ghost use Rattle.std.specs.Prelude.{◌≡◌, ◌↔◌, ◌<◌, ℕ, None, length, option_map, IfOk, IsTrue};
ghost use Rattle.oci_schemas.specs.declared.kind.Kind.TheVariants.{Index};
ghost use Rattle.oci_verify.specs.Images.{IsFound, OverContents};
ghost use Rattle.oci_verify.specs.Passing.{ClaimPasses, FoundPassing, IsFineAt, Passes, PlacePasses, document_kind};

use crate::documents::Documents;
use crate::output::Output;
use crate::program::are_both;
use oci_base::Result;
use oci_findings::examine::examine;
use oci_findings::{Check, Claims, RuleBooks};
use oci_layout::{Claim, Fault, Kind as ContentKind, Store, Walk, blob_path};
use oci_schema::bytes::Workspace;
use oci_schemas::Kind;
use std::io::Write;

/// The documents that a walk reached, and what is asked of each.
pub struct Examination<'a, B, S> {
    /// The rules of the specifications.
    pub books: &'a B,
    /// What is asked of each document, but for its kind.
    pub asked: &'a Check<'a>,
    pub documents: Documents<'a, S>,
    pub walk: &'a Walk,
}

impl<'a, B, S> Drop for Examination<'a, B, S> {
    fn drop(self) {
        let Examination {
            books,
            asked,
            documents,
            walk,
        } = self;
    }
}

/// A document of a layout.
struct Reached<'d> {
    kind: Kind,
    path: &'d str,
    bytes: &'d [u8],
}

impl<'d> Drop for Reached<'d> {
    fn drop(self) {
        let Reached { kind, path, bytes } = self;
    }
}

impl<'a, B: RuleBooks, S: Store> Examination<'a, B, S> {
    /// Reports what `check` finds in the documents of a layout: in `index.json`, of which these are the bytes, and in each content that the
    /// walk reached as a document; and returns whether each passes. Documents with which something is wrong are passed over. Fails if nothing
    /// can be written, or if out of memory.
    pub fn all_pass<W: Write, E: Write>(
        &self,
        index: &[u8],
        fault: Option<Fault>,
        buffer: &mut [u8],
        output: &mut Output<'_, W, E>,
    ) -> Result<bool>
        requires { 0 < length buffer.old }
        ensures { IfOk result (λ pass. OverContents (S.steady self.now.documents.store.now) (S.contents self.now.documents.store.now)
            (λ contents. IsTrue pass ↔ FoundPassing (B.rules self.now.books.now) self.now.asked.now self.now.documents.limit contents index.now fault self.now.walk.now.claims.items self.now.walk.now.faults.items)) }
    {
        let mut workspace = Workspace::new(self.documents.alloc);
        let first = self.index_passes(index, fault, &mut workspace, output)?;
        let others = self.claims_pass(&mut workspace, buffer, output)?;
        Ok(are_both(first, others))
    }

    /// Whether `index.json` passes, unless something is wrong with it.
    fn index_passes<W: Write, E: Write>(
        &self,
        index: &[u8],
        fault: Option<Fault>,
        workspace: &mut Workspace,
        output: &mut Output<'_, W, E>,
    ) -> Result<bool>
        ensures { IfOk result (λ pass. IsTrue pass ↔ (fault ≡ None → Passes (B.rules self.now.books.now) self.now.asked.now Index index.now)) }
    {
        if fault.is_some() {
            return Ok(true);
        }
        let document = Reached {
            kind: Kind::Index,
            path: "index.json",
            bytes: index,
        };
        let claims = Claims::none(self.documents.alloc);
        self.document_passes(&document, claims, workspace, output)
    }

    /// Whether the documents that the walk reached pass.
    fn claims_pass<W: Write, E: Write>(
        &self,
        workspace: &mut Workspace,
        buffer: &mut [u8],
        output: &mut Output<'_, W, E>,
    ) -> Result<bool>
        requires { 0 < length buffer.old }
        ensures { IfOk result (λ pass. OverContents (S.steady self.now.documents.store.now) (S.contents self.now.documents.store.now)
            (λ contents. IsTrue pass ↔ ((place : ℕ) → PlacePasses (B.rules self.now.books.now) self.now.asked.now self.now.documents.limit contents self.now.walk.now.claims.items self.now.walk.now.faults.items place))) }
    {
        let mut pass = true;
        'each: for place in 0..self.walk.claims.len() {
            let here = self.place_passes(place, workspace, buffer, output)?;
            pass = are_both(pass, here);
        }
        Ok(pass)
    }

    /// Whether the document at a place of the walk passes, unless something is wrong with it.
    fn place_passes<W: Write, E: Write>(
        &self,
        place: usize,
        workspace: &mut Workspace,
        buffer: &mut [u8],
        output: &mut Output<'_, W, E>,
    ) -> Result<bool>
        requires { 0 < length buffer.old }
        ensures { IfOk result (λ pass. OverContents (S.steady self.now.documents.store.now) (S.contents self.now.documents.store.now)
            (λ contents. IsTrue pass ↔ PlacePasses (B.rules self.now.books.now) self.now.asked.now self.now.documents.limit contents self.now.walk.now.claims.items self.now.walk.now.faults.items place)) }
    {
        match claim_at(self.walk, place) {
            Some(claim) => self.claim_passes(claim, place, workspace, buffer, output),
            None => Ok(true),
        }
    }

    /// Whether the document of the claim at a place of the walk passes, if it is one, and is there.
    fn claim_passes<W: Write, E: Write>(
        &self,
        claim: &Claim,
        place: usize,
        workspace: &mut Workspace,
        buffer: &mut [u8],
        output: &mut Output<'_, W, E>,
    ) -> Result<bool>
        requires { 0 < length buffer.old }
        ensures { IfOk result (λ pass. OverContents (S.steady self.now.documents.store.now) (S.contents self.now.documents.store.now)
            (λ contents. IsTrue pass ↔ ClaimPasses (B.rules self.now.books.now) self.now.asked.now self.now.documents.limit contents claim.now)) }
    {
        let Some(kind) = kind_of(claim.kind) else {
            return Ok(true);
        };
        match self
            .documents
            .small_bytes_of(claim.digest.as_ref(), claim.size, buffer)?
        {
            Some(bytes) => {
                let path = blob_path(self.documents.alloc, &claim.digest)?;
                let document = Reached {
                    kind,
                    path: path.as_str(),
                    bytes: bytes.as_slice(),
                };
                let claims = Claims::of(self.walk, place, self.documents.alloc)?;
                self.document_passes(&document, claims, workspace, output)
            }
            None => Ok(true),
        }
    }

    /// Whether a document passes; what stands against it is written, with the descriptors by which it was reached.
    fn document_passes<W: Write, E: Write>(
        &self,
        document: &Reached<'_>,
        claims: Claims,
        workspace: &mut Workspace,
        output: &mut Output<'_, W, E>,
    ) -> Result<bool>
        ensures { IfOk result (λ pass. IsTrue pass ↔ Passes (B.rules self.now.books.now) self.now.asked.now document.now.kind document.now.bytes.now) }
    {
        let alloc = self.documents.alloc;
        let asked = Check {
            kind: Some(document.kind),
            ..*self.asked
        };
        let (path, bytes) = (document.path, document.bytes);
        let mut report = examine(self.books, &asked, path, bytes, workspace, alloc)?;
        let passes = report.errors.is_empty();
        report.claims = claims;
        output.add(path, &report)?;
        Ok(passes)
    }
}

/// The claim at a place of a walk, unless something is wrong with it.
fn claim_at(walk: &Walk, place: usize) -> Option<&Claim>
    ensures { IsFound (IsFineAt walk.now.claims.items walk.now.faults.items place) (option_map (λ c. c.now) result) }
{
    match (walk.claims.get(place), walk.faults.get(place)) {
        (Some(claim), Some(None)) => Some(claim),
        _ => None,
    }
}

/// The kind of documents as which a content is checked, if there is one.
fn kind_of(kind: ContentKind) -> Option<Kind>
    ensures { result ≡ document_kind kind }
{
    match kind {
        ContentKind::Index | ContentKind::DockerList => Some(Kind::Index),
        ContentKind::Manifest | ContentKind::DockerManifest => Some(Kind::Manifest),
        ContentKind::Artifact => Some(Kind::Artifact),
        ContentKind::Config | ContentKind::DockerConfig => Some(Kind::Config),
        ContentKind::Empty | ContentKind::Opaque => None,
    }
}
