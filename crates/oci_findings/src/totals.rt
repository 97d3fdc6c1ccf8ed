//! How much of an image layout was verified.
ghost use Rattle.std.specs.Prelude.{◌≡◌, ◌++◌, ◌∷◌, [], IfOk, string_bytes};
ghost use Rattle.oci_base.specs.Escaped.{escaped};

use crate::render::number_member;
use json::Writer;
use oci_base::line_of;
use std::alloc::{AllocError, Global};

/// How many contents of an image layout are claimed, and how much of that is as it is claimed to be.
#[derive(Clone, Copy, Debug, PartialEq, Eq)]
pub struct Totals {
    /// How many contents are claimed.
    pub claims: u64,
    /// The sum of the sizes that are claimed.
    pub bytes: u64,
    /// How many contents were read, and are there, as large and with the digest that is claimed, and documents of their kind.
    pub verified: u64,
    /// The bytes of these.
    pub verified_bytes: u64,
    /// How many of these are documents.
    pub documents: u64,
}

impl Totals {
    /// Nothing.
    pub fn none() -> Totals {
        Totals {
            claims: 0,
            bytes: 0,
            verified: 0,
            verified_bytes: 0,
            documents: 0,
        }
    }

    /// Counts a content of so many bytes that is claimed.
    pub fn count(&mut self, bytes: u64) {
        self.claims = self.claims.saturating_add(1);
        self.bytes = self.bytes.saturating_add(bytes);
    }

    /// Counts a content of so many bytes that was verified, and whether it is a document.
    pub fn count_verified(&mut self, bytes: u64, is_document: bool) {
        self.verified = self.verified.saturating_add(1);
        self.verified_bytes = self.verified_bytes.saturating_add(bytes);
        if is_document {
            self.documents = self.documents.saturating_add(1);
        }
    }

    ghost use Rattle.oci_findings.specs.Totals.{totals_words};

    /// A line that says them. Fails if out of memory.
    pub fn line(&self, alloc: Global) -> Result<String, AllocError>
        ensures { IfOk result (λ t. string_bytes t ≡ escaped (totals_words self.now) ++ 10 ∷ []) }
    {
        let (claims, bytes) = (self.claims, self.bytes);
        let (verified, verified_bytes) = (self.verified, self.verified_bytes);
        let documents = self.documents;
        let text = format!(in alloc;
            "verified: {verified} of {claims} contents, {verified_bytes} of {bytes} bytes, {documents} documents"
        )?;
        line_of(text.as_str(), alloc)
    }

    /// Adds them as members of an object.
    pub(crate) fn add_members(&self, out: &mut Writer) -> Result<(), AllocError> {
        number_member(out, "claims", self.claims)?;
        number_member(out, "bytes", self.bytes)?;
        number_member(out, "verified", self.verified)?;
        number_member(out, "verifiedBytes", self.verified_bytes)?;
        number_member(out, "documents", self.documents)
    }
}
