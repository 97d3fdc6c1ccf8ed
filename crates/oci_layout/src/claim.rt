//! What a document claims of a content, and what is found there.
ghost use Rattle.std.specs.Prelude.{◌≡◌, [], true, IfOk};
ghost use Rattle.oci_layout.specs.Details.{goes_with};

use crate::kind::Kind;
use crate::member::OtherMember;
use oci_content::{Checksum, Embedded};
use oci_schema::Violation;
use oci_text::Digest;
use std::alloc::{AllocError, Global};
use std::io;

/// What a content is to the document that claims it.
#[derive(Clone, Copy, Debug, PartialEq, Eq)]
pub enum Role {
    /// One of `manifests`.
    Manifest,
    /// The configuration.
    Config,
    /// One of `layers`.
    Layer,
    /// One of `blobs`, of an artifact manifest.
    Blob,
    /// The manifest that this one refers to, which may be missing (image specification, "Image Manifest", `subject`).
    Subject,
}

/// What a descriptor says of its content, as far as it can be judged.
#[derive(Debug, Drop, PartialEq, Eq)]
pub struct Claim {
    pub role: Role,
    pub kind: Kind,
    /// Whether it is a nondistributable layer with `urls`, which may be missing.
    pub elsewhere: bool,
    pub digest: Digest,
    pub size: u64,
}

impl Claim {
    ghost use Rattle.std.specs.Prelude.{◌≡◌};
    ghost use Rattle.oci_layout.specs.Looks.{may_miss, is_unread};

    /// Whether its content may be missing: a subject's, and that of a nondistributable layer that has URLs.
    pub fn may_be_missing(&self) -> bool
        ensures { result ≡ may_miss self.now }
    {
        match self.role {
            Role::Subject => true,
            _ => self.elsewhere,
        }
    }

    /// Whether it is one of `manifests`, a configuration or a subject whose media type is of no kind that is known: its content is
    /// not looked into.
    pub fn is_unread(&self) -> bool
        ensures { result ≡ is_unread self.now }
    {
        match self.kind {
            Kind::Opaque => match self.role {
                Role::Manifest | Role::Config | Role::Subject => true,
                Role::Layer | Role::Blob => false,
            },
            _ => false,
        }
    }
}

/// What stands against a claim.
#[derive(Clone, Copy, Debug, PartialEq, Eq)]
pub enum Fault {
    /// Nothing is there.
    Missing,
    /// What is there cannot be read, or is no file.
    Unreadable,
    /// It is said to be larger than a document may be, and is not read.
    TooLarge,
    /// It ends after so many bytes, which are fewer than is said.
    Shorter(u64),
    /// It has more bytes than is said.
    Longer,
    /// It has the size, and this digest in place of the one that is said.
    OtherDigest(Checksum),
    /// It has the size, and the digest is by an algorithm that is not known.
    Unjudged,
    /// It has the size and the digest, and is no JSON text.
    NoJson,
    /// It has the size and the digest, and its schema does not allow it.
    NoDocument,
    /// It is a document whose `mediaType` is another than its descriptor says.
    OtherType,
    /// It is a document that clients may take for one of another kind, by this member.
    Ambiguous(OtherMember),
    /// It is a document of which a descriptor holds itself what is not its content.
    Embedded,
}

/// What is found of the content that a descriptor holds itself.
#[derive(Clone, Copy, Debug, PartialEq, Eq)]
pub struct Held {
    /// The descriptor's role in its document.
    pub role: Role,
    /// Its index among the descriptors of its document.
    pub at: usize,
    pub embedded: Embedded,
}

/// What was seen in a document beside what it claims.
#[derive(Drop)]
pub struct Detail {
    /// What stands against the contents that its descriptors hold themselves.
    pub held: Vec<Held>,
    /// The violations of its schema, if it is JSON.
    pub violations: Vec<Violation>,
    /// Its bytes, if something stands against it or a part of it: they say where that is.
    pub text: Option<Vec<u8>>,
    /// Why it cannot be read, if it cannot.
    pub why: Option<io::Error>,
}

impl Detail {
    /// Nothing was seen.
    pub fn nothing(alloc: Global) -> Detail
        ensures held { result.held.items ≡ [] }
        ensures violations { result.violations.items ≡ [] }
    {
        Detail {
            held: Vec::new(alloc),
            violations: Vec::new(alloc),
            text: None,
            why: None,
        }
    }

    /// The same, with the bytes of the document if something stands against it or a part of it.
    pub(crate) fn with_text(
        self,
        is_faulty: bool,
        alloc: Global,
        bytes: &[u8],
    ) -> Result<Detail, AllocError>
        ensures held { IfOk result (λ d. d.held ≡ self.held) }
        ensures violations { IfOk result (λ d. d.violations ≡ self.violations) }
    {
        let Detail {
            held,
            violations,
            text,
            why,
        } = self;
        let text = if is_faulty || !held.is_empty() {
            Some(Vec::from_slice(alloc, bytes)?)
        } else {
            text
        };
        Ok(Detail {
            held,
            violations,
            text,
            why,
        })
    }
}

/// What was seen at a claim.
#[derive(Drop)]
pub struct Seen {
    pub fault: Option<Fault>,
    /// What its document claims, in the document's order.
    pub claims: Vec<Claim>,
    pub detail: Detail,
    pub ghost goes: { goes_with fault detail ≡ true },
}

/// Where claims are looked at.
pub trait Shown {
    ghost use Rattle.std.specs.Prelude.{◌<◌, List, Option, length};
    ghost use Rattle.oci_layout.specs.declared.claim.Claim.{Claim};
    ghost use Rattle.oci_layout.specs.declared.claim.Fault.{Fault};

    // at this claim this fault is found, and its document claims these
    ghost shows: { Self → Claim → Option Fault → List Claim → Type 0 };

    /// What is found at a claim, read in pieces of the buffer's length. Fails if out of memory.
    fn look(&self, alloc: Global, claim: &Claim, buffer: &mut [u8]) -> Result<Seen, AllocError>
        requires { 0 < length buffer.old }
        ensures { IfOk result (λ s. shows self.now claim.now s.fault s.claims.items) };
}
