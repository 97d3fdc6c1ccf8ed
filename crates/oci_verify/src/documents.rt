//! Documents of a layout, which are read once more than a walk over it reads them.
ghost use Rattle.std.specs.Prelude.{◌≡◌, ◌↔◌, ◌<◌, ℕ, List, IsTrue, true, length, option_map, option_and_then, IfOk, IfSome};
ghost use Rattle.serde_json.specs.View.{view};
ghost use Rattle.oci_agreement.specs.Descriptors.{mention_in, mention_of};
ghost use Rattle.oci_json.specs.Engines.{ReadsAs};
ghost use Rattle.oci_layout.specs.Holds.{is_same as does_hold};
ghost use Rattle.oci_verify.specs.Kept.{IsKept};
ghost use Rattle.oci_verify.specs.Images.{IsFound, IsSmallKept, IsValueOf, IsWhole, LeadsTo, OverContents};

use oci_agreement::descriptors::Mention;
use oci_base::Result;
use oci_content::{Verdict, verify_bytes};
use oci_layout::{Opened, Store};
use oci_text::{Digest, is_digest};
use serde_json::Value;
use std::alloc::{AllocError, Global};

/// A document that was read.
#[derive(Drop)]
pub struct Document {
    /// The digest of its content.
    pub digest: String,
    pub bytes: Vec<u8>,
    pub value: Value,
}

/// The contents of a store, as documents.
pub struct Documents<'a, S> {
    pub store: &'a S,
    /// How large a document may be.
    pub limit: u64,
    pub alloc: Global,
}

impl<'a, S> Drop for Documents<'a, S> {
    fn drop(self) {
        let Documents {
            store,
            limit,
            alloc,
        } = self;
    }
}

impl<'a, S: Store> Documents<'a, S> {
    /// The document to which a descriptor leads, if there is one: the content that has the digest and the size which it says, where that is
    /// no larger than the limit, and JSON.
    pub fn of_descriptor(
        &self,
        descriptor: Option<&Value>,
        buffer: &mut [u8],
    ) -> Result<Option<Document>>
        requires { 0 < length buffer.old }
        ensures { IfOk result (λ o. OverContents (S.steady self.now.store.now) (S.contents self.now.store.now)
            (λ contents. IsFound (LeadsTo self.now.limit contents (option_map (λ v. view v.now) descriptor.entry)) (option_map (λ d. view d.value) o))) }
    {
        match said_by(descriptor) {
            Some(said) => self.of_content(said.digest, said.size, buffer),
            None => Ok(None),
        }
    }

    /// The document of this digest and size, if there is one.
    pub fn of_content(&self, digest: &str, size: u64, buffer: &mut [u8]) -> Result<Option<Document>>
        requires { 0 < length buffer.old }
        ensures { IfOk result (λ o. OverContents (S.steady self.now.store.now) (S.contents self.now.store.now)
            (λ contents. IsFound (IsValueOf self.now.limit contents digest.now size) (option_map (λ d. view d.value) o))) }
    {
        if size > self.limit {
            return Ok(None);
        }
        if !is_digest(digest) {
            return Ok(None);
        }
        match self.bytes_of(digest, size, buffer)? {
            Some(bytes) => self.document_in(digest, bytes),
            None => Ok(None),
        }
    }

    /// The document in the bytes of this digest, if they are JSON.
    fn document_in(&self, digest: &str, bytes: Vec<u8>) -> Result<Option<Document>>
        ensures { IfOk result (λ o. IsFound (ReadsAs bytes.items) (option_map (λ d. view d.value) o)) }
    {
        let digest = String::from_str(self.alloc, digest)?;
        match value_in(bytes.as_slice(), self.alloc)? {
            Some(value) => Ok(Some(Document {
                digest,
                bytes,
                value,
            })),
            None => Ok(None),
        }
    }

    /// The bytes of this digest and size, if they are there and no larger than the limit.
    pub fn small_bytes_of(
        &self,
        digest: &str,
        size: u64,
        buffer: &mut [u8],
    ) -> Result<Option<Vec<u8>>>
        requires { 0 < length buffer.old }
        ensures { IfOk result (λ o. OverContents (S.steady self.now.store.now) (S.contents self.now.store.now)
            (λ contents. IsFound (IsSmallKept self.now.limit contents digest.now size) (option_map (λ v. v.items) o))) }
    {
        if size > self.limit {
            return Ok(None);
        }
        self.bytes_of(digest, size, buffer)
    }

    /// The bytes of this digest and size, if they are there.
    fn bytes_of(&self, digest: &str, size: u64, buffer: &mut [u8]) -> Result<Option<Vec<u8>>>
        requires { 0 < length buffer.old }
        ensures { IfOk result (λ o. OverContents (S.steady self.now.store.now) (S.contents self.now.store.now)
            (λ contents. IsFound (IsKept contents digest.now size) (option_map (λ v. v.items) o))) }
    {
        let key = Digest::from_str(self.alloc, digest)?;
        match self.store.open(self.alloc, &key)? {
            Opened::Missing => Ok(None),
            Opened::Unreadable(_) => Ok(None),
            Opened::Content(mut blob, _) => Ok(self.read(digest, size, &mut blob, buffer)?),
        }
    }

    /// Whether there is a content of this digest and size.
    pub fn is_kept(&self, digest: &str, size: u64, buffer: &mut [u8]) -> Result<bool>
        requires { 0 < length buffer.old }
        ensures { IfOk result (λ kept. OverContents (S.steady self.now.store.now) (S.contents self.now.store.now)
            (λ contents. IsTrue kept ↔ ((bytes : List ℕ) × IsKept contents digest.now size bytes))) }
    {
        let key = Digest::from_str(self.alloc, digest)?;
        match self.store.open(self.alloc, &key)? {
            Opened::Missing => Ok(false),
            Opened::Unreadable(_) => Ok(false),
            Opened::Content(mut blob, _) => {
                match self.store.verify(&mut blob, digest, size, buffer) {
                    Ok(verdict) => Ok(is_same(verdict)),
                    Err(_) => Ok(false),
                }
            }
        }
    }

    /// All that is left to read, if it has this digest and size.
    fn read(
        &self,
        digest: &str,
        size: u64,
        blob: &mut S::Blob,
        buffer: &mut [u8],
    ) -> std::result::Result<Option<Vec<u8>>, AllocError>
        requires { 0 < length buffer.old }
        ensures { IfOk result (λ o. S.steady self.now.store.now ≡ true
            → IfSome (S.Blob.remaining blob.old) (λ all. IsFound (IsWhole all digest.now size) (option_map (λ v. v.items) o))) }
    {
        let Ok(bytes) = self.store.read(self.alloc, blob, size, buffer)? else {
            return Ok(None);
        };
        if is_same(verify_bytes(digest, size, bytes.as_slice())) {
            Ok(Some(bytes))
        } else {
            Ok(None)
        }
    }
}

fn is_same(verdict: Verdict) -> bool
    ensures { result ≡ does_hold verdict }
{
    match verdict {
        Verdict::Same => true,
        _ => false,
    }
}

/// What a descriptor says, where there is one that says all of it.
fn said_by(descriptor: Option<&Value>) -> Option<Mention<'_>>
    ensures { option_map mention_of result ≡ option_and_then mention_in (option_map (λ v. view v.now) descriptor.entry) }
{
    match descriptor {
        Some(descriptor) => Mention::of(descriptor),
        None => None,
    }
}

/// The value in these bytes, if they are JSON. Fails if out of memory.
pub fn value_in(bytes: &[u8], alloc: Global) -> std::result::Result<Option<Value>, AllocError>
    ensures { IfOk result (λ o. IsFound (ReadsAs bytes.now) (option_map (λ v. view v) o)) }
{
    match Value::from_slice(alloc, bytes) {
        Ok(value) => Ok(Some(value)),
        Err(fault) => {
            if fault.is_memory() {
                Err(AllocError)
            } else {
                Ok(None)
            }
        }
    }
}
