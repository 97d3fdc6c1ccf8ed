//! Contents of a store that are read as documents.
ghost use Rattle.std.specs.Prelude.{◌≡◌, ◌<◌, length, IfOk, IfErr, IfSome};
ghost use Rattle.oci_content.specs.Content.{IsContentOf};
ghost use Rattle.oci_json.specs.Engines.{MeansBytes};
ghost use Rattle.oci_inspect.specs.Contents.{IsContent, IsDocumentOf, IsInvalid, IsNoContent, IsOther, IsUnread};

use crate::fault::Fault;
use oci_base::OciSpecError;
use oci_content::{Verdict, verify_bytes};
use oci_descriptor::Descriptor;
use oci_json::from_slice;
use oci_layout::{DOCUMENT_LIMIT, Store, Top, read_content};
use oci_model::OciRecord;
use std::alloc::Global;

/// The contents of a store.
pub(crate) struct Contents<'a, S> {
    pub store: &'a S,
    pub alloc: Global,
}

impl<'a, S> Drop for Contents<'a, S> {
    fn drop(self) {
        let Contents { store, alloc } = self;
    }
}

impl<'a, S: Store> Contents<'a, S> {
    /// The content of a descriptor: its bytes have the size and the digest that it says.
    pub fn bytes_of(&self, descriptor: &Descriptor, buffer: &mut [u8]) -> Result<Vec<u8>, Fault>
        requires { 0 < length buffer.old }
        ensures ok { IfOk result (λ v. IfSome (S.contents self.now.store.now) (λ k. IsContent k descriptor.now v.items)) }
        ensures err { IfErr result (λ f. IfSome (S.contents self.now.store.now) (λ k. IsUnread (S.steady self.now.store.now) k descriptor.now f)) }
    {
        let digest = descriptor.digest();
        match read_content(self.store, self.alloc, digest, DOCUMENT_LIMIT, buffer)? {
            Top::Missing => Err(Fault::Missing),
            Top::Unreadable(why) => Err(Fault::Unreadable(why)),
            Top::TooLarge => Err(Fault::TooLarge),
            Top::Bytes(bytes) => verified(descriptor, bytes),
        }
    }

    /// The document to which a descriptor leads.
    pub fn document_of<T: OciRecord>(
        &self,
        descriptor: &Descriptor,
        buffer: &mut [u8],
    ) -> Result<T, Fault>
        requires { 0 < length buffer.old }
        ensures ok { IfOk result (λ x. IfSome (S.contents self.now.store.now) (λ k. IsDocumentOf T.shape k descriptor.now (T.plain x))) }
        ensures err { IfErr result (λ f. IfSome (S.contents self.now.store.now) (λ k. IsNoContent T.shape (S.steady self.now.store.now) k descriptor.now f)) }
    {
        let bytes = self.bytes_of(descriptor, buffer)?;
        read_as(bytes.as_slice(), self.alloc)
    }
}

/// The bytes, if they are the content of a descriptor.
fn verified(descriptor: &Descriptor, bytes: Vec<u8>) -> Result<Vec<u8>, Fault>
    ensures ok { IfOk result (λ v. (v.items ≡ bytes.items) × IsContentOf descriptor.now.digest descriptor.now.size bytes.items) }
    ensures err { IfErr result (IsOther descriptor.now bytes.items) }
{
    let digest = descriptor.digest().as_ref();
    match verify_bytes(digest, descriptor.size(), bytes.as_slice()) {
        Verdict::Same => Ok(bytes),
        verdict => Err(Fault::Other(verdict)),
    }
}

/// The document that bytes mean.
pub(crate) fn read_as<T: OciRecord>(bytes: &[u8], alloc: Global) -> Result<T, Fault>
    ensures ok { IfOk result (λ x. MeansBytes T.shape bytes.now (T.plain x)) }
    ensures err { IfErr result (IsInvalid T.shape bytes.now) }
{
    match from_slice(alloc, bytes) {
        Ok(document) => Ok(document),
        Err(OciSpecError::Memory) => Err(Fault::Memory),
        Err(error) => Err(Fault::Invalid(error)),
    }
}
