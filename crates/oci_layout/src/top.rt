//! Files and contents that are read whole.
ghost use Rattle.std.specs.Prelude.{◌<◌, length, IfOk, IfSome};
ghost use Rattle.oci_layout.specs.Sound.{IsTop, IsReadOf};

use crate::store::{ImageLayout, Opened, Store};
use oci_text::Digest;
use std::alloc::{AllocError, Global};
use std::io;

/// How large a document may be, which is what registries have to take: 4 MiB (distribution specification, "Pushing Manifests").
pub const DOCUMENT_LIMIT: u64 = 4194304;

/// A file beside `blobs`, or a content, that was read whole.
#[derive(Drop)]
pub enum Top {
    Missing,
    /// It cannot be read, or is no regular file.
    Unreadable(io::Error),
    /// It is larger than the limit.
    TooLarge,
    Bytes(Vec<u8>),
}

/// Reads a file beside `blobs`, as `index.json`, unless it is larger than the limit. Fails if out of memory.
pub fn read_top<L: ImageLayout>(
    layout: &L,
    alloc: Global,
    name: &str,
    limit: u64,
    buffer: &mut [u8],
) -> Result<Top, AllocError>
    requires { 0 < length buffer.old }
    ensures { IfOk result (IsTop limit (L.steady layout.now) (L.tops layout.now) name.now) }
{
    match layout.top(alloc, name)? {
        Opened::Missing => Ok(Top::Missing),
        Opened::Unreadable(fault) => Ok(Top::Unreadable(fault)),
        Opened::Content(mut blob, _) => read_blob(layout, alloc, &mut blob, limit, buffer),
    }
}

/// Reads a content by its digest, unless it is larger than the limit; its size and its digest are not looked at. Fails if out of memory.
pub fn read_content<S: Store>(
    store: &S,
    alloc: Global,
    digest: &Digest,
    limit: u64,
    buffer: &mut [u8],
) -> Result<Top, AllocError>
    requires { 0 < length buffer.old }
    ensures { IfOk result (IsTop limit (S.steady store.now) (S.contents store.now) digest.now) }
{
    match store.open(alloc, digest)? {
        Opened::Missing => Ok(Top::Missing),
        Opened::Unreadable(fault) => Ok(Top::Unreadable(fault)),
        Opened::Content(mut blob, _) => read_blob(store, alloc, &mut blob, limit, buffer),
    }
}

/// Reads what is left of a content, unless it is larger than the limit. Fails if out of memory.
fn read_blob<S: Store>(
    store: &S,
    alloc: Global,
    blob: &mut S::Blob,
    limit: u64,
    buffer: &mut [u8],
) -> Result<Top, AllocError>
    requires { 0 < length buffer.old }
    ensures { IfOk result (λ top. IfSome (S.Blob.remaining blob.old) (λ bytes. IsReadOf limit (S.steady store.now) bytes top)) }
{
    match store.read(alloc, blob, limit, buffer)? {
        Err(fault) => Ok(Top::Unreadable(fault)),
        Ok(bytes) => {
            if bytes.len() as u64 > limit {
                Ok(Top::TooLarge)
            } else {
                Ok(Top::Bytes(bytes))
            }
        }
    }
}
