//! Documents in an archive.
ghost use Rattle.std.specs.Prelude.{◌<◌, length, IfOk};
ghost use Rattle.oci_saved.specs.Facts.{IsReadAt, IsReadIn};
ghost use Rattle.oci_saved.specs.Files.{files_at};

use crate::files::Files;
use oci_archive::Source;
use oci_layout::Top;
use serde_json::Value;
use std::alloc::{AllocError, Global};
use std::io;

/// A document that was read.
#[derive(Drop)]
pub struct Document {
    pub bytes: Vec<u8>,
    pub value: Value,
}

/// Why there is no document at a path.
#[derive(Drop)]
pub enum Unread {
    /// No file is there.
    Missing,
    /// It cannot be read.
    Unreadable(io::Error),
    /// It is larger than a document may be.
    TooLarge,
    /// It is not JSON.
    NoJson,
}

/// The document at a path, no larger than the limit, or why there is none. Fails if out of memory.
pub fn document_at<S: Source>(
    files: &Files<'_, S>,
    alloc: Global,
    path: &str,
    limit: u64,
    buffer: &mut [u8],
) -> Result<Result<Document, Unread>, AllocError>
    requires { 0 < length buffer.old }
    ensures { IfOk result (IsReadAt limit (S.steady files.now.source.now) (files_at files.now.index.now.places.items (S.bytes files.now.source.now)) path.now) }
{
    match files.read(alloc, path, limit, buffer)? {
        Top::Missing => Ok(Err(Unread::Missing)),
        Top::Unreadable(why) => Ok(Err(Unread::Unreadable(why))),
        Top::TooLarge => Ok(Err(Unread::TooLarge)),
        Top::Bytes(bytes) => document_in(alloc, bytes),
    }
}

/// The document in these bytes, if they are JSON.
fn document_in(alloc: Global, bytes: Vec<u8>) -> Result<Result<Document, Unread>, AllocError>
    ensures { IfOk result (IsReadIn bytes.items) }
{
    match Value::from_slice(alloc, bytes.as_slice()) {
        Ok(value) => Ok(Ok(Document { bytes, value })),
        Err(fault) => {
            if fault.is_memory() {
                Err(AllocError)
            } else {
                Ok(Err(Unread::NoJson))
            }
        }
    }
}
