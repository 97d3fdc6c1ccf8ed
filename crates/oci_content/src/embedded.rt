//! Content that a descriptor holds itself.
ghost use Rattle.std.specs.Prelude.{IfOk, option_map, string_bytes};
ghost use Rattle.oci_content.specs.Embedded.{TellsData};

use crate::judging::verify_bytes;
use crate::verdict::Verdict;
use base64::DecodeAllocError;
use base64::engine::general_purpose::STANDARD;
use oci_descriptor::Descriptor;
use std::alloc::{AllocError, Global};

/// What is found of the content that a descriptor holds itself, in `data` (image specification, "Content Descriptors",
/// "Embedded Content").
#[derive(Clone, Copy, Debug, PartialEq, Eq)]
pub enum Embedded {
    /// It holds none.
    Absent,
    /// `data` is no base64 text (RFC 4648, section 4).
    NotBase64,
    /// `data` is the text of a content with this verdict.
    Content(Verdict),
}

/// The verdict on the content whose base64 text is `data`, by the text of a digest and a size. Fails if out of memory.
pub fn verify_base64(
    alloc: Global,
    digest: &str,
    size: u64,
    data: &str,
) -> Result<Embedded, AllocError>
    ensures { IfOk result (TellsData digest.now size (Some «data».now)) }
{
    match STANDARD.decode(alloc, data.as_bytes()) {
        Ok(bytes) => Ok(Embedded::Content(verify_bytes(digest, size, bytes.as_slice()))),
        Err(DecodeAllocError::DecodeError(_)) => Ok(Embedded::NotBase64),
        Err(DecodeAllocError::OutOfMemory) => Err(AllocError),
    }
}

/// What is found of the content that the descriptor holds itself. Fails if out of memory.
pub fn verify_data(alloc: Global, descriptor: &Descriptor) -> Result<Embedded, AllocError>
    ensures { IfOk result (TellsData descriptor.now.digest descriptor.now.size (option_map string_bytes descriptor.now.embedded_data)) }
{
    let text = descriptor.digest().as_ref();
    match descriptor.data() {
        Some(data) => verify_base64(alloc, text, descriptor.size(), data.as_str()),
        None => Ok(Embedded::Absent),
    }
}
