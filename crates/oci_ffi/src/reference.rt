//! References to images.
ghost use Rattle.std.specs.Prelude.{◌≡◌, ◌≤◌, ◌<◌, ◌⊎◌, [], length, unwrap_or, option_map, IfOk, IfErr, IsUtf8};
ghost use Rattle.oci_reference.specs.Accepted.{Accepted, Tells};
ghost use Rattle.oci_reference.specs.Parts.{Parts, resolved};
ghost use Rattle.oci_reference.specs.Whole.{whole};
ghost use Rattle.oci_reference.specs.declared.error.ParseError.{ParseError};
ghost use Rattle.oci_ffi.specs.Buffers.{Fills, Overflows, Untouched};
ghost use Rattle.oci_ffi.specs.References.{lengths, status_numbered};

use crate::buffer::put;
use crate::status::{
    BUFFER_TOO_SMALL, DIGEST_INVALID_FORMAT, DIGEST_INVALID_LENGTH, DIGEST_UNSUPPORTED, DONE,
    INVALID_UTF8, NAME_CONTAINS_UPPERCASE, NAME_EMPTY, NAME_TOO_LONG, OUT_OF_MEMORY,
    REFERENCE_INVALID_FORMAT, TAG_INVALID_FORMAT,
};
use oci_reference::{ParseError, Reference};
use std::alloc::Global;
use std::str;

/// The lengths of a reference's parts in its whole text: the registry, `/` and the repository, `:` and the tag, `@` and the digest. A
/// missing part has length 0, and no mark before it.
#[repr(C)]
#[derive(Clone, Copy, Drop)]
pub struct CiderglenReference {
    pub registry: usize,
    pub repository: usize,
    pub tag: usize,
    pub digest: usize,
}

fn length_of(part: Option<&str>) -> usize
    ensures { result ≡ length (unwrap_or (option_map (λ x. x.now) part.entry) []) }
{
    match part {
        Some(part) => part.len(),
        None => 0,
    }
}

fn lengths_of(reference: &Reference) -> CiderglenReference
    ensures { result ≡ lengths reference.now }
{
    CiderglenReference {
        registry: reference.registry().len(),
        repository: reference.repository().len(),
        tag: length_of(reference.tag()),
        digest: length_of(reference.digest()),
    }
}

/// The status of an error.
fn status_numbered(error: &ParseError) -> u32
    ensures { result ≡ status_numbered error.now }
{
    match error {
        ParseError::Memory => OUT_OF_MEMORY,
        ParseError::NameEmpty => NAME_EMPTY,
        ParseError::NameContainsUppercase => NAME_CONTAINS_UPPERCASE,
        ParseError::NameTooLong => NAME_TOO_LONG,
        ParseError::TagInvalidFormat => TAG_INVALID_FORMAT,
        ParseError::DigestInvalidFormat => DIGEST_INVALID_FORMAT,
        ParseError::DigestInvalidLength => DIGEST_INVALID_LENGTH,
        ParseError::DigestUnsupported => DIGEST_UNSUPPORTED,
        ParseError::ReferenceInvalidFormat => REFERENCE_INVALID_FORMAT,
    }
}

/// Parses a reference. Fails with the status of the error.
pub(crate) fn parse(alloc: Global, text: &[u8]) -> Result<Reference, u32>
    ensures ok { IfOk result (Accepted text.now) }
    ensures accepted { IfErr result (λ status. status ≡ OUT_OF_MEMORY → (p : Parts) × Accepted text.now p) }
    ensures utf8 { IfErr result (λ status. status ≡ INVALID_UTF8 → ¬ IsUtf8 text.now) }
    ensures refused { IfErr result (λ status. NAME_EMPTY ≤ status → (e : ParseError) × (status ≡ status_numbered e) × Tells text.now e) }
    ensures status { IfErr result (λ status. (status ≡ OUT_OF_MEMORY) ⊎ ((status ≡ INVALID_UTF8) ⊎ (NAME_EMPTY ≤ status))) }
{
    match str::from_utf8(text) {
        Ok(text) => match Reference::from_str(alloc, text) {
            Ok(reference) => Ok(reference),
            Err(error) => Err(status_numbered(&error)),
        },
        Err(_) => Err(INVALID_UTF8),
    }
}

/// Writes the whole text of a reference, and returns the lengths of its parts.
fn describe(
    reference: &Reference,
    buffer: &mut [u8],
    output_len: &mut usize,
    parts: &mut CiderglenReference,
) -> u32
    ensures done { result ≡ DONE → Fills buffer.old buffer.new output_len.new (whole reference.now) }
    ensures small { result ≡ BUFFER_TOO_SMALL → Overflows buffer.old buffer.new output_len.new (whole reference.now) }
    ensures parts { result ≤ BUFFER_TOO_SMALL → parts.new ≡ lengths reference.now }
    ensures untouched { BUFFER_TOO_SMALL < result → Untouched buffer.old buffer.new output_len.new }
    ensures status { result ≤ OUT_OF_MEMORY }
{
    *output_len = 0;
    *parts = lengths_of(reference);
    match reference.whole() {
        Ok(text) => put(text.as_bytes(), buffer, output_len),
        Err(_) => OUT_OF_MEMORY,
    }
}

/// Parses a reference to an image, writes its whole text (`docker.io/library/busybox:latest` for `busybox`) and returns the lengths
/// of its parts in it.
///
/// Returns CIDERGLEN_INVALID_UTF8, or a status from CIDERGLEN_NAME_EMPTY up, if the text is not a reference. After any status but
/// CIDERGLEN_DONE and CIDERGLEN_BUFFER_TOO_SMALL the lengths are unspecified.
#[unsafe(no_mangle)]
pub extern "C" fn ciderglen_reference(
    alloc: Global,
    text: &[u8],
    buffer: &mut [u8],
    output_len: &mut usize,
    parts: &mut CiderglenReference,
) -> u32
    ensures done { result ≡ DONE → (p : Parts) × Accepted text.now p × Fills buffer.old buffer.new output_len.new (whole p) × (parts.new ≡ lengths p) }
    ensures small { result ≡ BUFFER_TOO_SMALL → (p : Parts) × Accepted text.now p × Overflows buffer.old buffer.new output_len.new (whole p) × (parts.new ≡ lengths p) }
    ensures accepted { result ≤ OUT_OF_MEMORY → (p : Parts) × Accepted text.now p }
    ensures utf8 { result ≡ INVALID_UTF8 → ¬ IsUtf8 text.now }
    ensures refused { NAME_EMPTY ≤ result → (e : ParseError) × (result ≡ status_numbered e) × Tells text.now e }
    ensures untouched { BUFFER_TOO_SMALL < result → Untouched buffer.old buffer.new output_len.new }
    ensures status { (result ≤ OUT_OF_MEMORY) ⊎ ((result ≡ INVALID_UTF8) ⊎ (NAME_EMPTY ≤ result)) }
{
    *output_len = 0;
    match parse(alloc, text) {
        Ok(reference) => describe(&reference, buffer, output_len, parts),
        Err(status) => status,
    }
}

/// Parses a reference to an image and writes the registry that it is pulled from: `index.docker.io` in place of `docker.io`.
///
/// Returns the statuses of ciderglen_reference.
#[unsafe(no_mangle)]
pub extern "C" fn ciderglen_resolve_registry(
    alloc: Global,
    text: &[u8],
    buffer: &mut [u8],
    output_len: &mut usize,
) -> u32
    ensures done { result ≡ DONE → (p : Parts) × Accepted text.now p × Fills buffer.old buffer.new output_len.new (resolved p) }
    ensures small { result ≡ BUFFER_TOO_SMALL → (p : Parts) × Accepted text.now p × Overflows buffer.old buffer.new output_len.new (resolved p) }
    ensures accepted { result ≤ OUT_OF_MEMORY → (p : Parts) × Accepted text.now p }
    ensures utf8 { result ≡ INVALID_UTF8 → ¬ IsUtf8 text.now }
    ensures refused { NAME_EMPTY ≤ result → (e : ParseError) × (result ≡ status_numbered e) × Tells text.now e }
    ensures untouched { BUFFER_TOO_SMALL < result → Untouched buffer.old buffer.new output_len.new }
    ensures status { (result ≤ OUT_OF_MEMORY) ⊎ ((result ≡ INVALID_UTF8) ⊎ (NAME_EMPTY ≤ result)) }
{
    *output_len = 0;
    match parse(alloc, text) {
        Ok(reference) => put(reference.resolve_registry().as_bytes(), buffer, output_len),
        Err(status) => status,
    }
}
