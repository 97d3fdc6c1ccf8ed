//! References pinned to content.
ghost use Rattle.std.specs.Prelude.{◌≡◌, ◌≤◌, ◌<◌, ◌⊎◌, IfOk, IfErr, IsUtf8, string_bytes};
ghost use Rattle.oci_descriptor.specs.Descriptor.{descriptor_plain};
ghost use Rattle.oci_descriptor.specs.declared.descriptor.Descriptor.{Descriptor};
ghost use Rattle.oci_json.specs.Engines.{MeansBytes, IsNoDocument, IsNoJson};
ghost use Rattle.oci_reference.specs.Accepted.{Accepted, Tells};
ghost use Rattle.oci_reference.specs.Parts.{Parts};
ghost use Rattle.oci_reference.specs.Replaced.{pinned};
ghost use Rattle.oci_reference.specs.Whole.{whole};
ghost use Rattle.oci_reference.specs.declared.error.ParseError.{ParseError};
ghost use Rattle.oci_shapes.specs.Descriptor.{descriptor};
ghost use Rattle.oci_base.specs.Refused.{IsJson, IsSchema};
ghost use Rattle.oci_ffi.specs.Buffers.{Fills, Overflows, Untouched};
ghost use Rattle.oci_ffi.specs.References.{status_numbered};

use crate::buffer::put;
use crate::input::status_of;
use crate::reference::parse;
use crate::status::{
    BUFFER_TOO_SMALL, DONE, INVALID_DOCUMENT, INVALID_JSON, INVALID_UTF8, NAME_EMPTY, UNKNOWN_KIND,
};
use oci_base::Result;
use oci_descriptor::Descriptor;
use oci_json::from_slice;
use oci_pin::pin;
use oci_reference::Reference;
use std::alloc::Global;

/// The whole text of a reference with the digest of a descriptor.
fn pinned_text(alloc: Global, reference: &Reference, json: &[u8]) -> Result<String>
    ensures ok { IfOk result (λ t. (d : Descriptor) × MeansBytes descriptor json.now (descriptor_plain d) × (string_bytes t ≡ whole (pinned reference.now d.digest))) }
    ensures json { IfErr result (λ e. IsJson e → IsNoJson json.now) }
    ensures schema { IfErr result (λ e. IsSchema e → IsNoDocument descriptor json.now) }
{
    let descriptor: Descriptor = from_slice(alloc, json)?;
    pin(alloc, reference, &descriptor)?.into_string()
}

/// Writes the whole text of a reference with the digest of a descriptor.
fn put_pinned(
    alloc: Global,
    reference: &Reference,
    json: &[u8],
    buffer: &mut [u8],
    output_len: &mut usize,
) -> u32
    ensures done { result ≡ DONE → (d : Descriptor) × MeansBytes descriptor json.now (descriptor_plain d) × Fills buffer.old buffer.new output_len.new (whole (pinned reference.now d.digest)) }
    ensures small { result ≡ BUFFER_TOO_SMALL → (d : Descriptor) × MeansBytes descriptor json.now (descriptor_plain d) × Overflows buffer.old buffer.new output_len.new (whole (pinned reference.now d.digest)) }
    ensures json { result ≡ INVALID_JSON → IsNoJson json.now }
    ensures schema { result ≡ INVALID_DOCUMENT → IsNoDocument descriptor json.now }
    ensures untouched { BUFFER_TOO_SMALL < result → Untouched buffer.old buffer.new output_len.new }
    ensures known { ¬ (result ≡ UNKNOWN_KIND) }
    ensures status { result ≤ INVALID_DOCUMENT }
{
    *output_len = 0;
    match pinned_text(alloc, reference, json) {
        Ok(text) => put(text.as_bytes(), buffer, output_len),
        Err(error) => status_of(&error),
    }
}

/// Parses a reference to an image and a descriptor (as JSON), and writes the whole text of the reference with the descriptor's digest
/// in place of its tag and digest.
///
/// Returns CIDERGLEN_INVALID_UTF8, or a status from CIDERGLEN_NAME_EMPTY up, if the text is not a reference; then the descriptor is
/// not read. Returns CIDERGLEN_INVALID_JSON or CIDERGLEN_INVALID_DOCUMENT if there is no descriptor.
#[unsafe(no_mangle)]
pub extern "C" fn ciderglen_pin(
    alloc: Global,
    text: &[u8],
    json: &[u8],
    buffer: &mut [u8],
    output_len: &mut usize,
) -> u32
    ensures done { result ≡ DONE → (p : Parts) × (d : Descriptor) × Accepted text.now p × MeansBytes descriptor json.now (descriptor_plain d) × Fills buffer.old buffer.new output_len.new (whole (pinned p d.digest)) }
    ensures small { result ≡ BUFFER_TOO_SMALL → (p : Parts) × (d : Descriptor) × Accepted text.now p × MeansBytes descriptor json.now (descriptor_plain d) × Overflows buffer.old buffer.new output_len.new (whole (pinned p d.digest)) }
    ensures json { result ≡ INVALID_JSON → IsNoJson json.now }
    ensures schema { result ≡ INVALID_DOCUMENT → IsNoDocument descriptor json.now }
    ensures utf8 { result ≡ INVALID_UTF8 → ¬ IsUtf8 text.now }
    ensures refused { NAME_EMPTY ≤ result → (e : ParseError) × (result ≡ status_numbered e) × Tells text.now e }
    ensures untouched { BUFFER_TOO_SMALL < result → Untouched buffer.old buffer.new output_len.new }
    ensures accepted { result ≤ INVALID_DOCUMENT → (p : Parts) × Accepted text.now p }
    ensures known { ¬ (result ≡ UNKNOWN_KIND) }
    ensures status { (result ≤ INVALID_UTF8) ⊎ (NAME_EMPTY ≤ result) }
{
    *output_len = 0;
    match parse(alloc, text) {
        Ok(reference) => put_pinned(alloc, &reference, json, buffer, output_len),
        Err(status) => status,
    }
}
