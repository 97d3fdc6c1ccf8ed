//! The canonical form of a document.
ghost use Rattle.std.specs.Prelude.{◌≡◌, ◌≤◌, ◌<◌, ◌↔◌, None, Some, IsSomeAnd};
ghost use Rattle.oci_json.specs.Engines.{WritesDocument, IsNoJson, IsNotNormalized};
ghost use Rattle.oci_model.specs.WellFormed.{WellFormed};
ghost use Rattle.oci_schema.specs.Normalizes.{WritesPretty};
ghost use Rattle.oci_ffi.specs.Buffers.{Fills, Overflows, Untouched};
ghost use Rattle.oci_ffi.specs.Kinds.{shape_of, shape_numbered};

use crate::buffer::put;
use crate::input::status_of;
use crate::kind::schema_of;
use crate::normal::{compact_text, pretty_text};
use crate::status::{BUFFER_TOO_SMALL, DONE, INVALID_DOCUMENT, INVALID_JSON, UNKNOWN_KIND};
use oci_schema::Schema;
use std::alloc::Global;

/// Normalizes a document by a schema, as `ciderglen_normalize` does.
fn normalize(
    alloc: Global,
    schema: &Schema,
    document: &[u8],
    buffer: &mut [u8],
    output_len: &mut usize,
) -> u32
    requires { WellFormed (shape_of schema.now) }
    ensures done { result ≡ DONE → WritesDocument (shape_of schema.now) (Some document.now) (Fills buffer.old buffer.new output_len.new) }
    ensures small { result ≡ BUFFER_TOO_SMALL → WritesDocument (shape_of schema.now) (Some document.now) (Overflows buffer.old buffer.new output_len.new) }
    ensures json { result ≡ INVALID_JSON → IsNoJson document.now }
    ensures schema { result ≡ INVALID_DOCUMENT → IsNotNormalized (shape_of schema.now) document.now }
    ensures untouched { BUFFER_TOO_SMALL < result → Untouched buffer.old buffer.new output_len.new }
    ensures known { ¬ (result ≡ UNKNOWN_KIND) }
    ensures status { result ≤ INVALID_DOCUMENT }
{
    *output_len = 0;
    match compact_text(schema, alloc, document) {
        Ok(text) => put(text.as_slice(), buffer, output_len),
        Err(error) => status_of(&error),
    }
}

/// Normalizes a document by a schema, as `ciderglen_pretty` does.
fn pretty(
    alloc: Global,
    schema: &Schema,
    document: &[u8],
    buffer: &mut [u8],
    output_len: &mut usize,
) -> u32
    requires { WellFormed (shape_of schema.now) }
    ensures done { result ≡ DONE → WritesPretty (shape_of schema.now) (Some document.now) (Fills buffer.old buffer.new output_len.new) }
    ensures small { result ≡ BUFFER_TOO_SMALL → WritesPretty (shape_of schema.now) (Some document.now) (Overflows buffer.old buffer.new output_len.new) }
    ensures json { result ≡ INVALID_JSON → IsNoJson document.now }
    ensures schema { result ≡ INVALID_DOCUMENT → IsNotNormalized (shape_of schema.now) document.now }
    ensures untouched { BUFFER_TOO_SMALL < result → Untouched buffer.old buffer.new output_len.new }
    ensures known { ¬ (result ≡ UNKNOWN_KIND) }
    ensures status { result ≤ INVALID_DOCUMENT }
{
    *output_len = 0;
    match pretty_text(schema, alloc, document) {
        Ok(text) => put(text.as_slice(), buffer, output_len),
        Err(error) => status_of(&error),
    }
}

/// Writes the canonical form of a document as compact JSON: unknown members are left out, the others are in byte order of their
/// names.
///
/// Returns CIDERGLEN_INVALID_JSON, CIDERGLEN_INVALID_DOCUMENT or CIDERGLEN_UNKNOWN_KIND if there is none.
#[unsafe(no_mangle)]
pub extern "C" fn ciderglen_normalize(
    alloc: Global,
    kind: u32,
    document: &[u8],
    buffer: &mut [u8],
    output_len: &mut usize,
) -> u32
    ensures done { result ≡ DONE → IsSomeAnd (shape_numbered kind) (λ s. WritesDocument s (Some document.now) (Fills buffer.old buffer.new output_len.new)) }
    ensures small { result ≡ BUFFER_TOO_SMALL → IsSomeAnd (shape_numbered kind) (λ s. WritesDocument s (Some document.now) (Overflows buffer.old buffer.new output_len.new)) }
    ensures json { result ≡ INVALID_JSON → IsNoJson document.now }
    ensures schema { result ≡ INVALID_DOCUMENT → IsSomeAnd (shape_numbered kind) (λ s. IsNotNormalized s document.now) }
    ensures unknown { (result ≡ UNKNOWN_KIND) ↔ (shape_numbered kind ≡ None) }
    ensures untouched { BUFFER_TOO_SMALL < result → Untouched buffer.old buffer.new output_len.new }
    ensures status { result ≤ INVALID_DOCUMENT }
{
    match schema_of(kind) {
        Some(schema) => normalize(alloc, schema, document, buffer, output_len),
        None => {
            *output_len = 0;
            UNKNOWN_KIND
        }
    }
}

/// Writes the canonical form of a document as pretty JSON: a line for each member or item, indented by two spaces a level, and no
/// newline at the end.
///
/// Returns the statuses of ciderglen_normalize.
#[unsafe(no_mangle)]
pub extern "C" fn ciderglen_pretty(
    alloc: Global,
    kind: u32,
    document: &[u8],
    buffer: &mut [u8],
    output_len: &mut usize,
) -> u32
    ensures done { result ≡ DONE → IsSomeAnd (shape_numbered kind) (λ s. WritesPretty s (Some document.now) (Fills buffer.old buffer.new output_len.new)) }
    ensures small { result ≡ BUFFER_TOO_SMALL → IsSomeAnd (shape_numbered kind) (λ s. WritesPretty s (Some document.now) (Overflows buffer.old buffer.new output_len.new)) }
    ensures json { result ≡ INVALID_JSON → IsNoJson document.now }
    ensures schema { result ≡ INVALID_DOCUMENT → IsSomeAnd (shape_numbered kind) (λ s. IsNotNormalized s document.now) }
    ensures unknown { (result ≡ UNKNOWN_KIND) ↔ (shape_numbered kind ≡ None) }
    ensures untouched { BUFFER_TOO_SMALL < result → Untouched buffer.old buffer.new output_len.new }
    ensures status { result ≤ INVALID_DOCUMENT }
{
    match schema_of(kind) {
        Some(schema) => pretty(alloc, schema, document, buffer, output_len),
        None => {
            *output_len = 0;
            UNKNOWN_KIND
        }
    }
}
