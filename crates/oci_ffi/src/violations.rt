//! The violations of a document's schema.
ghost use Rattle.std.specs.Prelude.{◌≡◌, ◌≤◌, ◌<◌, ◌↔◌, [], length, None, IfOk, IfErr, IsSomeAnd};
ghost use Rattle.serde_json.specs.Data.{Data};
ghost use Rattle.oci_json.specs.Engines.{MeansBytes, ReadsAs, IsNoJson};
ghost use Rattle.oci_model.specs.Plain.{Plain};
ghost use Rattle.oci_base.specs.Refused.{IsJson, IsSchema};
ghost use Rattle.oci_ffi.specs.Buffers.{Fills, Overflows, Untouched};
ghost use Rattle.oci_schema.specs.Violations.{violations as all_violations};
ghost use Rattle.oci_ffi.specs.Fields.{violation_list};
ghost use Rattle.oci_ffi.specs.Kinds.{shape_of, shape_numbered};

use crate::buffer::put;
use crate::fields::list_violations;
use crate::input::status_of;
use crate::kind::schema_of;
use crate::status::{BUFFER_TOO_SMALL, DONE, INVALID_JSON, UNKNOWN_KIND};
use oci_base::Result;
use oci_json::value_from_slice;
use oci_schema::{Schema, violations};
use oci_schemas::OciRecords;
use std::alloc::Global;

/// The violations in a document.
#[derive(Drop)]
struct Findings {
    /// The fields of each.
    fields: Vec<u8>,
    /// How many there are.
    count: usize,
}

/// The violations of a schema in a document.
#[tactic(auto, using(crate::proofs::Reported::none_found, crate::proofs::Reported::all_counted))]
fn found_in(schema: &Schema, alloc: Global, document: &[u8]) -> Result<Findings>
    ensures valid { IfOk result (λ r. (r.count ≡ 0) ↔ ((p : Plain) × MeansBytes (shape_of schema.now) document.now p)) }
    ensures counted { IfOk result (λ r. (d : Data) × ReadsAs document.now d × (r.count ≡ length (all_violations (shape_of schema.now) [] d))) }
    ensures listed { IfOk result (λ r. (d : Data) × ReadsAs document.now d × (r.fields.items ≡ violation_list (all_violations (shape_of schema.now) [] d))) }
    ensures json { IfErr result (λ e. IsJson e → IsNoJson document.now) }
    ensures no_schema { IfErr result (λ e. ¬ IsSchema e) }
{
    let value = value_from_slice(alloc, document)?;
    let found = violations(&OciRecords, schema, &value, alloc)?;
    let fields = list_violations(&found, alloc)?;
    let count = found.len();
    Ok(Findings { fields, count })
}

/// Writes the violations of a schema, as `ciderglen_violations` does.
fn report(
    alloc: Global,
    schema: &Schema,
    document: &[u8],
    buffer: &mut [u8],
    output_len: &mut usize,
    count: &mut usize,
) -> u32
    ensures done { result ≡ DONE → (d : Data) × ReadsAs document.now d × Fills buffer.old buffer.new output_len.new (violation_list (all_violations (shape_of schema.now) [] d)) }
    ensures small { result ≡ BUFFER_TOO_SMALL → (d : Data) × ReadsAs document.now d × Overflows buffer.old buffer.new output_len.new (violation_list (all_violations (shape_of schema.now) [] d)) }
    ensures counted { result ≤ BUFFER_TOO_SMALL → (d : Data) × ReadsAs document.now d × (count.new ≡ length (all_violations (shape_of schema.now) [] d)) }
    ensures valid { result ≤ BUFFER_TOO_SMALL → (count.new ≡ 0) ↔ ((p : Plain) × MeansBytes (shape_of schema.now) document.now p) }
    ensures json { result ≡ INVALID_JSON → IsNoJson document.now }
    ensures untouched { BUFFER_TOO_SMALL < result → Untouched buffer.old buffer.new output_len.new × (count.new ≡ 0) }
    ensures known { ¬ (result ≡ UNKNOWN_KIND) }
    ensures status { result ≤ INVALID_JSON }
{
    *output_len = 0;
    *count = 0;
    match found_in(schema, alloc, document) {
        Ok(found) => {
            *count = found.count;
            put(found.fields.as_slice(), buffer, output_len)
        }
        Err(error) => status_of(&error),
    }
}

/// Writes the list of all violations of the schema in a document, in the order of the schema: of each the place as a JSON pointer
/// (RFC 6901), and what was expected there. Each of the two is a field, which ciderglen_next_field reads. Sets `*count` to the number
/// of violations, which is 0 exactly if the document is valid.
///
/// Returns CIDERGLEN_INVALID_JSON or CIDERGLEN_UNKNOWN_KIND if the document has no violations to list. After any status but
/// CIDERGLEN_DONE and CIDERGLEN_BUFFER_TOO_SMALL `*count` is 0.
///
/// Fields are UTF-8, and are not escaped: a name in a pointer is as the document has it, with any newline, NUL or escape sequence.
#[unsafe(no_mangle)]
pub extern "C" fn ciderglen_violations(
    alloc: Global,
    kind: u32,
    document: &[u8],
    buffer: &mut [u8],
    output_len: &mut usize,
    count: &mut usize,
) -> u32
    ensures done { result ≡ DONE → IsSomeAnd (shape_numbered kind) (λ s. (d : Data) × ReadsAs document.now d × Fills buffer.old buffer.new output_len.new (violation_list (all_violations s [] d))) }
    ensures small { result ≡ BUFFER_TOO_SMALL → IsSomeAnd (shape_numbered kind) (λ s. (d : Data) × ReadsAs document.now d × Overflows buffer.old buffer.new output_len.new (violation_list (all_violations s [] d))) }
    ensures counted { result ≤ BUFFER_TOO_SMALL → IsSomeAnd (shape_numbered kind) (λ s. (d : Data) × ReadsAs document.now d × (count.new ≡ length (all_violations s [] d))) }
    ensures valid { result ≤ BUFFER_TOO_SMALL → IsSomeAnd (shape_numbered kind) (λ s. (count.new ≡ 0) ↔ ((p : Plain) × MeansBytes s document.now p)) }
    ensures json { result ≡ INVALID_JSON → IsNoJson document.now }
    ensures unknown { (result ≡ UNKNOWN_KIND) ↔ (shape_numbered kind ≡ None) }
    ensures untouched { BUFFER_TOO_SMALL < result → Untouched buffer.old buffer.new output_len.new × (count.new ≡ 0) }
    ensures status { result ≤ INVALID_JSON }
{
    match schema_of(kind) {
        Some(schema) => report(alloc, schema, document, buffer, output_len, count),
        None => {
            *output_len = 0;
            *count = 0;
            UNKNOWN_KIND
        }
    }
}
