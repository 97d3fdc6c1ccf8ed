//! Documents and texts that are cut, changed or given in pieces, and streams that fail.

mod bytes;
pub mod commands;
mod edges;
mod faults;

use crate::rows::{Work, each};
use oci_test_support::{Harness, HarnessOutOfMemory, Sample, words};

/// All groups of this half.
pub fn run(harness: &mut Harness<'_>) -> Result<(), HarnessOutOfMemory> {
    each(harness, "vectors/samples.rows", &Work::Bytes)?;
    each(harness, "vectors/documents.rows", &Work::Streams)?;
    edges::all(harness);
    each(harness, "vectors/commands.rows", &Work::Commands)?;
    harness.end("commands", "rows");
    Ok(())
}

/// The groups of one document; it is cut and changed only where that is asked for.
pub fn document(
    harness: &mut Harness<'_>,
    sample: &Sample<'_>,
    is_changed: bool,
) -> Result<(), HarnessOutOfMemory> {
    let normal = words(harness.rt.alloc(), &["norm", sample.kind])?;
    if is_changed {
        bytes::all(harness, sample, normal.as_slice());
    }
    faults::all(harness, sample, normal.as_slice());
    Ok(())
}
