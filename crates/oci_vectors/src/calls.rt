//! Each call on a document or a file and each command that allocates: the baseline's result, or `Memory`.

mod commands;
mod documents;
mod files;
mod images;

use crate::rows::{Work, each};
use oci_doc_run::Kind;
use oci_test_support::{Harness, HarnessOutOfMemory, Sample};

/// All groups of this half.
pub fn run(harness: &mut Harness<'_>) -> Result<(), HarnessOutOfMemory> {
    each(harness, "vectors/samples.rows", &Work::Calls)?;
    each(harness, "vectors/documents.rows", &Work::Calls)?;
    each(harness, "vectors/texts.rows", &Work::Commands)?;
    harness.end("texts", "commands");
    files::all(harness)?;
    harness.end_calls();
    Ok(())
}

/// The groups of one document.
pub fn document(harness: &mut Harness<'_>, sample: &Sample<'_>) -> Result<(), HarnessOutOfMemory> {
    if let Some(kind) = Kind::from_word(sample.kind) {
        documents::all(harness, kind, sample);
        images::all(harness, kind, sample);
    }
    commands::all(harness, sample)
}
