//! The commands on documents.

use crate::command::status;
use oci_test_support::{Harness, HarnessOutOfMemory, Input, Manner, Sample, words};

/// The commands on one document.
pub fn all(harness: &mut Harness<'_>, sample: &Sample<'_>) -> Result<(), HarnessOutOfMemory> {
    command(harness, "norm", sample)?;
    command(harness, "pretty", sample)?;
    harness.end(sample.kind, "commands");
    Ok(())
}

/// A command is done and writes the document's text, or tells `Memory` and writes nothing.
fn command(
    harness: &mut Harness<'_>,
    word: &str,
    sample: &Sample<'_>,
) -> Result<(), HarnessOutOfMemory> {
    let words = words(harness.rt.alloc(), &[word, sample.kind])?;
    let mut input = Input::new(sample.text.as_bytes(), Manner::AMPLE);
    let status = status(harness, words.as_slice(), &mut input, Manner::AMPLE);
    let kept = match status {
        0 => harness.has_done(sample.compact, word == "pretty"),
        1 => harness.has_no_memory(),
        _ => false,
    };
    harness.count(word, 0, kept);
    Ok(())
}
