//! The rows of the files of `vectors/`.

use crate::{calls, vectors};
use oci_test_support::{Harness, HarnessOutOfMemory, Sample};
use std::fs;

/// What is done with a row.
pub enum Work {
    /// A document is cut and changed at each byte, and its streams fail.
    Bytes,
    /// A document's streams fail.
    Streams,
    /// A document's calls and commands are made.
    Calls,
    /// A command is given.
    Commands,
}

/// Does this with each row of a file.
pub fn each(harness: &mut Harness<'_>, path: &str, work: &Work) -> Result<(), HarnessOutOfMemory> {
    let rows = fs::read_to_string(harness.rt, path)?;
    for row in rows.as_str().trim().split("\n\n") {
        of_row(harness, row, work)?;
    }
    Ok(())
}

fn of_row(harness: &mut Harness<'_>, row: &str, work: &Work) -> Result<(), HarnessOutOfMemory> {
    match work {
        Work::Bytes => vectors::document(harness, &Sample::of(row)?, true),
        Work::Streams => vectors::document(harness, &Sample::of(row)?, false),
        Work::Calls => calls::document(harness, &Sample::of(row)?),
        Work::Commands => vectors::commands::answers(harness, row),
    }
}
