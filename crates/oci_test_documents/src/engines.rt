//! The engines over distribution documents, over streams that fail, and over files.

use oci_test_support::{Harness, HarnessOutOfMemory};

mod files;
mod reading;
mod rows;
mod unwritable;
mod writing;

pub fn all(harness: &mut Harness<'_>) -> Result<(), HarnessOutOfMemory> {
    reading::all(harness)?;
    writing::all(harness);
    unwritable::all(harness);
    files::all(harness)
}
