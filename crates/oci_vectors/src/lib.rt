//! Robustness tests: cut and changed documents, failing streams, and allocation failure in every call.
#![tactic(auto)]

mod calls;
mod command;
pub mod memory;
mod rows;
mod vectors;

use oci_test_support::{Harness, HarnessOutOfMemory};

/// No allocation fails: commands and their results, row by row; documents cut and changed at each byte, and streams that give and take
/// little, or fail, at each read, write and flush.
pub fn run_vectors(rt: &HostRuntime) -> Result<(), HarnessOutOfMemory> {
    vectors::run(&mut Harness::new(rt)?)
}

/// Each call on a document, each call on a file and each command that allocates: the baseline's result, or `Memory`. The baseline itself
/// never has `Memory`; `tools/alloc_failures` makes these calls once for each allocation, with that one failing.
pub fn run_calls(rt: &HostRuntime) -> Result<(), HarnessOutOfMemory> {
    calls::run(&mut Harness::new(rt)?)
}
