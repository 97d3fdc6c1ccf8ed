//! Robustness tests over texts and over records that are made in code. They print how many cases of each group they ran, and each case
//! that broke its rule. Nothing here reads or writes a document.

mod made;
mod references;
mod roots;
mod scanner;
mod texts;

use oci_test_support::{Harness, HarnessOutOfMemory};

/// No allocation fails: the text of a reference, cut and added to at each place; and the scanner of references.
pub fn run_vectors(rt: &HostRuntime) -> Result<(), HarnessOutOfMemory> {
    let mut harness = Harness::new(rt)?;
    references::all(&mut harness)?;
    scanner::all(&mut harness);
    Ok(())
}

/// Each call on a text or on a record made in code that allocates: the baseline's result, or `Memory`. The baseline itself never has
/// `Memory`; `tools/alloc_failures` makes these calls once for each allocation, with that one failing.
pub fn run_calls(rt: &HostRuntime) -> Result<(), HarnessOutOfMemory> {
    let mut harness = Harness::new(rt)?;
    texts::all(&mut harness);
    made::all(&mut harness);
    roots::all(&mut harness)?;
    harness.end_calls();
    Ok(())
}
