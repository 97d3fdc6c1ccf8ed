//! The program `oci_test_documents`: tests of texts, references and documents of all three specifications that are made in code, and of
//! the engines that read and write them: of what no contract says. It prints how many cases of each group it ran, and each case that
//! broke its rule.
#![tactic(auto)]

mod checks;
mod distribution;
mod engines;
mod errors;
mod files;
mod linux;
mod long;
mod platforms;
mod process;
mod references;
mod runtime;

use oci_test_support::{Harness, HarnessOutOfMemory, exit};
use std::process::ExitCode;

/// All groups.
fn run(rt: &HostRuntime) -> Result<(), HarnessOutOfMemory> {
    let mut harness = Harness::new(rt)?;
    errors::all(&mut harness);
    distribution::all(&mut harness);
    engines::all(&mut harness)?;
    files::all(&mut harness)?;
    long::all(&mut harness)?;
    references::all(&mut harness)?;
    linux::all(&mut harness);
    platforms::all(&mut harness);
    process::all(&mut harness)?;
    runtime::all(&mut harness);
    harness.end_calls();
    Ok(())
}

fn main(rt: HostRuntime) -> ExitCode {
    exit(&rt, run(&rt))
}
