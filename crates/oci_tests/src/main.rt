//! The program `oci_tests`: golden tests over the files of `data/` and robustness tests, whose parts are libraries, so that the code of
//! the records is compiled once for all of them. Each part prints how many rows or cases it had, and each that is not as it has to be.
//!
//! With no argument it runs all parts, each behind a line `== PART`; with an argument that part alone. With `list` it lists what breaks
//! rules in the documents of standard input, for `tools/peers rules`; with `bench` and more words it makes a call so often as is asked,
//! for `tools/bench`. Before any proof: `rt try $(cd data && find * -type f -printf
//! "--data %p=data/%p ")`.
#![tactic(auto)]

use oci_test_support::{HarnessOutOfMemory, exit};
use std::env;
use std::process::ExitCode;

/// The parts, in the order in which they are run.
#[derive(Clone, Copy)]
enum Part {
    Golden,
    Tables,
    Defaults,
    Rules,
    Vectors,
    Calls,
    StringVectors,
    StringCalls,
    Lanes,
}

static PARTS: [(&str, Part); 9] = [
    ("golden", Part::Golden),
    ("tables", Part::Tables),
    ("defaults", Part::Defaults),
    ("rules", Part::Rules),
    ("vectors", Part::Vectors),
    ("calls", Part::Calls),
    ("string-vectors", Part::StringVectors),
    ("string-calls", Part::StringCalls),
    ("lanes", Part::Lanes),
];

fn run(rt: &HostRuntime, part: Part) -> Result<(), HarnessOutOfMemory> {
    match part {
        Part::Golden => oci_test_tables::golden::run(rt),
        Part::Tables => oci_test_tables::golden::tables::run(rt),
        Part::Defaults => oci_test_tables::defaults::run(rt),
        Part::Rules => oci_test_tables::rules::run(rt),
        Part::Vectors => return oci_vectors::run_vectors(rt),
        Part::Calls => return oci_vectors::run_calls(rt),
        Part::StringVectors => return oci_vectors::memory::run_vectors(rt),
        Part::StringCalls => return oci_vectors::memory::run_calls(rt),
        Part::Lanes => {
            let _ = oci_bench::run_lanes(rt, "lanes/documents");
        }
    }
    Ok(())
}

fn run_all(rt: &HostRuntime) -> Result<(), HarnessOutOfMemory> {
    for (name, part) in &PARTS {
        println!(rt; "== {name}")?;
        run(rt, *part)?;
    }
    Ok(())
}

fn part_of(word: &str) -> Option<Part> {
    for (name, part) in &PARTS {
        if *name == word {
            return Some(*part);
        }
    }
    None
}

/// Runs what the word asks for, and returns the status.
fn run_named(rt: &HostRuntime, word: &str) -> ExitCode {
    match word {
        "list" => listed(rt),
        "bench" => oci_bench::run(rt),
        _ => match part_of(word) {
            Some(part) => exit(rt, run(rt, part)),
            None => ExitCode::from(2),
        },
    }
}

fn listed(rt: &HostRuntime) -> ExitCode {
    match oci_test_tables::rules::list(rt) {
        Ok(()) => ExitCode::SUCCESS,
        Err(fault) => {
            let _ = eprintln!(rt; "{fault}");
            ExitCode::from(1)
        }
    }
}

fn main(rt: HostRuntime) -> ExitCode {
    let Ok(mut words) = env::args(&rt) else {
        return exit(&rt, Err(HarnessOutOfMemory));
    };
    match words.nth(1) {
        Some(word) => run_named(&rt, word.as_str()),
        None => exit(&rt, run_all(&rt)),
    }
}
