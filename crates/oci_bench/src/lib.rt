//! What `oci_tests bench` does, for tools that measure and compare. It makes one of the library's calls, or the JSON reader's and
//! writer's own, so often as is asked, for `tools/bench`, which counts instructions, time and memory. With `lanes` it reads
//! documents and says of each whether both ways to its canonical form agree, for `tools/fuzz --lanes`.
#![tactic(auto)]

mod arguments;
mod cases;
mod documents;
mod lanes;
mod references;
mod schemas;
mod tape;

use anyhow::{Context, Result};
use arguments::Task;
use std::io::Read;
use std::process::ExitCode;
use std::{env, fs};

const USAGE: &str =
    "usage: oci_tests bench KIND FILE COUNT floor | tape | value | normalize | bytes | fresh | from_slice | to_value
       oci_tests bench texts FILE COUNT from_str | parts | scanner
       oci_tests bench lanes < DOCUMENTS
KIND: manifest | index | config | artifact | layout | descriptor | error | repositories | tags | reference | spec | state | process-state | features
FILE: a document of that kind, or for texts one reference a line
COUNT: how often the call is made
DOCUMENTS: documents, each behind a line with its kind and how many bytes it has";

/// All bytes of a file.
fn input(rt: &HostRuntime, path: &str) -> Result<Vec<u8>> {
    fs::read(rt, path).context(format_args!("reading {path:?}"))
}

/// Does the task that the words ask for.
fn perform(rt: &HostRuntime, task: Task<'_>) -> Result<()> {
    let alloc = rt.alloc();
    match task {
        Task::Typed(kind, path, run) => {
            documents::perform(alloc, kind, input(rt, path)?.as_slice(), run)
        }
        Task::Schema(kind, path, run) => {
            schemas::perform(alloc, kind, input(rt, path)?.as_slice(), run)
        }
        Task::Texts(path, run) => references::perform(alloc, input(rt, path)?.as_slice(), run),
    }
}

/// All words behind the program's own name and `bench`.
fn words(rt: &HostRuntime) -> Result<Vec<String>> {
    let mut words = Vec::new(rt.alloc());
    for word in env::args(rt)?.skip(2) {
        words.push(word)?;
    }
    Ok(words)
}

/// Compares both lanes on the documents of standard input.
fn compare_input(rt: &HostRuntime) -> Result<ExitCode> {
    let mut documents = Vec::new(rt.alloc());
    rt.stdin().read_to_end(&mut documents)?;
    lanes::compare_all(rt, documents.as_slice())
}

fn perform_words(rt: &HostRuntime) -> Result<ExitCode> {
    let words = words(rt)?;
    if let [word] = words.as_slice() {
        if word.as_str() == "lanes" {
            return compare_input(rt);
        }
    }
    match Task::from_words(words.as_slice()) {
        Some(task) => {
            perform(rt, task)?;
            Ok(ExitCode::SUCCESS)
        }
        None => {
            eprintln!(rt; "{USAGE}")?;
            Ok(ExitCode::from(2))
        }
    }
}

/// The status of what was done, or 2 with a line if it could not be.
fn status_of(rt: &HostRuntime, done: Result<ExitCode>) -> ExitCode {
    match done {
        Ok(status) => status,
        Err(fault) => {
            let _ = eprintln!(rt; "refused: {fault}");
            ExitCode::from(2)
        }
    }
}

/// Does what the program's words ask for.
pub fn run(rt: &HostRuntime) -> ExitCode {
    status_of(rt, perform_words(rt))
}

/// Compares both lanes on the documents of a file.
pub fn run_lanes(rt: &HostRuntime, path: &str) -> ExitCode {
    match input(rt, path) {
        Ok(documents) => status_of(rt, lanes::compare_all(rt, documents.as_slice())),
        Err(fault) => status_of(rt, Err(fault)),
    }
}
