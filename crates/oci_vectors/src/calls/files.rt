//! The calls on files: a file is unchanged if out of memory, or if a document is not serializable.

use oci_json::{from_file, from_slice, to_file, to_file_pretty, to_string};
use oci_model::OciRecord;
use oci_spec::distribution::ErrorResponse;
use oci_spec::runtime::{ExecCPUAffinity, Process, ProcessBuilder, Spec, SpecBuilder, State};
use oci_spec::{OciSpecError, Result, SerDeError};
use oci_test_support::{Harness, HarnessOutOfMemory};
use std::alloc::Global;
use std::fs;

/// A document, as it is written.
const REPLY: &str = r#"{"errors":[{"code":"DENIED","detail":5}]}"#;

fn reply(alloc: Global) -> Result<ErrorResponse> {
    from_slice(alloc, REPLY.as_bytes())
}

/// A process with a text that is no CPU list.
fn unwritable_process(alloc: Global) -> Result<Process> {
    let text = String::from_str(alloc, "x")?;
    let mut affinity = ExecCPUAffinity::try_default(alloc)?;
    affinity.set_initial(Some(text));
    ProcessBuilder::default()
        .exec_cpu_affinity(affinity)
        .build(alloc)
}

fn unwritable(alloc: Global) -> Result<Spec> {
    let process = unwritable_process(alloc)?;
    SpecBuilder::default().process(process).build(alloc)
}

/// A call that writes a document to a file.
enum Call {
    Compact,
    Pretty,
    Save,
    UnwritableCompact,
    UnwritablePretty,
    UnwritableSave,
}

/// A call, and the bytes of the file after it, if its document is serializable.
static CALLS: [(Call, &str, Option<&str>); 6] = [
    (Call::Compact, "to_file", Some(REPLY)),
    (
        Call::Pretty,
        "to_file_pretty",
        Some(
            "{\n  \"errors\": [\n    {\n      \"code\": \"DENIED\",\n      \"detail\": 5\n    }\n  ]\n}",
        ),
    ),
    (
        Call::Save,
        "save",
        Some(r#"{"bundle":"","id":"","ociVersion":"","status":"stopped"}"#),
    ),
    (Call::UnwritableCompact, "to_file, unwritable", None),
    (Call::UnwritablePretty, "to_file_pretty, unwritable", None),
    (Call::UnwritableSave, "save, unwritable", None),
];

const PATH: &str = "kept.json";

const KEPT: &[u8] = b"these bytes stay";

/// Writes what was made.
fn put<T: OciRecord>(rt: &HostRuntime, made: Result<T>, is_pretty: bool) -> Result<()> {
    let document = made?;
    if is_pretty {
        to_file_pretty(rt, &document, rt.alloc(), PATH)
    } else {
        to_file(rt, &document, rt.alloc(), PATH)
    }
}

fn written(rt: &HostRuntime, call: &Call) -> Result<()> {
    let alloc = rt.alloc();
    match call {
        Call::Compact => put(rt, reply(alloc), false),
        Call::Pretty => put(rt, reply(alloc), true),
        Call::Save => State::try_default(alloc)?.save(rt, alloc, PATH),
        Call::UnwritableCompact => put(rt, unwritable(alloc), false),
        Call::UnwritablePretty => put(rt, unwritable(alloc), true),
        Call::UnwritableSave => unwritable(alloc)?.save(rt, alloc, PATH),
    }
}

/// The file is as the answer says.
fn is_kept(
    harness: &mut Harness<'_>,
    answer: &Result<()>,
    expected: Option<&str>,
    bytes: &[u8],
) -> bool {
    match answer {
        Ok(()) => match expected {
            Some(text) => bytes == text.as_bytes(),
            None => false,
        },
        Err(OciSpecError::Memory) => {
            harness.count_memory();
            bytes == KEPT
        }
        Err(OciSpecError::SerDe(SerDeError::Schema(_))) => expected.is_none() && bytes == KEPT,
        Err(_) => false,
    }
}

fn writes(harness: &mut Harness<'_>) -> std::result::Result<(), HarnessOutOfMemory> {
    for (call, name, expected) in &CALLS {
        fs::write(harness.rt, PATH, KEPT)?;
        let answer = written(harness.rt, call);
        let bytes = fs::read(harness.rt, PATH)?;
        let kept = is_kept(harness, &answer, *expected, bytes.as_slice());
        harness.count(name, 0, kept);
    }
    Ok(())
}

fn read(rt: &HostRuntime) -> Result<String> {
    let reply: ErrorResponse = from_file(rt, rt.alloc(), PATH)?;
    to_string(&reply, rt.alloc())
}

/// The default specification, saved and loaded.
fn loaded_spec(rt: &HostRuntime) -> Result<Spec> {
    Spec::try_default(rt.alloc())?.save(rt, rt.alloc(), PATH)?;
    Spec::load(rt, rt.alloc(), PATH)
}

/// The default state, saved and loaded.
fn loaded_state(rt: &HostRuntime) -> Result<State> {
    State::try_default(rt.alloc())?.save(rt, rt.alloc(), PATH)?;
    State::load(rt, rt.alloc(), PATH)
}

/// All calls on files.
pub fn all(harness: &mut Harness<'_>) -> std::result::Result<(), HarnessOutOfMemory> {
    writes(harness)?;
    let spec = Spec::try_default(harness.rt.alloc());
    harness.same("save and load", loaded_spec(harness.rt), spec);
    let state = State::try_default(harness.rt.alloc());
    harness.same("save and load", loaded_state(harness.rt), state);
    fs::write(harness.rt, PATH, REPLY)?;
    harness.answer("from_file", read(harness.rt), Ok(REPLY));
    fs::remove_file(harness.rt, PATH)?;
    harness.end("files", "calls");
    Ok(())
}
