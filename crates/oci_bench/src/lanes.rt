//! Both lanes, from a document's bytes to its canonical form, compact and pretty: straight from the bytes, and by way of a value.
use crate::cases::{Case, next_case};
use anyhow::Result as Done;
use oci_base::{OciSpecError, Result, SerDeError};
use oci_schema::by_value::{normalize, normalize_pretty};
use oci_schema::bytes::{Workspace, is_valid_bytes, normalize_bytes, normalize_pretty_bytes};
use oci_schema::is_valid;
use oci_schemas::OciRecords;
use serde_json::Value;
use std::alloc::Global;
use std::io::{BufWriter, Write};
use std::process::ExitCode;

/// The status if a document was normalized or checked in two ways.
const DIFFERENT: u8 = 1;

/// What both lanes did.
#[derive(Clone, Copy)]
enum Verdict {
    /// The same: the document was accepted, or rejected.
    Same(bool),
    /// Not the same.
    Different,
}

/// What a call did.
#[derive(Clone, Copy, PartialEq, Eq)]
enum Outcome {
    Done,
    NoJson,
    Invalid,
    Memory,
    Other,
}

fn outcome_of<T: Drop>(answer: &Result<T>) -> Outcome {
    match answer {
        Ok(_) => Outcome::Done,
        Err(OciSpecError::SerDe(SerDeError::Json(_))) => Outcome::NoJson,
        Err(OciSpecError::SerDe(SerDeError::Schema(_))) => Outcome::Invalid,
        Err(OciSpecError::Memory) => Outcome::Memory,
        Err(_) => Outcome::Other,
    }
}

/// Normalizes and checks a document in both ways, and compares what was written and reported. Fails if out of memory.
fn compare(alloc: Global, case: Case<'_>, workspace: &mut Workspace) -> Result<Verdict> {
    let schema = case.kind.schema();
    let mut by_value = Vec::new(alloc);
    let slow = normalize(&OciRecords, schema, alloc, case.bytes, &mut by_value);
    let mut by_bytes = Vec::new(alloc);
    let fast = normalize_bytes(
        &OciRecords,
        schema,
        alloc,
        case.bytes,
        workspace,
        &mut by_bytes,
    );
    let outcome = outcome_of(&slow);
    let same = outcome == outcome_of(&fast) && by_value.as_slice() == by_bytes.as_slice();
    if same && same_pretty(alloc, case, workspace) && same_validity(alloc, case, workspace)? {
        Ok(Verdict::Same(outcome == Outcome::Done))
    } else {
        Ok(Verdict::Different)
    }
}

/// Whether both ways write one pretty text, or report the same.
fn same_pretty(alloc: Global, case: Case<'_>, workspace: &mut Workspace) -> bool {
    let schema = case.kind.schema();
    let mut by_value = Vec::new(alloc);
    let slow = normalize_pretty(&OciRecords, schema, alloc, case.bytes, &mut by_value);
    let mut by_bytes = Vec::new(alloc);
    let fast = normalize_pretty_bytes(
        &OciRecords,
        schema,
        alloc,
        case.bytes,
        workspace,
        &mut by_bytes,
    );
    outcome_of(&slow) == outcome_of(&fast) && by_value.as_slice() == by_bytes.as_slice()
}

/// Whether both ways find the document valid, or neither does.
fn same_validity(alloc: Global, case: Case<'_>, workspace: &mut Workspace) -> Result<bool> {
    let schema = case.kind.schema();
    let fast = match is_valid_bytes(&OciRecords, schema, alloc, case.bytes, workspace) {
        Ok(valid) => valid,
        Err(OciSpecError::Memory) => return Err(OciSpecError::Memory),
        Err(_) => false,
    };
    let slow = match Value::from_slice(alloc, case.bytes) {
        Ok(value) => is_valid(&OciRecords, schema, &value),
        Err(_) => false,
    };
    Ok(fast == slow)
}

fn line_of(verdict: Verdict) -> &'static str {
    match verdict {
        Verdict::Same(true) => "same accepted\n",
        Verdict::Same(false) => "same rejected\n",
        Verdict::Different => "differs\n",
    }
}

/// Compares both ways on each document, and writes a line a document.
pub fn compare_all(rt: &HostRuntime, documents: &[u8]) -> Done<ExitCode> {
    let alloc = rt.alloc();
    let mut output = BufWriter::new(alloc, rt.stdout())?;
    let mut workspace = Workspace::new(alloc);
    let mut status = ExitCode::SUCCESS;
    let mut rest = documents;
    for _ in 0..documents.len() {
        let Some((case, later)) = next_case(rest) else {
            break;
        };
        rest = later;
        let verdict = compare(alloc, case, &mut workspace)?;
        if matches!(verdict, Verdict::Different) {
            status = ExitCode::from(DIFFERENT);
        }
        output.write_all(line_of(verdict).as_bytes())?;
    }
    output.flush()?;
    Ok(status)
}
