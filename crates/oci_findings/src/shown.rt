//! Findings on documents that were read, with the values that they are about.
ghost use Rattle.std.specs.Prelude.{◌≡◌, ◌++◌, ◌∷◌, [], IfErr, IfOk, OnOk, map};
ghost use Rattle.oci_findings.specs.Contents.{IsNoJsonCause, fact, violation_fact};
ghost use Rattle.oci_findings.specs.Findings.{told, told_of};

use crate::finding::{Cause, Finding, Severity};
use crate::json_fault::fault_in;
use crate::place::{START, place_behind};
use oci_schema::{Expected, Violation};
use serde_json::{Error, Value};
use std::alloc::{AllocError, Global};

/// How many characters of a value are shown, so that a line stays readable beside its place and its rule.
const SHOWN: usize = 40;

/// How many of them are its last ones, where it is longer: names of files, digests and versions tell most at their ends.
const SHOWN_LAST: usize = 16;

/// What is shown in place of those between.
const DOTS: &str = "...";

/// How many of a media type, in quotes: both of its parts have 127 at most (RFC 6838, section 4.2), so it is shown whole.
const MEDIA_TYPE: usize = 257;

/// A finding for each violation of a schema by a value, in their order. Fails if out of memory.
pub fn violation_findings<'a>(
    listed: &Vec<Violation>,
    value: &Value,
    alloc: Global,
) -> Result<Vec<Finding<'a>>, AllocError>
    ensures told { IfOk result (λ v. map told v.items ≡ map told_of listed.now.items) }
    ensures facts { IfOk result (λ v. map fact v.items ≡ map violation_fact listed.now.items) }
{
    let mut found = Vec::new(alloc);
    for violation in listed {
        add_violation(violation, value, &mut found, alloc)?;
    }
    Ok(found)
}

fn add_violation<'a>(
    violation: &Violation,
    value: &Value,
    found: &mut Vec<Finding<'a>>,
    alloc: Global,
) -> Result<(), AllocError>
    ensures told { OnOk result (map told found.new.items ≡ map told found.old.items ++ told_of violation.now ∷ []) }
    ensures fact { OnOk result (map fact found.new.items ≡ map fact found.old.items ++ violation_fact violation.now ∷ []) }
{
    let finding = violation_finding(violation, value, alloc)?;
    found.push(finding)?;
    Ok(())
}

fn violation_finding<'a>(
    violation: &Violation,
    value: &Value,
    alloc: Global,
) -> Result<Finding<'a>, AllocError>
    ensures told { IfOk result (λ f. told f ≡ told_of violation.now) }
    ensures fact { IfOk result (λ f. fact f ≡ violation_fact violation.now) }
{
    let shown = shown_of(violation, value, alloc)?;
    Ok(Finding {
        pointer: String::from_str(alloc, violation.pointer.as_str())?,
        cause: Cause::Schema(violation.expected, shown),
        severity: Severity::Error,
    })
}

/// The text of the value that is not what is expected, if it is there.
fn shown_of(
    violation: &Violation,
    value: &Value,
    alloc: Global,
) -> Result<Option<String>, AllocError> {
    match violation.expected {
        Expected::Value(_) => shown_at(value, violation.pointer.as_str(), alloc),
        _ => Ok(None),
    }
}

/// The text of the value at a pointer, cut in its middle if it is long. A media type is shown whole. Fails if out of memory.
pub fn shown_at(value: &Value, pointer: &str, alloc: Global) -> Result<Option<String>, AllocError> {
    let Some(part) = value.pointer(pointer) else {
        return Ok(None);
    };
    let text = part.to_string(alloc)?;
    Ok(Some(cut(text.as_str(), limit_at(pointer), alloc)?))
}

/// The name at which a pointer ends, as a JSON string that is cut in its middle if it is long. Fails if out of memory.
pub fn name_at(pointer: &str, alloc: Global) -> Result<Option<String>, AllocError> {
    let Some((_, name)) = pointer.rsplit_once('/') else {
        return Ok(None);
    };
    let text = Value::String(unescaped(name, alloc)?).to_string(alloc)?;
    Ok(Some(cut(text.as_str(), SHOWN, alloc)?))
}

/// The name of a step of a pointer (RFC 6901, section 4).
fn unescaped(step: &str, alloc: Global) -> Result<String, AllocError> {
    let mut name = String::new(alloc);
    let mut is_escape = false;
    for c in step.chars() {
        if is_escape {
            name.push(if c == '1' { '/' } else { '~' })?;
            is_escape = false;
        } else if c == '~' {
            is_escape = true;
        } else {
            name.push(c)?;
        }
    }
    Ok(name)
}

/// How many characters of the value at a pointer are shown.
fn limit_at(pointer: &str) -> usize {
    if pointer.ends_with("/mediaType") || pointer.ends_with("/artifactType") {
        MEDIA_TYPE
    } else {
        SHOWN
    }
}

/// A text, or its first and its last characters with three dots between them, as many in all as the limit.
fn cut(text: &str, limit: usize, alloc: Global) -> Result<String, AllocError> {
    let count = text.chars().count();
    if count <= limit {
        return String::from_str(alloc, text);
    }
    let first = limit.saturating_sub(SHOWN_LAST + DOTS.len());
    let mut shown = String::new(alloc);
    shown.push_str(front(text, first))?;
    shown.push_str(DOTS)?;
    shown.push_str(behind(text, count.saturating_sub(SHOWN_LAST)))?;
    Ok(shown)
}

/// The first so many characters.
fn front(text: &str, count: usize) -> &str {
    match text.char_indices().nth(count) {
        Some((end, _)) => text.get(..end).unwrap_or(text),
        None => text,
    }
}

/// The characters behind the first so many.
fn behind(text: &str, count: usize) -> &str {
    match text.char_indices().nth(count) {
        Some((start, _)) => text.get(start..).unwrap_or(""),
        None => "",
    }
}

/// That the bytes are not JSON, where they are not and why, or else what the reader of them says. Fails if out of memory.
pub fn json_cause<'a>(fault: &Error, bytes: &[u8], alloc: Global) -> Result<Cause<'a>, AllocError>
    ensures { IfOk result IsNoJsonCause }
{
    if let Some(found) = fault_in(bytes, alloc)? {
        let place = place_behind(bytes.get(..found.at).unwrap_or(bytes));
        return Ok(Cause::Json(found.told, place));
    }
    let said = fault.to_string(alloc)?;
    let told = match said.as_str().split_once(" at line ") {
        Some((told, _)) => String::from_str(alloc, told)?,
        None => said,
    };
    let place = place_behind(before(bytes, fault.line(), fault.column()));
    Ok(Cause::Json(told, place))
}

/// The value of some bytes, or that they are not JSON. Fails if out of memory.
pub fn read_value<'a>(bytes: &[u8], alloc: Global) -> Result<Result<Value, Cause<'a>>, AllocError>
    ensures { IfOk result (λ r. IfErr r IsNoJsonCause) }
{
    match Value::from_slice(alloc, bytes) {
        Ok(value) => Ok(Ok(value)),
        Err(fault) if fault.is_memory() => Err(AllocError),
        Err(fault) => Ok(Err(json_cause(&fault, bytes, alloc)?)),
    }
}

/// That bytes are not JSON, which were read before and were none.
pub(crate) fn json_cause_of<'a>(bytes: &[u8], alloc: Global) -> Result<Cause<'a>, AllocError>
    ensures { IfOk result IsNoJsonCause }
{
    match read_value(bytes, alloc)? {
        Ok(_) => Ok(Cause::Json(String::from_str(alloc, "invalid JSON")?, START)),
        Err(cause) => Ok(cause),
    }
}

/// The value of bytes that were read before; null where they are not JSON.
pub(crate) fn value_of(bytes: &[u8], alloc: Global) -> Result<Value, AllocError> {
    match read_value(bytes, alloc)? {
        Ok(value) => Ok(value),
        Err(_) => Ok(Value::Null),
    }
}

/// The bytes before a line and a column that counts bytes.
fn before(bytes: &[u8], line: usize, column: usize) -> &[u8] {
    let mut start = 0;
    let mut left = line;
    for (index, byte) in bytes.iter().enumerate() {
        if left > 1 && *byte == b'\n' {
            left -= 1;
            start = index;
        }
    }
    let skipped = if line > 1 {
        column
    } else {
        column.saturating_sub(1)
    };
    let end = start.saturating_add(skipped).min(bytes.len());
    bytes.get(..end).unwrap_or(bytes)
}
