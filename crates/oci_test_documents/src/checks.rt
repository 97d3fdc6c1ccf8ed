//! How answers are compared, and texts made.

use oci_base::{OciSpecError, Result, SerDeError};
use oci_json::to_string;
use oci_model::OciRecord;
use oci_test_support::Harness;
use std::alloc::{AllocError, Global};
use std::io::ErrorKind;

/// A text that a call answers; or the kind of its refusal and what it names, of a document's the record and its member.
pub type Answer<'a> = std::result::Result<&'a str, (&'a str, &'a str)>;

fn refusal(error: &OciSpecError) -> (&str, &str) {
    match error {
        OciSpecError::Other(why) => ("Other", why.as_str()),
        OciSpecError::Io(_) => ("Io", ""),
        OciSpecError::SerDe(SerDeError::Json(_)) => ("Json", ""),
        OciSpecError::SerDe(SerDeError::Schema(fault)) => (fault.owner, fault.member),
        OciSpecError::Builder(fault) => ("Builder", fault.field_name()),
        OciSpecError::Memory => ("Memory", ""),
    }
}

/// Whether a call answers what was expected.
fn is_answer(found: &Result<String>, expected: Answer<'_>) -> bool {
    match found {
        Ok(text) => expected == Ok(text.as_str()),
        Err(error) => expected == Err(refusal(error)),
    }
}

/// Counts a call that answers what was expected.
pub fn check(harness: &mut Harness<'_>, case: &str, found: Result<String>, expected: Answer<'_>) {
    let kept = is_answer(&found, expected);
    harness.count(case, 0, kept);
}

/// Counts a call that is refused as was expected.
pub fn check_refused(
    harness: &mut Harness<'_>,
    case: &str,
    found: Result<()>,
    expected: (&str, &str),
) {
    let kept = match &found {
        Ok(()) => false,
        Err(error) => refusal(error) == expected,
    };
    harness.count(case, 0, kept);
}

/// Counts a call that fails with this error of a stream.
pub fn check_io<T: Drop>(
    harness: &mut Harness<'_>,
    case: &str,
    found: Result<T>,
    expected: ErrorKind,
) {
    let kept = match &found {
        Err(OciSpecError::Io(fault)) => fault.kind() == expected,
        _ => false,
    };
    harness.count(case, 0, kept);
}

/// The compact text of a document that was made.
pub fn written<T: OciRecord>(alloc: Global, made: Result<T>) -> Result<String> {
    to_string(&made?, alloc)
}

/// A text, so many times a part, and an end.
pub fn repeated(
    alloc: Global,
    begin: &str,
    part: &str,
    count: usize,
    end: &str,
) -> std::result::Result<String, AllocError> {
    let mut text = String::from_str(alloc, begin)?;
    for _ in 0..count {
        text.push_str(part)?;
    }
    text.push_str(end)?;
    Ok(text)
}
