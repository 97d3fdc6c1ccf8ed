//! A reference's text, cut and added to at each place.

use oci_spec::distribution::{ParseError, Reference};
use oci_spec::runtime::is_cpu_list;
use oci_test_support::{Harness, HarnessOutOfMemory};
use std::alloc::{AllocError, Global};

const WHOLE: &str =
    "a.b/c:d@sha256:ffffffffffffffffffffffffffffffffffffffffffffffffffffffffffffffff";

const FORMAT: Option<ParseError> = Some(ParseError::ReferenceInvalidFormat);

/// How many beginnings of the whole text, each by one byte longer than the one before, are refused so; those without a refusal are accepted.
static BEGINNINGS: [(u32, Option<ParseError>); 11] = [
    (1, Some(ParseError::NameEmpty)),
    (1, None),
    (1, FORMAT),
    (1, None),
    (1, FORMAT),
    (1, None),
    (1, FORMAT),
    (1, None),
    (39, FORMAT),
    (32, Some(ParseError::DigestInvalidLength)),
    (1, None),
];

/// The text is refused so, or accepted.
pub fn is_answered(alloc: Global, text: &str, expected: Option<ParseError>) -> bool {
    Reference::from_str(alloc, text).err() == expected
}

/// Each beginning of a reference, the empty one and the whole among them.
fn prefixes(harness: &mut Harness<'_>) -> Result<(), HarnessOutOfMemory> {
    let alloc = harness.rt.alloc();
    let mut text = String::new(alloc);
    let mut rest = WHOLE.chars();
    for (count, expected) in &BEGINNINGS {
        for _ in 0..*count {
            let kept = is_answered(alloc, text.as_str(), *expected);
            harness.count("prefix of a reference", text.len(), kept);
            if let Some(next) = rest.next() {
                text.push(next)?;
            }
        }
    }
    harness.end("reference", "prefixes");
    Ok(())
}

const NAME: &str = "a.b/c:d";

static PUT: [char; 5] = [' ', '\n', '\0', '\u{e9}', '\u{663}'];

/// The name with a character put before the one at a place, or behind the last.
fn inserted(alloc: Global, put: char, place: usize) -> Result<String, AllocError> {
    let mut text = String::new(alloc);
    for next in NAME.chars() {
        if text.len() == place {
            text.push(put)?;
        }
        text.push(next)?;
    }
    if place >= NAME.len() {
        text.push(put)?;
    }
    Ok(text)
}

/// A character that no reference has, at each place; one of them is a digit beyond ASCII, which no CPU list has.
fn insertions(harness: &mut Harness<'_>) -> Result<(), HarnessOutOfMemory> {
    let alloc = harness.rt.alloc();
    for put in &PUT {
        for place in 0..=NAME.len() {
            let text = inserted(alloc, *put, place)?;
            let kept = is_answered(alloc, text.as_str(), FORMAT);
            harness.count("insertion", place, kept);
        }
    }
    harness.end("reference", "insertions");
    harness.count("list of processors", 0, !is_cpu_list("\u{663}"));
    harness.end("list of processors", "digits past ASCII");
    Ok(())
}

/// All groups of this half.
pub fn all(harness: &mut Harness<'_>) -> Result<(), HarnessOutOfMemory> {
    prefixes(harness)?;
    insertions(harness)
}
