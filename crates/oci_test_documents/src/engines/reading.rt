use super::rows::{FAILING_READERS, LISTS};
use crate::checks::{Answer, check, check_io, repeated, written};
use oci_base::Result;
use oci_distribution::RepositoryList;
use oci_json::{from_reader, from_slice, normalize};
use oci_model::{Optional, nested, read_members};
use oci_test_support::{Harness, HarnessOutOfMemory, Input, Manner};
use serde_json::Value;
use std::alloc::Global;
use std::io::ErrorKind;

fn by_slice(alloc: Global, bytes: &[u8]) -> Result<String> {
    let list: Result<RepositoryList> = from_slice(alloc, bytes);
    written(alloc, list)
}

fn by_reader(alloc: Global, input: Input<'_>) -> Result<String> {
    let list: Result<RepositoryList> = from_reader(alloc, input);
    written(alloc, list)
}

/// The same answer by a slice, and by readers that give little and much at once.
fn check_reading(harness: &mut Harness<'_>, case: &str, bytes: &[u8], expected: Answer<'_>) {
    let alloc = harness.rt.alloc();
    check(harness, case, by_slice(alloc, bytes), expected);
    for most_read in [1, 7, usize::MAX] {
        let manner = Manner {
            most_read,
            ..Manner::AMPLE
        };
        let found = by_reader(alloc, Input::new(bytes, manner));
        check(harness, case, found, expected);
    }
}

/// What bytes are read as, and how they are refused.
fn lists(harness: &mut Harness<'_>) {
    for (bytes, expected) in &LISTS {
        let case = str::from_utf8(bytes).unwrap_or("no UTF-8");
        check_reading(harness, case, bytes, *expected);
    }
    harness.end("engines", "texts read");
}

/// A list with a member that nests so deep.
const NEST_BEGIN: &str = "{\"repositories\":[],\"other\":";

/// How deep a text nests, and the answer.
static NESTING: [(usize, Answer<'_>); 3] = [
    (126, Ok("{\"repositories\":[]}")),
    (127, Err(("Json", ""))),
    (5000, Err(("Json", ""))),
];

/// A text nests 127 deep at most.
fn nesting(harness: &mut Harness<'_>) -> std::result::Result<(), HarnessOutOfMemory> {
    let alloc = harness.rt.alloc();
    for (depth, expected) in &NESTING {
        let end = repeated(alloc, "", "]", *depth, "}")?;
        let text = repeated(alloc, NEST_BEGIN, "[", *depth, end.as_str())?;
        check_reading(harness, "nested", text.as_bytes(), *expected);
    }
    harness.end("engines", "nested texts");
    Ok(())
}

/// Lengths of a name: where the text ends with what is read at once, past 64 KiB, and past 1 MiB.
static LENGTHS: [usize; 6] = [4073, 4074, 4075, 4076, 70_000, 1_100_000];

/// A text that is longer than what is read at once.
fn long_texts(harness: &mut Harness<'_>) -> std::result::Result<(), HarnessOutOfMemory> {
    let alloc = harness.rt.alloc();
    for count in &LENGTHS {
        let text = repeated(alloc, "{\"repositories\":[\"", "a", *count, "\"]}")?;
        check_reading(harness, "long", text.as_bytes(), Ok(text.as_str()));
    }
    harness.end("engines", "long texts");
    Ok(())
}

/// The bytes by a reader that fails as the row says.
fn failing<'a>(text: &'a str, row: &(usize, usize, ErrorKind)) -> Input<'a> {
    let (most_read, bad_read, fault) = *row;
    let manner = Manner {
        most_read,
        bad_read,
        fault: Some(fault),
        lasting: false,
        ..Manner::AMPLE
    };
    Input::new(text.as_bytes(), manner)
}

fn check_failing(harness: &mut Harness<'_>, text: &str, row: &(usize, usize, ErrorKind)) {
    let alloc = harness.rt.alloc();
    let read = by_reader(alloc, failing(text, row));
    check_io(harness, text, read, row.2);
    harness.output.begin(Manner::AMPLE);
    let input = failing(text, row);
    let answer = normalize::<RepositoryList, _, _>(alloc, input, &mut harness.output);
    check_io(harness, text, answer, row.2);
    let kept = harness.output.is_untouched();
    harness.count(text, row.1, kept);
}

/// A read that fails is answered as it failed, also behind bytes that are no JSON; nothing is written then.
fn failing_readers(harness: &mut Harness<'_>) {
    for row in &FAILING_READERS {
        check_failing(harness, "{\"repositories\":[]}", row);
        check_failing(harness, "no JSON in 19 bytes", row);
    }
    harness.end("engines", "failing readers");
}

/// Objects with a member that has two names, and what is read of it.
static SECOND_NAMES: [(&str, Answer<'_>); 6] = [
    ("{}", Ok("absent")),
    ("{\"a\":null}", Ok("absent")),
    ("{\"a\":\"x\"}", Ok("x")),
    ("{\"b\":\"x\"}", Ok("x")),
    ("{\"b\":5}", Err(("Trial", "a"))),
    ("{\"a\":\"x\",\"b\":\"x\"}", Err(("Trial", "a"))),
];

fn found(alloc: Global, value: Value) -> Result<String> {
    let nested!(text) = read_members::<nested!(Optional), _, _>(
        alloc,
        value,
        "Trial",
        nested!(("a", "b")),
    )?;
    match text {
        Some(text) => Ok(text),
        None => Ok(String::from_str(alloc, "absent")?),
    }
}

fn either(alloc: Global, text: &str) -> Result<String> {
    found(alloc, Value::from_str(alloc, text)?)
}

fn second_names(harness: &mut Harness<'_>) {
    let alloc = harness.rt.alloc();
    for (text, expected) in &SECOND_NAMES {
        check(harness, text, either(alloc, text), *expected);
    }
    harness.end("engines", "second names");
}

pub fn all(harness: &mut Harness<'_>) -> std::result::Result<(), HarnessOutOfMemory> {
    lists(harness);
    nesting(harness)?;
    long_texts(harness)?;
    failing_readers(harness);
    second_names(harness);
    Ok(())
}
