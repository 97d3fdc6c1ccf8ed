use super::rows::{FAILING_WRITERS, REPLIES};
use crate::checks::{check, check_io};
use oci_base::Result;
use oci_distribution::ErrorResponse;
use oci_json::{from_slice, normalize, to_string, to_string_pretty, to_writer, to_writer_pretty};
use oci_test_support::{Harness, Manner};
use std::alloc::Global;
use std::io::ErrorKind;

/// An engine that writes.
enum Engine {
    Compact,
    Pretty,
    Normal,
}

static ENGINES: [Engine; 3] = [Engine::Compact, Engine::Pretty, Engine::Normal];

fn reply(alloc: Global, text: &str) -> Result<ErrorResponse> {
    from_slice(alloc, text.as_bytes())
}

fn compact_of(alloc: Global, text: &str) -> Result<String> {
    to_string(&reply(alloc, text)?, alloc)
}

fn pretty_of(alloc: Global, text: &str) -> Result<String> {
    to_string_pretty(&reply(alloc, text)?, alloc)
}

/// The compact and the pretty text.
fn texts(harness: &mut Harness<'_>) {
    let alloc = harness.rt.alloc();
    for (text, compact, pretty) in &REPLIES {
        check(harness, text, compact_of(alloc, text), Ok(*compact));
        check(harness, text, pretty_of(alloc, text), Ok(*pretty));
    }
}

/// Reads an error reply, and writes it by the engine.
fn write_by(harness: &mut Harness<'_>, engine: &Engine, text: &str, manner: Manner) -> Result<()> {
    let alloc = harness.rt.alloc();
    harness.output.begin(manner);
    let output = &mut harness.output;
    match engine {
        Engine::Compact => to_writer(&reply(alloc, text)?, alloc, output),
        Engine::Pretty => to_writer_pretty(&reply(alloc, text)?, alloc, output),
        Engine::Normal => normalize::<ErrorResponse, _, _>(alloc, text.as_bytes(), output),
    }
}

/// The text that the engine writes of a reply.
fn expected_by(engine: &Engine, row: &(&str, &'static str, &'static str)) -> &'static str {
    match engine {
        Engine::Pretty => row.2,
        _ => row.1,
    }
}

/// The engine writes the whole text, so many bytes at once, and flushes once.
fn check_written(
    harness: &mut Harness<'_>,
    engine: &Engine,
    most: usize,
    row: &(&str, &'static str, &'static str),
) {
    let manner = Manner {
        most_written: most,
        ..Manner::AMPLE
    };
    let answer = write_by(harness, engine, row.0, manner);
    let text = expected_by(engine, row).as_bytes();
    let kept = answer.is_ok() && harness.output.is_done(text);
    harness.count(row.0, most, kept);
}

/// The whole text is written, however little is taken at once, and flushed once behind its end.
fn writers(harness: &mut Harness<'_>) {
    for row in &REPLIES {
        for engine in &ENGINES {
            for most in [1, 10, usize::MAX] {
                check_written(harness, engine, most, row);
            }
        }
    }
}

/// The call returns the error, and a beginning of the text was written.
fn check_begun(
    harness: &mut Harness<'_>,
    engine: &Engine,
    row: &(usize, usize, bool, ErrorKind, usize),
) {
    let (most_written, bad_write, bad_flush, fault, count) = *row;
    let manner = Manner {
        most_written,
        bad_write,
        bad_flush,
        fault: Some(fault),
        lasting: false,
        ..Manner::AMPLE
    };
    let answer = write_by(harness, engine, REPLIES[1].0, manner);
    check_io(harness, "failing writer", answer, fault);
    let expected = expected_by(engine, &REPLIES[1]).as_bytes();
    let begun = expected.get(..count.min(expected.len()));
    let kept = Some(harness.output.taken()) == begun;
    harness.count("failing writer", count, kept);
}

/// A write or a flush that fails, also one that is interrupted, is answered as it failed; a beginning of the text was written.
fn failing_writers(harness: &mut Harness<'_>) {
    for row in &FAILING_WRITERS {
        for engine in &ENGINES {
            check_begun(harness, engine, row);
        }
    }
}

pub fn all(harness: &mut Harness<'_>) {
    texts(harness);
    writers(harness);
    harness.end("engines", "texts written");
    failing_writers(harness);
    harness.end("engines", "failing writers");
}
