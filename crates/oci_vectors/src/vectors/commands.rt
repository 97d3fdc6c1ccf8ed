//! Commands and their answers, in the rows of a file. The lines of a row are marked:
//!
//! - `$`: the words, with a space between two;
//! - `<`: the input, which is read; where there is none, nothing is read;
//! - `>`: a line that is written, and `=` one that is written without a newline;
//! - `!`: a line on standard error. The status is 0 if there is none, 2 if it is the usage line, and else 1.
//!
//! In the place of its answer a command may tell `Memory`, which is counted.

use crate::command::status;
use oci_test_support::{Harness, HarnessOutOfMemory, Input, Manner};
use std::alloc::Global;

/// Returns what the row's first line with this mark says.
fn marked<'a>(row: &'a str, mark: &str) -> Option<&'a str> {
    for line in row.split("\n") {
        let rest = line.strip_prefix(mark);
        if rest.is_some() {
            return rest;
        }
    }
    None
}

/// Adds what all lines with this mark say, each with its newline.
fn add_marked(
    text: &mut String,
    row: &str,
    mark: &str,
    end: &str,
) -> Result<(), HarnessOutOfMemory> {
    for line in row.split("\n") {
        if let Some(rest) = line.strip_prefix(mark) {
            text.push_str(rest)?;
            text.push_str(end)?;
        }
    }
    Ok(())
}

fn split(alloc: Global, text: &str) -> Result<Vec<String>, HarnessOutOfMemory> {
    let mut words = Vec::new(alloc);
    for word in text.split(" ") {
        words.push(String::from_str(alloc, word)?)?;
    }
    Ok(words)
}

fn status_of(told: &str) -> u8 {
    if told.is_empty() {
        0
    } else if told.starts_with("usage") {
        2
    } else {
        1
    }
}

/// Whether the last command wrote and reported what its row says, with this status.
fn is_answered(harness: &Harness<'_>, row: &str, status: u8) -> Result<bool, HarnessOutOfMemory> {
    let mut written = String::new(harness.rt.alloc());
    add_marked(&mut written, row, "> ", "\n")?;
    add_marked(&mut written, row, "= ", "")?;
    let mut told = String::new(harness.rt.alloc());
    add_marked(&mut told, row, "! ", "\n")?;
    let is_told = status == status_of(told.as_str());
    Ok(is_told && harness.has_answered(written.as_bytes(), told.as_str()))
}

/// A command answers as its row says.
pub fn answers(harness: &mut Harness<'_>, row: &str) -> Result<(), HarnessOutOfMemory> {
    let line = marked(row, "$ ").unwrap_or("");
    let words = split(harness.rt.alloc(), line)?;
    let given = marked(row, "< ");
    let mut input = Input::new(given.unwrap_or("{}").as_bytes(), Manner::AMPLE);
    let status = status(harness, words.as_slice(), &mut input, Manner::AMPLE);
    let is_read = given.is_some() == (input.reads > 0);
    let kept = if harness.has_told("refused: Memory\n") {
        harness.has_no_memory() && status == 1
    } else {
        is_read && is_answered(harness, row, status)?
    };
    harness.count(line, 0, kept);
    Ok(())
}
