//! The rows of a file, with an empty line between them.
use crate::rules::books::{broken_of, platform_of};
use crate::rules::lint::{check_twice, check_unknown};
use crate::rules::policies::check_refused;
use anyhow::{Context, Result};
use oci_rules::Broken;
use serde_json::Value;
use std::alloc::Global;
use std::fs;
use std::rt::Files;

/// Checks the rows of a file, and prints each that differs, and how many there are.
pub fn rows<R: Files + Print + AllocGlobal>(rt: &R, file: &str) {
    if let Err(fault) = check_rows(rt, file) {
        let _ = println!(rt; "{file}: {fault}");
    }
}

/// The text of a file of rows.
pub fn read<R: Files + AllocGlobal>(rt: &R, file: &str) -> Result<String> {
    let path = format!(in rt.alloc(); "rules/{file}.rows")?;
    Ok(fs::read_to_string(rt, path.as_str())?)
}

fn check_rows<R: Files + Print + AllocGlobal>(rt: &R, file: &str) -> Result<()> {
    let text = read(rt, file)?;
    let mut count = 0u64;
    for row in text.as_str().trim().split("\n\n") {
        if !row.starts_with('#') {
            check_row(rt, file, row)?;
            count = count.saturating_add(1);
        }
    }
    count_rows(rt, file, count)
}

/// Prints how many rows a file has.
pub fn count_rows<R: Print>(rt: &R, file: &str, count: u64) -> Result<()> {
    println!(rt; "{file}: {count} rows")?;
    Ok(())
}

/// The three parts of a row: its first line, its second, and what is expected.
pub fn parts(row: &str) -> Result<(&str, &str, &str)> {
    let (first, rest) = row.split_once('\n').context("a row has one line")?;
    let (second, expected) = rest.split_once('\n').context("a row has two lines")?;
    Ok((first, second, expected.trim()))
}

/// Prints a row of which something else is found than it expects.
pub fn compare<R: Print>(rt: &R, file: &str, row: &str, found: &str, expected: &str) -> Result<()> {
    if found != expected {
        println!(rt; "{file}: {row}\nfound {found}")?;
    }
    Ok(())
}

fn check_row<R: Print + AllocGlobal>(rt: &R, file: &str, row: &str) -> Result<()> {
    match file {
        "refused" => check_refused(rt, row),
        "unknown" => check_unknown(rt, row),
        "twice" => check_twice(rt, row),
        kind => check_document(rt, kind, row),
    }
}

/// Checks a row of a kind of documents.
fn check_document<R: Print + AllocGlobal>(rt: &R, kind: &str, row: &str) -> Result<()> {
    let (platform, document, expected) = parts(row)?;
    let found = listed(kind, platform, document, rt.alloc())?;
    compare(rt, kind, row, found.as_str(), expected)
}

/// What breaks the rules in the text of a document.
fn listed(kind: &str, platform: &str, document: &str, alloc: Global) -> Result<String> {
    let value = Value::from_str(alloc, document)?;
    let found = broken_of(kind, platform_of(platform, &value)?, &value, alloc)?;
    line_of(&found, alloc)
}

/// What is listed, as a row has it.
pub fn line_of(found: &Vec<Broken<'_>>, alloc: Global) -> Result<String> {
    let mut line = String::new(alloc);
    for it in found {
        if !line.is_empty() {
            line.push_str("  ")?;
        }
        line.push_str(it.rule.name)?;
        if !it.pointer.is_empty() {
            line.push(' ')?;
            line.push_str(it.pointer.as_str())?;
        }
    }
    if line.is_empty() {
        line.push('-')?;
    }
    Ok(line)
}
