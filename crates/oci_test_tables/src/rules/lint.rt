//! The rows of unknown members, and of names that stand twice.
use crate::rules::rows::{compare, parts};
use anyhow::{Context, Result, bail};
use oci_schema::{UnknownMember, repeated_names, suggestion, unknown_members};
use oci_schemas::{Kind, oci_records};
use serde_json::Value;
use std::alloc::Global;

/// Checks a row of unknown members.
pub fn check_unknown<R: Print + AllocGlobal>(rt: &R, row: &str) -> Result<()> {
    let (word, document, expected) = parts(row)?;
    let found = unknown(word, document, rt.alloc())?;
    compare(rt, "unknown", row, found.as_str(), expected)
}

/// The unknown members of the text of a document.
fn unknown(word: &str, document: &str, alloc: Global) -> Result<String> {
    let kind = Kind::from_word(word).context("no kind of documents")?;
    let value = Value::from_str(alloc, document)?;
    let found = unknown_members(oci_records(), kind.schema(), &value, alloc)?;
    unknown_line(&found, alloc)
}

/// What is listed, as a row has it.
fn unknown_line(found: &Vec<UnknownMember>, alloc: Global) -> Result<String> {
    let mut line = String::new(alloc);
    for it in found {
        if !line.is_empty() {
            line.push_str("  ")?;
        }
        line.push_str(it.pointer.as_str())?;
        line.push(' ')?;
        let near = suggestion(it.owner.members, it.name.as_str(), alloc)?;
        line.push_str(near.unwrap_or("-"))?;
    }
    if line.is_empty() {
        line.push('-')?;
    }
    Ok(line)
}

/// Checks a row of names that stand twice.
pub fn check_twice<R: Print + AllocGlobal>(rt: &R, row: &str) -> Result<()> {
    let (_, text, expected) = parts(row)?;
    let found = twice(text, rt.alloc())?;
    compare(rt, "twice", row, found.as_str(), expected)
}

/// The names that stand twice in a text.
fn twice(text: &str, alloc: Global) -> Result<String> {
    let Ok(found) = repeated_names(text, alloc) else {
        bail!("a text is not JSON");
    };
    let mut line = String::new(alloc);
    for it in &found {
        if !line.is_empty() {
            line.push_str("  ")?;
        }
        line.push_str(it.as_str())?;
    }
    if line.is_empty() {
        line.push('-')?;
    }
    Ok(line)
}
