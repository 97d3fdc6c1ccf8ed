//! The command `diff`.
ghost use Rattle.std.specs.Prelude.{◌≡◌, ◌++◌, ℕ, List, Some, IfOk, OnOk};
ghost use Rattle.serde_json.specs.View.{view};
ghost use Rattle.oci_model.specs.Means.{Means};
ghost use Rattle.oci_model.specs.Plain.{Plain};
ghost use Rattle.oci_model.specs.Value.{value as json_of};
ghost use Rattle.oci_schemas.specs.Kinds.{shape_of};
ghost use Rattle.oci_diff.specs.Same.{AreSame};
ghost use Rattle.oci_base.specs.Escaped.{IsLine};
ghost use Rattle.oci_findings.specs.Colors.{IsColoredLine};
ghost use Rattle.oci_commands.specs.Compared.{HoldSame, HoldUnequal, IsSide};
ghost use Rattle.oci_commands.specs.Done.{IsStatus};

use crate::asked::{Compare, Style};
use crate::files::Files;
use crate::texts::{complain, complain_of, is_wrong, report_findings};
use oci_base::{Result, line_of};
use oci_diff::{Change, Difference, differences};
use oci_findings::color::{Color, colored_line};
use oci_findings::inspect::{Reading, faulty, read_value};
use oci_json::write_text;
use oci_schema::by_value::normalize_value;
use oci_schemas::{Kind, OciRecords};
use serde_json::Value;
use std::alloc::{AllocError, Global};
use std::io::Write;

/// A document to compare, or why there is none.
#[derive(Drop)]
pub enum Side {
    /// The document.
    Document(Kind, Value),
    /// The file holds no valid document.
    Wrong,
    /// The file could not be read.
    Unread,
}

/// Writes what differs between the canonical forms of two documents. Returns 0 if nothing does, 1 if something does or one is invalid,
/// and 3 if one could not be read.
pub fn compare<S: Files, W: Write, E: Write>(
    asked: &Compare<'_>,
    alloc: Global,
    store: &mut S,
    writer: &mut W,
    errors: &mut E,
) -> Result<u8>
    ensures status { IfOk result IsStatus }
    ensures same { IfOk result (λ s. s ≡ 0 → HoldSame asked.now.kind asked.now.before.now (S.holds store.old asked.now.before.now) asked.now.after.now (S.holds store.old asked.now.after.now)) }
    ensures other { IfOk result (λ s. s ≡ 1 → HoldUnequal asked.now.kind asked.now.before.now (S.holds store.old asked.now.before.now) asked.now.after.now (S.holds store.old asked.now.after.now)) }
{
    let (kind, before) = match read_side(asked.kind, asked.before, alloc, store, errors)? {
        Side::Document(kind, value) => (kind, value),
        Side::Wrong => return Ok(1),
        Side::Unread => return Ok(3),
    };
    let (other, after) = match read_side(asked.kind, asked.after, alloc, store, errors)? {
        Side::Document(kind, value) => (kind, value),
        Side::Wrong => return Ok(1),
        Side::Unread => return Ok(3),
    };
    if kind == other {
        return write_differences(asked, &before, &after, alloc, writer);
    }
    say_kinds(asked, kind, other, alloc, errors)?;
    Ok(1)
}

/// Says that the documents are of two kinds.
fn say_kinds<E: Write>(
    asked: &Compare<'_>,
    kind: Kind,
    other: Kind,
    alloc: Global,
    errors: &mut E,
) -> Result<()> {
    let (before, after) = (asked.before, asked.after);
    let (first, second) = (kind.title(), other.title());
    let text = format!(in alloc; "ciderglen: {before} is {first}, and {after} is {second}")?;
    complain(line_of(text.as_str(), alloc)?.as_str(), errors);
    Ok(())
}

/// Writes what differs, and returns the status.
fn write_differences<W: Write>(
    asked: &Compare<'_>,
    before: &Value,
    after: &Value,
    alloc: Global,
    writer: &mut W,
) -> Result<u8>
    ensures status { IfOk result IsStatus }
    ensures same { IfOk result (λ s. s ≡ 0 → AreSame (view before.now) (view after.now)) }
    ensures other { IfOk result (λ s. s ≡ 1 → ¬ AreSame (view before.now) (view after.now)) }
{
    let found = differences(before, after, alloc)?;
    if !asked.quiet {
        let lines = lines_of(asked.style, &found, alloc)?;
        write_text(lines.as_slice(), writer)?;
    }
    Ok(if found.is_empty() { 0 } else { 1 })
}

/// Reads the canonical form of a document.
fn read_side<S: Files, E: Write>(
    asked: Option<Kind>,
    name: &str,
    alloc: Global,
    store: &mut S,
    errors: &mut E,
) -> Result<Side>
    ensures side { IfOk result (IsSide asked name.now (S.holds store.old name.now)) }
    ensures kept { S.holds store.new ≡ S.holds store.old }
{
    match store.read(alloc, name) {
        Ok(bytes) => side_of(asked, name, bytes.as_slice(), alloc, errors),
        Err(fault) => {
            complain_of(name, &fault, alloc, errors);
            Ok(Side::Unread)
        }
    }
}

/// The canonical form of the document in these bytes.
#[tactic(auto, using(crate::proofs::Sides::form_held, oci_findings::proofs::Allowed::not_allowed))]
fn side_of<E: Write>(
    asked: Option<Kind>,
    name: &str,
    bytes: &[u8],
    alloc: Global,
    errors: &mut E,
) -> Result<Side>
    ensures { IfOk result (IsSide asked name.now (Some bytes.now)) }
{
    match read_value(asked, name, bytes, alloc)? {
        Reading::Value(kind, value) => match normal_document(kind, value, alloc) {
            Ok(normal) => Ok(Side::Document(kind, normal)),
            Err(error) => {
                let wrong = is_wrong(asked, name, bytes, alloc, errors)?;
                if wrong { Ok(Side::Wrong) } else { Err(error) }
            }
        },
        Reading::Fault(fault) => {
            let found = faulty(fault, alloc)?;
            report_findings(name, &found, alloc, errors)?;
            Ok(Side::Wrong)
        }
    }
}

/// The canonical form of a document as a value.
fn normal_document(kind: Kind, value: Value, alloc: Global) -> Result<Value>
    ensures { IfOk result (λ v. (p : Plain) × Means (shape_of kind) (view value) p × (view v ≡ json_of (shape_of kind) p)) }
{
    normalize_value(&OciRecords, kind.schema(), value, alloc)
}

fn lines_of(style: Style, found: &Vec<Difference<'_>>, alloc: Global) -> Result<Vec<u8>> {
    let mut lines = Vec::new(alloc);
    for difference in found {
        match style {
            Style::Text => push_line(&mut lines, difference, alloc)?,
            Style::Color => push_colored_line(&mut lines, difference, alloc)?,
            _ => push_object(&mut lines, difference, alloc)?,
        }
    }
    Ok(lines)
}

/// Adds the line of a difference for people.
fn push_line(
    lines: &mut Vec<u8>,
    difference: &Difference<'_>,
    alloc: Global,
) -> std::result::Result<(), AllocError> {
    let text = difference_text(difference, alloc)?;
    push_text(lines, text.as_str(), alloc)
}

/// Adds the same line in the colour of its change.
fn push_colored_line(
    lines: &mut Vec<u8>,
    difference: &Difference<'_>,
    alloc: Global,
) -> std::result::Result<(), AllocError>
    ensures { OnOk result ((line : List ℕ) × IsColoredLine line × (lines.new.items ≡ lines.old.items ++ line)) }
{
    let text = difference_text(difference, alloc)?;
    let line = colored_line(color_of(difference.change), text.as_str(), alloc)?;
    lines.extend_from_slice(line.as_bytes())
}

fn color_of(change: Change<'_>) -> Color {
    match change {
        Change::Added(_) => Color::Green,
        Change::Removed(_) => Color::Red,
        Change::Changed(..) => Color::Yellow,
    }
}

/// Adds the line of a text.
fn push_text(lines: &mut Vec<u8>, text: &str, alloc: Global) -> std::result::Result<(), AllocError>
    ensures { OnOk result ((line : List ℕ) × IsLine line × (lines.new.items ≡ lines.old.items ++ line)) }
{
    let line = line_of(text, alloc)?;
    lines.extend_from_slice(line.as_bytes())
}

/// How a difference is said to people: what is there on one side alone, or both values.
fn difference_text(
    difference: &Difference<'_>,
    alloc: Global,
) -> std::result::Result<String, AllocError> {
    let at = difference.pointer.as_str();
    match difference.change {
        Change::Added(value) => {
            let value = value.to_string(alloc)?;
            format!(in alloc; "+ {at}: {value}")
        }
        Change::Removed(value) => {
            let value = value.to_string(alloc)?;
            format!(in alloc; "- {at}: {value}")
        }
        Change::Changed(before, after) => {
            let before = before.to_string(alloc)?;
            let after = after.to_string(alloc)?;
            format!(in alloc; "~ {at}: {before} -> {after}")
        }
    }
}

/// Adds the object of a difference for programs.
fn push_object(
    lines: &mut Vec<u8>,
    difference: &Difference<'_>,
    alloc: Global,
) -> std::result::Result<(), AllocError> {
    let at = quoted(difference.pointer.as_str(), alloc)?;
    match difference.change {
        Change::Added(value) => {
            push_one_object(lines, "added", at.as_str(), "after", value, alloc)
        }
        Change::Removed(value) => {
            push_one_object(lines, "removed", at.as_str(), "before", value, alloc)
        }
        Change::Changed(before, after) => {
            push_both_object(lines, at.as_str(), before, after, alloc)
        }
    }
}

/// Adds the object of a value that is on one side alone.
fn push_one_object(
    lines: &mut Vec<u8>,
    change: &str,
    at: &str,
    side: &str,
    value: &Value,
    alloc: Global,
) -> std::result::Result<(), AllocError> {
    let value = value.to_string(alloc)?;
    let text = format!(in alloc;
        "{{\"change\":\"{change}\",\"pointer\":{at},\"{side}\":{value}}}"
    )?;
    push_text(lines, text.as_str(), alloc)
}

fn push_both_object(
    lines: &mut Vec<u8>,
    at: &str,
    before: &Value,
    after: &Value,
    alloc: Global,
) -> std::result::Result<(), AllocError> {
    let before = before.to_string(alloc)?;
    let after = after.to_string(alloc)?;
    let text = format!(in alloc;
        "{{\"change\":\"changed\",\"pointer\":{at},\"before\":{before},\"after\":{after}}}"
    )?;
    push_text(lines, text.as_str(), alloc)
}

/// A text as JSON.
fn quoted(text: &str, alloc: Global) -> std::result::Result<String, AllocError> {
    Value::String(String::from_str(alloc, text)?).to_string(alloc)
}
