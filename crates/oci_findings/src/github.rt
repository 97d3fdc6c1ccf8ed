//! Findings as workflow commands of GitHub, which shows each beside its line of a change
//! (GitHub Docs, "Workflow commands for GitHub Actions").
ghost use Rattle.std.specs.Prelude.{◌≡◌, ◌+◌, ◌++◌, false, ℕ, length, IfOk, OnOk, string_bytes, encode_utf8_all};
ghost use Rattle.oci_base.specs.Escaped.{IsLine, escaped as shown_text};
ghost use Rattle.oci_findings.specs.Github.{character_text, part_text};
ghost use Rattle.oci_findings.specs.Lines.{AreLines};

use crate::claimed::Claims;
use crate::finding::{Finding, Severity};
use crate::place::Place;
use crate::render::{push_claims, push_new, push_told};
use crate::report::Report;
use oci_base::{escaped, line_of};
use std::alloc::{AllocError, Global};

/// Where a text is in a command.
#[derive(Clone, Copy)]
enum Part {
    /// It is the value of a property.
    Property,
    /// It is the message.
    Message,
}

/// The commands of a report, a line each: errors before warnings and notes, none that equals the one before it. Fails if out of memory.
#[tactic(auto, using(crate::proofs::Facts::both_lines))]
pub fn commands_of(name: &str, report: &Report<'_>, alloc: Global) -> Result<String, AllocError>
    ensures { IfOk result (λ t. AreLines false (length report.now.errors.items + length report.now.warnings.items) (string_bytes t)) }
{
    let mut lines = String::new(alloc);
    push_commands(&mut lines, name, report, &report.errors, alloc)?;
    push_commands(&mut lines, name, report, &report.warnings, alloc)?;
    Ok(lines)
}

#[tactic(auto, using(crate::proofs::Facts::counted, crate::proofs::Facts::uncounted))]
fn push_commands(
    lines: &mut String,
    name: &str,
    report: &Report<'_>,
    found: &Vec<Finding<'_>>,
    alloc: Global,
) -> Result<(), AllocError>
    ensures { OnOk result ((n : ℕ) → AreLines false n (string_bytes lines.old) → AreLines false (n + length found.now.items) (string_bytes lines.new)) }
{
    let mut before = String::new(alloc);
    for finding in found {
        let place = report.place_of(finding);
        let line = command_line(name, finding, place, &report.claims, alloc)?;
        push_new(lines, before.as_str(), line.as_str())?;
        before = line;
    }
    Ok(())
}

/// The command of a finding: `::error file=FILE,line=LINE,col=COLUMN,title=RULE::MESSAGE`.
fn command_line(
    name: &str,
    finding: &Finding<'_>,
    place: Option<Place>,
    claims: &Claims,
    alloc: Global,
) -> Result<String, AllocError>
    ensures { IfOk result (λ t. IsLine (string_bytes t)) }
{
    let mut text = String::from_str(alloc, command_of(finding.severity))?;
    push_place(&mut text, name, place, alloc)?;
    let title = part_of(finding.rule(), Part::Property, alloc)?;
    let message = message_of(finding, claims, alloc)?;
    text.push_str(",title=")?;
    text.push_str(title.as_str())?;
    text.push_str("::")?;
    text.push_str(message.as_str())?;
    line_of(text.as_str(), alloc)
}

/// The beginning of a command, up to the name of the first property.
fn command_of(severity: Severity) -> &'static str {
    match severity {
        Severity::Error => "::error file=",
        Severity::Warning => "::warning file=",
        Severity::Note => "::notice file=",
    }
}

/// Adds the file, and the line and the column if it has a text.
fn push_place(
    text: &mut String,
    name: &str,
    place: Option<Place>,
    alloc: Global,
) -> Result<(), AllocError> {
    let file = part_of(name, Part::Property, alloc)?;
    text.push_str(file.as_str())?;
    if let Some(place) = place {
        let (line, column) = (place.line, place.column);
        let shown = format!(in alloc; ",line={line},col={column}")?;
        text.push_str(shown.as_str())?;
    }
    Ok(())
}

/// What is found, and the descriptors by which the file was reached, as a message.
fn message_of(finding: &Finding<'_>, claims: &Claims, alloc: Global) -> Result<String, AllocError> {
    let mut told = String::new(alloc);
    push_told(&mut told, finding, alloc)?;
    push_claims(&mut told, claims, alloc)?;
    part_of(told.as_str(), Part::Message, alloc)
}

/// A text of a stranger in a command: first as it is shown elsewhere, and then with GitHub's escapes.
fn part_of(text: &str, part: Part, alloc: Global) -> Result<String, AllocError>
    ensures { IfOk result (λ t. string_bytes t ≡ part_text part (shown_text text.now)) }
{
    let shown = escaped(text, alloc)?;
    escape(shown.as_str(), part, alloc)
}

/// A text with GitHub's escapes.
fn escape(text: &str, part: Part, alloc: Global) -> Result<String, AllocError>
    ensures { IfOk result (λ t. string_bytes t ≡ part_text part text.now) }
{
    let mut out = String::new(alloc);
    for c in text.chars() {
        push_character(&mut out, c, part)?;
    }
    Ok(out)
}

fn push_character(out: &mut String, c: char, part: Part) -> Result<(), AllocError>
    ensures { OnOk result (string_bytes out.new ≡ string_bytes out.old ++ encode_utf8_all (character_text part c)) }
{
    match (part, c) {
        (_, '%') => out.push_str("%25"),
        (_, '\r') => out.push_str("%0D"),
        (_, '\n') => out.push_str("%0A"),
        (Part::Property, ':') => out.push_str("%3A"),
        (Part::Property, ',') => out.push_str("%2C"),
        _ => out.push(c),
    }
}
