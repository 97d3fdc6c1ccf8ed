//! How findings are written: each on a line of its own, in which nothing of a stranger ends the line or moves a terminal's cursor.
ghost use Rattle.std.specs.Prelude.{◌+◌, Bool, false, ℕ, suc, length, IfOk, OnOk, string_bytes};
ghost use Rattle.oci_base.specs.Escaped.{IsLine};
ghost use Rattle.oci_findings.specs.Colors.{IsColored, IsColoredLine};
ghost use Rattle.oci_findings.specs.Lines.{AreLines, IsShownLine};

use crate::claimed::Claims;
use crate::color::{Color, push_colored, push_part};
use crate::finding::{Cause, Finding, Severity};
use crate::place::Place;
use crate::report::Report;
use json::Writer;
use oci_base::line_of;
use oci_rules::Rule;
use std::alloc::{AllocError, Global};

/// The rule that a finding says is broken, if it is one of a specification or policy.
fn rule_in<'a>(finding: &Finding<'a>) -> Option<&'a Rule<'a>> {
    match &finding.cause {
        Cause::Rule(rule, _) => Some(*rule),
        _ => None,
    }
}

/// The line of a finding for people.
#[tactic(auto, using(crate::proofs::Colored::colored_line))]
pub fn finding_line(
    name: &str,
    finding: &Finding<'_>,
    place: Option<Place>,
    claims: &Claims,
    colored: bool,
    alloc: Global,
) -> Result<String, AllocError>
    ensures { IfOk result (λ t. IsShownLine colored (string_bytes t)) }
{
    if colored {
        return colored_finding(name, finding, place, claims, alloc);
    }
    let mut text = place_text(name, place, alloc)?;
    push_finding(&mut text, finding, alloc)?;
    push_claims(&mut text, claims, alloc)?;
    line_of(text.as_str(), alloc)
}

/// The same line with colours: the place in bold, how much the finding counts and the rule in the colour of its severity.
fn colored_finding(
    name: &str,
    finding: &Finding<'_>,
    place: Option<Place>,
    claims: &Claims,
    alloc: Global,
) -> Result<String, AllocError>
    ensures { IfOk result (λ t. IsColoredLine (string_bytes t)) }
{
    let begins = place_text(name, place, alloc)?;
    let mut told = String::new(alloc);
    push_message(&mut told, finding, alloc)?;
    let mut mark = String::new(alloc);
    push_mark(&mut mark, finding)?;
    let mut claimed = String::new(alloc);
    push_claims(&mut claimed, claims, alloc)?;
    let mut line = String::new(alloc);
    push_colored(&mut line, Color::Bold, begins.as_str(), alloc)?;
    push_severity(&mut line, finding.severity, alloc)?;
    push_part(&mut line, told.as_str(), alloc)?;
    push_colored(&mut line, Color::of(finding.severity), mark.as_str(), alloc)?;
    push_part(&mut line, claimed.as_str(), alloc)?;
    line.push_str("\n")?;
    Ok(line)
}

/// Adds what stands before a finding that is no error, in its colour.
fn push_severity(line: &mut String, severity: Severity, alloc: Global) -> Result<(), AllocError>
    ensures { OnOk result (IsColored (string_bytes line.old) → IsColored (string_bytes line.new)) }
{
    match severity {
        Severity::Error => Ok(()),
        Severity::Warning | Severity::Note => {
            push_colored(line, Color::of(severity), severity_text(severity), alloc)
        }
    }
}

/// What stands before a finding that is no error.
fn severity_text(severity: Severity) -> &'static str {
    match severity {
        Severity::Error => "",
        Severity::Warning => "warning: ",
        Severity::Note => "note: ",
    }
}

/// The beginning of a line: the file, and the line and the column if it has a text.
fn place_text(name: &str, place: Option<Place>, alloc: Global) -> Result<String, AllocError> {
    match place {
        Some(place) => {
            let line = place.line;
            let column = place.column;
            format!(in alloc; "{name}:{line}:{column}: ")
        }
        None => format!(in alloc; "{name}: "),
    }
}

/// Adds what is found.
fn push_finding(text: &mut String, finding: &Finding<'_>, alloc: Global) -> Result<(), AllocError> {
    text.push_str(severity_text(finding.severity))?;
    push_told(text, finding, alloc)
}

/// Adds where in the document it is found, what it is, and the rule.
pub(crate) fn push_told(
    text: &mut String,
    finding: &Finding<'_>,
    alloc: Global,
) -> Result<(), AllocError> {
    push_message(text, finding, alloc)?;
    push_mark(text, finding)
}

/// Adds where in the document it is found, and what it is.
fn push_message(text: &mut String, finding: &Finding<'_>, alloc: Global) -> Result<(), AllocError> {
    if !finding.pointer.is_empty() {
        text.push_str(finding.pointer.as_str())?;
        text.push_str(": ")?;
    }
    let message = finding.message(alloc)?;
    text.push_str(message.as_str())
}

/// Adds the descriptors by which the file was reached.
pub(crate) fn push_claims(
    text: &mut String,
    claims: &Claims,
    alloc: Global,
) -> Result<(), AllocError> {
    if claims.path.is_empty() {
        return Ok(());
    }
    let mut mark = " (claimed by ";
    for claimant in claims.texts(alloc)? {
        text.push_str(mark)?;
        text.push_str(claimant.as_str())?;
        mark = ", ";
    }
    text.push_str(")")
}

/// Adds the name of the rule, with its level and section, if it has them.
fn push_mark(text: &mut String, finding: &Finding<'_>) -> Result<(), AllocError> {
    text.push_str(" [")?;
    text.push_str(finding.rule())?;
    if let Some(rule) = rule_in(finding) {
        push_requirement(text, rule)?;
    }
    text.push_str("]")
}

fn push_requirement(text: &mut String, rule: &Rule<'_>) -> Result<(), AllocError> {
    text.push_str(", ")?;
    text.push_str(rule.level.word())?;
    text.push_str(": ")?;
    text.push_str(rule.section)
}

/// The lines of a report for people: errors before warnings and notes. A line that equals the one before it is left out, as where
/// several parts of one rule ask the same of one place.
#[tactic(auto, using(crate::proofs::Facts::both_lines))]
pub fn lines_of(
    name: &str,
    report: &Report<'_>,
    colored: bool,
    alloc: Global,
) -> Result<String, AllocError>
    ensures { IfOk result (λ t. AreLines colored (length report.now.errors.items + length report.now.warnings.items) (string_bytes t)) }
{
    let mut lines = String::new(alloc);
    push_lines(&mut lines, name, report, &report.errors, colored, alloc)?;
    push_lines(&mut lines, name, report, &report.warnings, colored, alloc)?;
    Ok(lines)
}

#[tactic(auto, using(crate::proofs::Facts::counted, crate::proofs::Facts::uncounted))]
fn push_lines(
    lines: &mut String,
    name: &str,
    report: &Report<'_>,
    found: &Vec<Finding<'_>>,
    colored: bool,
    alloc: Global,
) -> Result<(), AllocError>
    ensures { OnOk result ((n : ℕ) → AreLines colored n (string_bytes lines.old) → AreLines colored (n + length found.now.items) (string_bytes lines.new)) }
{
    let mut before = String::new(alloc);
    for finding in found {
        let place = report.place_of(finding);
        let line = finding_line(name, finding, place, &report.claims, colored, alloc)?;
        push_new(lines, before.as_str(), line.as_str())?;
        before = line;
    }
    Ok(())
}

/// Adds a line, unless it equals the one before it.
#[tactic(auto, using(crate::proofs::Facts::line_added, crate::proofs::Facts::line_left_out))]
pub(crate) fn push_new(lines: &mut String, before: &str, line: &str) -> Result<(), AllocError>
    ensures { OnOk result ((colored : Bool) → IsShownLine colored line.now → (n : ℕ) → AreLines colored n (string_bytes lines.old) → AreLines colored (suc n) (string_bytes lines.new)) }
{
    if line == before {
        return Ok(());
    }
    lines.push_str(line)?;
    Ok(())
}

/// Writes a member with a text.
pub fn text_member(out: &mut Writer, name: &str, value: &str) -> Result<(), AllocError> {
    out.key(name)?;
    out.string(value)
}

/// Writes a member with a number.
pub fn number_member(out: &mut Writer, name: &str, value: u64) -> Result<(), AllocError> {
    out.key(name)?;
    out.u64(value)
}

/// Writes the object of a finding.
fn put_object(
    out: &mut Writer,
    name: &str,
    finding: &Finding<'_>,
    place: Option<Place>,
    claims: &Claims,
    alloc: Global,
) -> Result<(), AllocError> {
    let message = finding.message(alloc)?;
    out.begin_object()?;
    put_place(out, name, place)?;
    put_members(out, finding, message.as_str())?;
    put_claims(out, claims, alloc)?;
    out.end_object()
}

fn put_place(out: &mut Writer, name: &str, place: Option<Place>) -> Result<(), AllocError> {
    text_member(out, "file", name)?;
    match place {
        Some(place) => {
            number_member(out, "line", place.line)?;
            number_member(out, "column", place.column)
        }
        None => Ok(()),
    }
}

fn put_members(out: &mut Writer, finding: &Finding<'_>, message: &str) -> Result<(), AllocError> {
    text_member(out, "pointer", finding.pointer.as_str())?;
    text_member(out, "rule", finding.rule())?;
    text_member(out, "level", finding.severity.word())?;
    text_member(out, "message", message)?;
    match rule_in(finding) {
        Some(rule) => put_requirement(out, rule),
        None => Ok(()),
    }
}

/// Writes the descriptors by which the file was reached, if there are any.
fn put_claims(out: &mut Writer, claims: &Claims, alloc: Global) -> Result<(), AllocError> {
    if claims.path.is_empty() {
        return Ok(());
    }
    out.key("claimedBy")?;
    out.begin_array()?;
    for claimant in claims.texts(alloc)? {
        out.string(claimant.as_str())?;
    }
    out.end_array()
}

fn put_requirement(out: &mut Writer, rule: &Rule<'_>) -> Result<(), AllocError> {
    text_member(out, "requirement", rule.level.word())?;
    text_member(out, "section", rule.section)
}

/// The lines of a report for programs: an object a line, errors before warnings and notes, none that equals the one before it.
#[tactic(auto, using(crate::proofs::Facts::both_lines))]
pub fn objects_of(name: &str, report: &Report<'_>, alloc: Global) -> Result<String, AllocError>
    ensures { IfOk result (λ t. AreLines false (length report.now.errors.items + length report.now.warnings.items) (string_bytes t)) }
{
    let mut lines = String::new(alloc);
    push_objects(&mut lines, name, report, &report.errors, alloc)?;
    push_objects(&mut lines, name, report, &report.warnings, alloc)?;
    Ok(lines)
}

#[tactic(auto, using(crate::proofs::Facts::counted, crate::proofs::Facts::uncounted))]
fn push_objects(
    lines: &mut String,
    name: &str,
    report: &Report<'_>,
    found: &Vec<Finding<'_>>,
    alloc: Global,
) -> Result<(), AllocError>
    ensures { OnOk result ((n : ℕ) → AreLines false n (string_bytes lines.old) → AreLines false (n + length found.now.items) (string_bytes lines.new)) }
{
    let mut before = String::new(alloc);
    for finding in found {
        let place = report.place_of(finding);
        let line = object_line(name, finding, place, &report.claims, alloc)?;
        push_new(lines, before.as_str(), line.as_str())?;
        before = line;
    }
    Ok(())
}

/// The line of a finding for programs: its object.
fn object_line(
    name: &str,
    finding: &Finding<'_>,
    place: Option<Place>,
    claims: &Claims,
    alloc: Global,
) -> Result<String, AllocError>
    ensures { IfOk result (λ t. IsLine (string_bytes t)) }
{
    let mut out = Writer::new(Vec::new(alloc));
    put_object(&mut out, name, finding, place, claims, alloc)?;
    json_line(out, alloc)
}

/// The line of the JSON text that was written. What is escaped in it is in strings, so the text means the same.
pub fn json_line(out: Writer, alloc: Global) -> Result<String, AllocError>
    ensures { IfOk result (λ t. IsLine (string_bytes t)) }
{
    let text = String::from_utf8_lossy(alloc, out.into_inner().as_slice())?;
    line_of(text.as_str(), alloc)
}
