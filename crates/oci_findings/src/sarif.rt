//! Findings as a log in SARIF 2.1.0 (OASIS), which code hosts show beside the lines.
ghost use Rattle.std.specs.Prelude.{IfOk, string_bytes};
ghost use Rattle.oci_base.specs.Escaped.{IsLine};

pub mod described;
pub mod result;

use crate::finding::Finding;
use crate::render::{json_line, text_member};
use crate::report::Report;
use crate::sarif::described::{Described, Requirement, describe};
use crate::sarif::result::{Located, begin_item, begin_member, end_item, put_file, put_result};
use json::Writer;
use std::alloc::{AllocError, Global};

/// The version of the program.
pub const VERSION: &str = "0.1.0";

/// A file that could not be read, and why.
#[derive(Drop)]
struct Unread {
    name: String,
    reason: String,
}

/// A log that is being written.
#[derive(Drop)]
pub struct Log {
    out: Writer,
    // the rules that are broken
    rules: Vec<Described>,
    // what could not be read
    unread: Vec<Unread>,
}

impl Log {
    /// The beginning of a log.
    pub fn new(alloc: Global) -> Result<Log, AllocError> {
        let mut out = Writer::new(Vec::new(alloc));
        begin(&mut out)?;
        Ok(Log {
            out,
            rules: Vec::new(alloc),
            unread: Vec::new(alloc),
        })
    }

    /// Adds the report on a file.
    pub fn add(
        &mut self,
        name: &str,
        report: &Report<'_>,
        alloc: Global,
    ) -> Result<(), AllocError> {
        self.add_all(name, report, &report.errors, alloc)?;
        self.add_all(name, report, &report.warnings, alloc)
    }

    fn add_all(
        &mut self,
        name: &str,
        report: &Report<'_>,
        found: &Vec<Finding<'_>>,
        alloc: Global,
    ) -> Result<(), AllocError> {
        for finding in found {
            let it = Located {
                name,
                finding,
                rule: self.index_of(finding, alloc)?,
                place: report.place_of(finding),
                claims: &report.claims,
            };
            put_result(&mut self.out, &it, alloc)?;
        }
        Ok(())
    }

    /// The index of the rule of a finding, which is added if it is a new one.
    fn index_of(&mut self, finding: &Finding<'_>, alloc: Global) -> Result<u64, AllocError> {
        let mut index: u64 = 0;
        for rule in &self.rules {
            if rule.name.as_str() == finding.rule() {
                return Ok(index);
            }
            index = index.saturating_add(1);
        }
        let rule = describe(finding, alloc)?;
        self.rules.push(rule)?;
        Ok(index)
    }

    /// Notes that a file could not be read, and why.
    pub fn add_unread(
        &mut self,
        name: &str,
        reason: String,
        alloc: Global,
    ) -> Result<(), AllocError> {
        let name = String::from_str(alloc, name)?;
        self.unread.push(Unread { name, reason })?;
        Ok(())
    }

    /// The whole log, a line.
    pub fn finish(self, alloc: Global) -> Result<String, AllocError>
        ensures { IfOk result (λ t. IsLine (string_bytes t)) }
    {
        let Log {
            mut out,
            rules,
            unread,
        } = self;
        end(&mut out, &rules, &unread, alloc)?;
        json_line(out, alloc)
    }
}

/// Writes all that is before the results.
fn begin(out: &mut Writer) -> Result<(), AllocError> {
    out.begin_object()?;
    text_member(
        out,
        "$schema",
        "https://json.schemastore.org/sarif-2.1.0.json",
    )?;
    text_member(out, "version", "2.1.0")?;
    begin_item(out, "runs")?;
    text_member(out, "columnKind", "unicodeCodePoints")?;
    out.key("results")?;
    out.begin_array()
}

/// Writes all that is behind the results.
fn end(
    out: &mut Writer,
    rules: &Vec<Described>,
    unread: &Vec<Unread>,
    alloc: Global,
) -> Result<(), AllocError> {
    out.end_array()?;
    put_tool(out, rules)?;
    put_invocation(out, unread, alloc)?;
    end_item(out)?;
    out.end_object()
}

/// Writes the program, with the rules that are broken.
fn put_tool(out: &mut Writer, rules: &Vec<Described>) -> Result<(), AllocError> {
    begin_member(out, "tool")?;
    begin_member(out, "driver")?;
    text_member(out, "name", "ciderglen")?;
    text_member(out, "version", VERSION)?;
    text_member(out, "semanticVersion", VERSION)?;
    out.key("rules")?;
    out.begin_array()?;
    for rule in rules {
        put_rule(out, rule)?;
    }
    out.end_array()?;
    out.end_object()?;
    out.end_object()
}

fn put_rule(out: &mut Writer, rule: &Described) -> Result<(), AllocError> {
    out.begin_object()?;
    text_member(out, "id", rule.name.as_str())?;
    put_text(out, "shortDescription", rule.asks.as_str())?;
    put_text(out, "help", rule.help.as_str())?;
    begin_member(out, "defaultConfiguration")?;
    text_member(out, "level", rule.severity.word())?;
    out.end_object()?;
    if let Some(requirement) = &rule.requirement {
        put_requirement(out, requirement)?;
    }
    out.end_object()
}

/// Writes how strongly a rule is asked, and by which section.
fn put_requirement(out: &mut Writer, requirement: &Requirement) -> Result<(), AllocError> {
    begin_member(out, "properties")?;
    text_member(out, "requirement", requirement.level)?;
    text_member(out, "section", requirement.section.as_str())?;
    out.end_object()
}

/// Writes a member that is a message.
fn put_text(out: &mut Writer, name: &str, text: &str) -> Result<(), AllocError> {
    begin_member(out, name)?;
    text_member(out, "text", text)?;
    out.end_object()
}

/// Writes the run of the program, with what it could not read.
fn put_invocation(out: &mut Writer, unread: &Vec<Unread>, alloc: Global) -> Result<(), AllocError> {
    begin_item(out, "invocations")?;
    out.key("executionSuccessful")?;
    out.boolean(unread.is_empty())?;
    out.key("toolExecutionNotifications")?;
    out.begin_array()?;
    for it in unread {
        put_unread(out, it, alloc)?;
    }
    out.end_array()?;
    end_item(out)
}

fn put_unread(out: &mut Writer, it: &Unread, alloc: Global) -> Result<(), AllocError> {
    out.begin_object()?;
    text_member(out, "level", "error")?;
    put_text(out, "message", it.reason.as_str())?;
    begin_item(out, "locations")?;
    begin_member(out, "physicalLocation")?;
    put_file(out, it.name.as_str(), alloc)?;
    out.end_object()?;
    end_item(out)?;
    out.end_object()
}
