//! Writing findings as they are found.
ghost use Rattle.std.specs.Prelude.{◌+◌, false, length, IfOk, OnOk, string_bytes};
ghost use Rattle.oci_base.specs.Escaped.{IsLine};
ghost use Rattle.oci_findings.specs.Lines.{WritesLines, is_colored};

use crate::github::commands_of;
use crate::render::{json_line, lines_of, number_member, objects_of};
use crate::report::Report;
use crate::sarif::Log;
use crate::style::Style;
use crate::totals::Totals;
use json::Writer;
use oci_base::Result;
use oci_json::write_text;
use std::alloc::{AllocError, Global};
use std::fmt::Display;
use std::io::Write;

/// Writes findings in a style, and counts them.
#[derive(Drop)]
pub struct Reporter {
    alloc: Global,
    style: Style,
    // the findings, where they are written at the end
    log: Option<Log>,
    errors: u64,
    others: u64,
}

impl Reporter {
    /// One that has written nothing. Fails if out of memory.
    pub fn new(style: Style, alloc: Global) -> std::result::Result<Reporter, AllocError> {
        let log = match style {
            Style::Sarif => Some(Log::new(alloc)?),
            Style::Text | Style::Color | Style::Json | Style::Github => None,
        };
        Ok(Reporter {
            alloc,
            style,
            log,
            errors: 0,
            others: 0,
        })
    }

    /// How many errors there were.
    pub fn errors(&self) -> u64 {
        self.errors
    }

    /// How many warnings and notes there were.
    pub fn others(&self) -> u64 {
        self.others
    }

    /// Writes the findings on a file of this name, or keeps them for the log. Fails if they cannot be written, or if out of memory.
    #[tactic(auto, using(crate::proofs::Facts::written))]
    pub fn add<W: Write>(&mut self, name: &str, report: &Report<'_>, writer: &mut W) -> Result<()>
        ensures { OnOk result (WritesLines (is_colored self.old.style) (length report.now.errors.items + length report.now.warnings.items) (W.contents writer.old) (W.contents writer.new)) }
    {
        self.errors = self.errors.saturating_add(report.errors.len() as u64);
        self.others = self.others.saturating_add(report.warnings.len() as u64);
        match self.style {
            Style::Text => {
                let lines = lines_of(name, report, false, self.alloc)?;
                write_text(lines.as_bytes(), writer)?;
            }
            Style::Color => {
                let lines = lines_of(name, report, true, self.alloc)?;
                write_text(lines.as_bytes(), writer)?;
            }
            Style::Json => {
                let lines = objects_of(name, report, self.alloc)?;
                write_text(lines.as_bytes(), writer)?;
            }
            Style::Github => {
                let lines = commands_of(name, report, self.alloc)?;
                write_text(lines.as_bytes(), writer)?;
            }
            Style::Sarif => {
                if let Some(log) = &mut self.log {
                    log.add(name, report, self.alloc)?;
                }
            }
        }
        Ok(())
    }

    /// Notes that a file could not be read, and why, where the log says it. Fails if out of memory.
    pub fn note_unread<D: Display>(
        &mut self,
        name: &str,
        fault: &D,
    ) -> std::result::Result<(), AllocError> {
        if let Some(log) = &mut self.log {
            let reason = fault.to_string(self.alloc)?;
            log.add_unread(name, reason, self.alloc)?;
        }
        Ok(())
    }

    /// In JSON Lines, writes how much of an image layout was verified, and how many findings and notes there were. Fails as `add`.
    #[tactic(auto, using(crate::proofs::Facts::written, crate::proofs::Facts::one_line))]
    pub fn add_summary<W: Write>(&self, totals: &Totals, writer: &mut W) -> Result<()>
        ensures { OnOk result (WritesLines false 1 (W.contents writer.old) (W.contents writer.new)) }
    {
        if self.style == Style::Json {
            let line = self.summary_line(totals)?;
            write_text(line.as_bytes(), writer)?;
        }
        Ok(())
    }

    fn summary_line(&self, totals: &Totals) -> std::result::Result<String, AllocError>
        ensures { IfOk result (λ t. IsLine (string_bytes t)) }
    {
        let mut out = Writer::new(Vec::new(self.alloc));
        out.begin_object()?;
        out.key("summary")?;
        out.begin_object()?;
        totals.add_members(&mut out)?;
        number_member(&mut out, "findings", self.errors)?;
        number_member(&mut out, "notes", self.others)?;
        out.end_object()?;
        out.end_object()?;
        json_line(out, self.alloc)
    }

    /// Writes the log, where there is one. Fails as `add`.
    #[tactic(auto, using(crate::proofs::Facts::written, crate::proofs::Facts::one_line))]
    pub fn finish<W: Write>(&mut self, writer: &mut W) -> Result<()>
        ensures { OnOk result (WritesLines false 1 (W.contents writer.old) (W.contents writer.new)) }
    {
        if let Some(log) = self.log.take() {
            let line = log.finish(self.alloc)?;
            write_text(line.as_bytes(), writer)?;
        }
        Ok(())
    }
}
