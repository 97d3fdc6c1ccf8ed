//! What a verification writes.
use crate::marker::fault_of_file;
use crate::progress::Progress;
use oci_base::Result;
use oci_findings::{Claims, FileFault, Finding, Report, Reporter, Totals};
use oci_json::write_text;
use std::alloc::Global;
use std::io::Write;

/// Where findings and progress are written.
pub struct Output<'o, W, E> {
    pub alloc: Global,
    pub reporter: Reporter,
    /// What was done so far, where it is to be reported.
    pub progress: Option<Progress>,
    /// Whether the totals are said.
    pub verbose: bool,
    pub writer: &'o mut W,
    pub errors: &'o mut E,
}

impl<'o, W, E> Drop for Output<'o, W, E> {
    fn drop(self) {
        let Output {
            alloc,
            reporter,
            progress,
            verbose,
            writer,
            errors,
        } = self;
    }
}

impl<'o, W: Write, E: Write> Output<'o, W, E> {
    /// Writes the findings on a file.
    pub fn add(&mut self, file: &str, report: &Report<'_>) -> Result<()> {
        self.reporter.add(file, report, self.writer)
    }

    /// Writes one finding on a file that has no text.
    pub fn add_finding(&mut self, file: &str, finding: Finding<'_>) -> Result<()> {
        let mut found = Vec::new(self.alloc);
        found.push(finding)?;
        let report = Report::of_file(found, &None, Claims::none(self.alloc), self.alloc)?;
        self.add(file, &report)
    }

    /// Writes what is wrong with a file as a whole.
    pub fn add_fault(&mut self, file: &str, fault: FileFault) -> Result<()> {
        self.add_finding(file, fault_of_file(fault, self.alloc))
    }

    /// Counts a content of so many bytes, and reports what was done if a second has passed.
    pub fn count(&mut self, bytes: u64, now: u64) -> Result<()> {
        if let Some(progress) = &mut self.progress {
            if progress.count(bytes, now) {
                return self.report_progress();
            }
        }
        Ok(())
    }

    /// Reports what was done.
    pub fn report_progress(&mut self) -> Result<()> {
        if let Some(progress) = &self.progress {
            let line = progress.line(self.alloc)?;
            // standard error may be closed
            let _ = write_text(line.as_bytes(), self.errors);
        }
        Ok(())
    }

    /// Ends: writes the totals and the log, where the style has them, and says the totals, where that is asked for.
    pub fn finish(&mut self, totals: &Totals) -> Result<()> {
        if self.verbose {
            let line = totals.line(self.alloc)?;
            // standard error may be closed
            let _ = write_text(line.as_bytes(), self.errors);
        }
        self.reporter.add_summary(totals, self.writer)?;
        self.reporter.finish(self.writer)
    }
}
