//! Where the cases are run and counted.

use crate::frame::HarnessOutOfMemory;
use crate::streams::Output;
use oci_base::{OciSpecError, Result};

/// Runs and counts the cases of one group after the other.
#[derive(Drop)]
pub struct Harness<'a> {
    /// The outside world, simulated.
    pub rt: &'a HostRuntime,
    /// What the last command wrote.
    pub output: Output,
    /// What it reported.
    pub errors: Output,
    /// What a command wrote that was given this.
    pub again: Output,
    cases: u64,
    memory: u64,
}

impl<'a> Harness<'a> {
    /// Has a buffer for what a command writes.
    pub fn new(rt: &'a HostRuntime) -> std::result::Result<Harness<'a>, HarnessOutOfMemory> {
        Ok(Harness {
            rt,
            output: Output::new(rt.alloc(), 65536)?,
            errors: Output::new(rt.alloc(), 1024)?,
            again: Output::new(rt.alloc(), 65536)?,
            cases: 0,
            memory: 0,
        })
    }

    /// The last command wrote this, and reported nothing.
    pub fn has_written(&self, text: &[u8]) -> bool {
        self.output.is_done(text) && self.errors.is_untouched()
    }

    /// The last command wrote nothing, and reported this.
    pub fn has_told(&self, line: &str) -> bool {
        self.output.is_untouched() && self.errors.taken() == line.as_bytes()
    }

    /// The last command wrote this and reported nothing, or wrote nothing and reported this.
    pub fn has_answered(&self, text: &[u8], line: &str) -> bool {
        if line.is_empty() {
            self.has_written(text)
        } else {
            text.is_empty() && self.has_told(line)
        }
    }

    /// The last command wrote this before a stream failed.
    pub fn has_begun(&self, text: &[u8]) -> bool {
        self.output.taken() == text && self.errors.taken() == b"refused: Io\n".as_slice()
    }

    /// Counts a case, and tells it if it broke its rule.
    pub fn count(&mut self, case: &str, place: usize, kept: bool) {
        self.cases = self.cases.saturating_add(1);
        if !kept {
            let _ = println!(self.rt; "broken: {case} at {place}");
        }
    }

    /// Counts an answer that was `Memory`.
    pub fn count_memory(&mut self) {
        self.memory = self.memory.saturating_add(1);
    }

    /// Tells how many cases a group has.
    pub fn end(&mut self, group: &str, cases: &str) {
        let count = self.cases;
        let _ = println!(self.rt; "{group}: {count} {cases}");
        self.cases = 0;
    }

    /// Tells how many answers were `Memory`.
    pub fn end_calls(&self) {
        let count = self.memory;
        let _ = println!(self.rt; "answers of Memory: {count}");
    }

    /// The last command wrote this, whitespace ignored in pretty text, and reported nothing.
    pub fn has_done(&mut self, text: &str, is_pretty: bool) -> bool {
        if is_pretty {
            self.output.strip_layout();
        }
        self.has_written(text.as_bytes())
    }

    /// Counts a command that tells `Memory` and writes nothing.
    pub fn has_no_memory(&mut self) -> bool {
        self.count_memory();
        self.has_told("refused: Memory\n")
    }

    /// Counts a call that writes this text, spaces and line feeds not looked at where it is a pretty one, or nothing and is refused
    /// with `Memory`.
    pub fn wrote(&mut self, call: &str, answer: Result<()>, text: &str, is_pretty: bool) {
        if is_pretty {
            self.output.strip_layout();
        }
        let kept = match &answer {
            Ok(()) => self.output.taken() == text.as_bytes(),
            Err(OciSpecError::Memory) => {
                self.count_memory();
                self.output.is_untouched()
            }
            Err(_) => false,
        };
        self.count(call, 0, kept);
    }

    /// Counts a call: it answers this text, or is refused with it as `Other`; or with `Memory` in the place of either.
    pub fn answer(&mut self, call: &str, found: Result<String>, expected: Answer<'_>) {
        let kept = match (&found, expected) {
            (Ok(text), Ok(expected)) => text.as_str() == expected,
            (Err(OciSpecError::Other(why)), Err(expected)) => why.as_str() == expected,
            (Err(OciSpecError::Memory), _) => {
                self.count_memory();
                true
            }
            _ => false,
        };
        self.count(call, 0, kept);
    }

    /// Counts two calls that answer alike, where neither is refused with `Memory`.
    pub fn same<T: PartialEq + Drop>(&mut self, call: &str, first: Result<T>, second: Result<T>) {
        let kept = match (&first, &second) {
            (Ok(first), Ok(second)) => first == second,
            (Err(OciSpecError::Memory), Ok(_)) | (Ok(_), Err(OciSpecError::Memory)) => {
                self.count_memory();
                true
            }
            _ => false,
        };
        self.count(call, 0, kept);
    }
}

/// A text that a call answers, or with which it refuses.
pub type Answer<'a> = std::result::Result<&'a str, &'a str>;
