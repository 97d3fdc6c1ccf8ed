//! What was done of all, reported once a second.
ghost use Rattle.std.specs.Prelude.{IfOk, string_bytes};
ghost use Rattle.oci_base.specs.Escaped.{IsLine};

use oci_base::line_of;
use std::alloc::{AllocError, Global};

/// A watch.
pub trait Watch {
    /// The seconds since some moment.
    fn seconds(&self) -> u64;
}

/// How many contents and bytes were looked at, of how many.
#[derive(Clone, Copy, Debug, PartialEq, Eq)]
pub struct Progress {
    contents: u64,
    bytes: u64,
    all_contents: u64,
    all_bytes: u64,
    // the second of the last report
    reported: u64,
}

impl Progress {
    /// Nothing of so many contents and bytes.
    pub fn of(all_contents: u64, all_bytes: u64) -> Progress {
        Progress {
            contents: 0,
            bytes: 0,
            all_contents,
            all_bytes,
            reported: 0,
        }
    }

    /// Counts one content more, and returns whether a second has passed since the last report.
    pub fn count(&mut self, bytes: u64, now: u64) -> bool {
        self.contents = self.contents.saturating_add(1);
        self.bytes = self.bytes.saturating_add(bytes);
        let is_due = now != self.reported;
        self.reported = now;
        is_due
    }

    /// A line of what was done.
    pub fn line(&self, alloc: Global) -> Result<String, AllocError>
        ensures { IfOk result (λ line. IsLine (string_bytes line)) }
    {
        let contents = self.contents;
        let bytes = self.bytes;
        let all_contents = self.all_contents;
        let all_bytes = self.all_bytes;
        let line = format!(in alloc;
            "{contents} of {all_contents} contents, {bytes} of {all_bytes} bytes"
        )?;
        line_of(line.as_str(), alloc)
    }
}
