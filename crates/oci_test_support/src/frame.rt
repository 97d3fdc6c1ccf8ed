//! What a test program needs for itself: its inputs and arguments. A call of the library never fails here, so a run that gives up
//! reports that the program's own part was out of memory or could not open a file, and no more.

use std::alloc::{AllocError, AllocFailed, Global};
use std::io;
use std::process::ExitCode;

/// The program's own part failed. No error of the library is converted into this one.
#[derive(Debug, Drop)]
pub struct HarnessOutOfMemory;

impl From<AllocError> for HarnessOutOfMemory {
    fn from(_refused: AllocError) -> HarnessOutOfMemory {
        HarnessOutOfMemory
    }
}

impl<T: Drop> From<AllocFailed<T>> for HarnessOutOfMemory {
    fn from(_refused: AllocFailed<T>) -> HarnessOutOfMemory {
        HarnessOutOfMemory
    }
}

impl From<io::Error> for HarnessOutOfMemory {
    fn from(_fault: io::Error) -> HarnessOutOfMemory {
        HarnessOutOfMemory
    }
}

/// A document of a kind, in three lines of a file of `data/`.
#[derive(Clone, Copy)]
pub struct Sample<'a> {
    /// The word for its kind.
    pub kind: &'a str,
    /// The text that is read.
    pub text: &'a str,
    /// The compact text of its document.
    pub compact: &'a str,
}

impl<'a> Sample<'a> {
    /// The sample of three lines.
    pub fn of(row: &'a str) -> Result<Sample<'a>, HarnessOutOfMemory> {
        let Some((kind, texts)) = row.split_once('\n') else {
            return Err(HarnessOutOfMemory);
        };
        match texts.split_once('\n') {
            Some((text, compact)) => Ok(Sample {
                kind,
                text,
                compact,
            }),
            None => Err(HarnessOutOfMemory),
        }
    }
}

/// Owned words.
pub fn words(alloc: Global, given: &[&str]) -> Result<Vec<String>, HarnessOutOfMemory> {
    let mut words = Vec::new(alloc);
    for word in given {
        words.push(String::from_str(alloc, word)?)?;
    }
    Ok(words)
}

/// The status of a program that did its work, or gave up and reports so.
pub fn exit(rt: &HostRuntime, done: Result<(), HarnessOutOfMemory>) -> ExitCode {
    match done {
        Ok(()) => ExitCode::SUCCESS,
        Err(HarnessOutOfMemory) => {
            let _ = eprintln!(rt; "gave up");
            ExitCode::from(3)
        }
    }
}
