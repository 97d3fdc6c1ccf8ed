//! No words, and refusals that no input leads to.

use crate::command::status;
use oci_doc_run::Refusal;
use oci_test_support::{Harness, Input, Manner};
use std::io::ErrorKind;

const USAGE: &str = "usage: ocidoc norm KIND | pretty KIND | ref TEXT | digest TEXT | pin TEXT\n";

/// All such groups.
pub fn all(harness: &mut Harness<'_>) {
    none(harness, usize::MAX, USAGE);
    none(harness, 1, "");
    harness.end("no words", "ways to tell them");
    line(harness, Refusal::Memory, "refused: Memory\n");
    line(harness, Refusal::Builder, "refused: Builder\n");
    harness.end("refusals", "lines that no input leads to");
}

/// No arguments: nothing is read, and the usage line is reported, if it can be.
fn none(harness: &mut Harness<'_>, bad_tell: usize, told: &str) {
    let manner = Manner {
        bad_tell,
        fault: Some(ErrorKind::BrokenPipe),
        ..Manner::AMPLE
    };
    let mut input = Input::new(b"{}", manner);
    let status = status(harness, &[], &mut input, manner);
    let kept = status == 2 && input.reads == 0 && harness.has_told(told);
    harness.count("no words", 0, kept);
}

/// The line of a refusal.
fn line(harness: &mut Harness<'_>, refusal: Refusal, line: &str) {
    harness.errors.begin(Manner::AMPLE);
    refusal.report(&mut harness.errors);
    let kept = harness.errors.taken() == line.as_bytes();
    harness.count("refusal", 0, kept);
}
