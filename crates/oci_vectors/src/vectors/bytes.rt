//! A document's text, cut at each byte, and with each byte replaced.

use crate::command::{gives_itself, status, tells};
use oci_test_support::{Harness, Input, Manner, Sample};

/// What each byte is replaced by, and whether a text that has it may be JSON.
static REPLACEMENTS: [(&[u8], bool); 6] = [
    (b"\x00", false),
    (b"\xff", false),
    (b"\"", true),
    (b"{", true),
    (b"0", true),
    (b" ", true),
];

/// All groups of one document.
pub fn all(harness: &mut Harness<'_>, sample: &Sample<'_>, words: &[String]) {
    prefixes(harness, sample.text.as_bytes(), words);
    harness.end(sample.kind, "prefixes");
    for (byte, may_be_json) in &REPLACEMENTS {
        replaced(harness, sample.text.as_bytes(), words, byte, *may_be_json);
    }
    harness.end(sample.kind, "replaced bytes");
}

/// Each beginning of a document that is not all of it is no JSON.
fn prefixes(harness: &mut Harness<'_>, text: &[u8], words: &[String]) {
    for count in 0..text.len() {
        let beginning = &text[..count];
        let kept = tells(harness, words, beginning, Manner::AMPLE, "refused: Json\n");
        harness.count("prefix", count, kept);
    }
}

/// A document with a byte replaced is no JSON, or is refused and nothing is written, or is written as its own normal form.
fn replaced(
    harness: &mut Harness<'_>,
    text: &[u8],
    words: &[String],
    byte: &[u8],
    may_be_json: bool,
) {
    for place in 0..text.len() {
        let mut input = Input::replaced(&text[..place], byte, &text[place + 1..]);
        let status = status(harness, words, &mut input, Manner::AMPLE);
        let kept = ends_well(harness, words, status, may_be_json);
        harness.count("replaced byte", place, kept);
    }
}

fn ends_well(harness: &mut Harness<'_>, words: &[String], status: u8, may_be_json: bool) -> bool {
    if status == 1 && harness.has_told("refused: Json\n") {
        return true;
    }
    may_be_json && is_answered(harness, words, status)
}

fn is_answered(harness: &mut Harness<'_>, words: &[String], status: u8) -> bool {
    match status {
        0 => harness.errors.is_untouched() && gives_itself(harness, words),
        1 => harness.has_told("refused: Schema\n"),
        _ => false,
    }
}
