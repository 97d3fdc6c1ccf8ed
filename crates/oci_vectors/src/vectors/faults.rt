//! A document over streams that give and take little, or fail.

use crate::command::{ends_in, tells};
use oci_test_support::{Harness, Manner, Sample};
use std::io::ErrorKind;

/// Bytes that a reader gives at most before it fails: a power of two, as are the lengths of the buffers that it fills.
const READ: usize = 128;

/// Bytes that a writer takes at most before it fails.
const WRITTEN: usize = 10;

/// How a read, a write and a flush fail.
const BROKEN: Option<ErrorKind> = Some(ErrorKind::BrokenPipe);

/// The other way in which each fails.
const INTERRUPTED: Option<ErrorKind> = Some(ErrorKind::Interrupted);

/// How a write fails that takes no byte.
const FULL: Option<ErrorKind> = None;

/// All groups of one document.
pub fn all(harness: &mut Harness<'_>, sample: &Sample<'_>, words: &[String]) {
    pieces(harness, sample, words, 1);
    pieces(harness, sample, words, 7);
    pieces(harness, sample, words, usize::MAX);
    harness.end(sample.kind, "sizes of pieces");
    reads(harness, sample.text.as_bytes(), words, BROKEN);
    reads(harness, sample.text.as_bytes(), words, INTERRUPTED);
    harness.end(sample.kind, "bad reads");
    writes(harness, sample, words, BROKEN);
    writes(harness, sample, words, INTERRUPTED);
    writes(harness, sample, words, FULL);
    flush(harness, sample, words, BROKEN);
    flush(harness, sample, words, INTERRUPTED);
    harness.end(sample.kind, "bad writes");
    untold(harness, sample, words, BROKEN);
    untold(harness, sample, words, INTERRUPTED);
    harness.end(sample.kind, "untold");
}

/// Counts a command that is done, and writes the document's compact text.
fn done(
    harness: &mut Harness<'_>,
    case: &str,
    place: usize,
    sample: &Sample<'_>,
    words: &[String],
    manner: Manner,
) {
    let kept = ends_in(harness, words, sample.text.as_bytes(), manner, 0)
        && harness.has_written(sample.compact.as_bytes());
    harness.count(case, place, kept);
}

/// The same text is written, however little is given and taken at once.
fn pieces(harness: &mut Harness<'_>, sample: &Sample<'_>, words: &[String], most: usize) {
    let manner = Manner {
        most_read: most,
        most_written: most,
        ..Manner::AMPLE
    };
    done(harness, "pieces", most, sample, words, manner);
}

/// A read that fails is reported, and nothing is written; the last one is that which finds the end.
fn reads(harness: &mut Harness<'_>, text: &[u8], words: &[String], fault: Option<ErrorKind>) {
    for before in 0..=text.len().div_ceil(READ) {
        let manner = Manner {
            most_read: READ,
            bad_read: before.saturating_add(1),
            fault,
            ..Manner::AMPLE
        };
        let kept = tells(harness, words, text, manner, "refused: Io\n");
        harness.count("read", before, kept);
    }
}

/// A write that fails is reported, and so is one that takes no byte; what was taken before is written.
fn writes(
    harness: &mut Harness<'_>,
    sample: &Sample<'_>,
    words: &[String],
    fault: Option<ErrorKind>,
) {
    for before in 0..sample.compact.len().div_ceil(WRITTEN) {
        let manner = Manner {
            most_written: WRITTEN,
            bad_write: before.saturating_add(1),
            fault,
            ..Manner::AMPLE
        };
        begins(
            harness,
            sample,
            words,
            manner,
            before.saturating_mul(WRITTEN),
        );
    }
}

/// A flush that fails is reported; all was written.
fn flush(
    harness: &mut Harness<'_>,
    sample: &Sample<'_>,
    words: &[String],
    fault: Option<ErrorKind>,
) {
    let manner = Manner {
        bad_flush: true,
        fault,
        ..Manner::AMPLE
    };
    begins(harness, sample, words, manner, sample.compact.len());
}

/// Counts a command whose I/O error is reported, and of whose text so many bytes were written.
fn begins(
    harness: &mut Harness<'_>,
    sample: &Sample<'_>,
    words: &[String],
    manner: Manner,
    count: usize,
) {
    let is_refused = ends_in(harness, words, sample.text.as_bytes(), manner, 1);
    let kept = match sample.compact.as_bytes().get(..count) {
        Some(begun) => is_refused && harness.has_begun(begun),
        None => false,
    };
    harness.count("written", count, kept);
}

/// Errors that cannot be reported change neither the status nor what is written.
fn untold(
    harness: &mut Harness<'_>,
    sample: &Sample<'_>,
    words: &[String],
    fault: Option<ErrorKind>,
) {
    let manner = Manner {
        bad_tell: 1,
        fault,
        ..Manner::AMPLE
    };
    done(harness, "untold", 0, sample, words, manner);
    let kept = tells(harness, words, b"", manner, "");
    harness.count("untold", 1, kept);
}
