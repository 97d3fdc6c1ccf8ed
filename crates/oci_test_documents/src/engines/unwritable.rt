use super::rows::DETAILS;
use crate::checks::{check, check_refused, written};
use crate::distribution::{info, reply};
use oci_base::Result;
use oci_json::{to_string, to_string_pretty, to_writer, to_writer_pretty};
use oci_model::OciRecord;
use oci_test_support::{Harness, Manner};

const PLACE: (&str, &str) = ("ErrorInfo", "detail");

/// Each engine refuses the document, and writes nothing.
fn check_unwritable<T: OciRecord>(harness: &mut Harness<'_>, case: &str, document: &T) {
    let alloc = harness.rt.alloc();
    check(harness, case, to_string(document, alloc), Err(PLACE));
    check(harness, case, to_string_pretty(document, alloc), Err(PLACE));
    harness.output.begin(Manner::AMPLE);
    let compact = to_writer(document, alloc, &mut harness.output);
    check_refused(harness, case, compact, PLACE);
    let pretty = to_writer_pretty(document, alloc, &mut harness.output);
    check_refused(harness, case, pretty, PLACE);
    let kept = harness.output.is_untouched();
    harness.count(case, 0, kept);
}

/// The same for a document that was made.
fn check_made<T: OciRecord>(harness: &mut Harness<'_>, case: &str, made: Result<T>) {
    match made {
        Ok(document) => check_unwritable(harness, case, &document),
        Err(_) => harness.count(case, 0, false),
    }
}

/// A `detail` is written as the value of its text; where that has none, nothing is written of the error or of a reply.
pub fn all(harness: &mut Harness<'_>) {
    let alloc = harness.rt.alloc();
    for (detail, expected) in &DETAILS {
        check(
            harness,
            detail,
            written(alloc, info(alloc, detail)),
            *expected,
        );
        if expected.is_err() {
            check_made(harness, detail, info(alloc, detail));
            check_made(harness, detail, reply(alloc, detail));
        }
    }
    harness.end("engines", "details");
}
