//! The program's commands, run in the test harness.

use oci_doc_run::run;
use oci_test_support::{Harness, Input, Manner};

/// The status of a command.
pub fn status(
    harness: &mut Harness<'_>,
    words: &[String],
    input: &mut Input<'_>,
    manner: Manner,
) -> u8 {
    harness.output.begin(manner);
    harness.errors.begin_errors(manner);
    run(
        harness.rt.alloc(),
        words,
        input,
        &mut harness.output,
        &mut harness.errors,
    )
}

/// The command gives what the last one wrote, given that.
pub fn gives_itself(harness: &mut Harness<'_>, words: &[String]) -> bool {
    harness.again.begin(Manner::AMPLE);
    harness.errors.begin(Manner::AMPLE);
    let mut input = Input::new(harness.output.taken(), Manner::AMPLE);
    let status = run(
        harness.rt.alloc(),
        words,
        &mut input,
        &mut harness.again,
        &mut harness.errors,
    );
    status == 0 && harness.again.is_done(harness.output.taken())
}

/// Whether a command that is given this ends in this status.
pub fn ends_in(
    harness: &mut Harness<'_>,
    words: &[String],
    text: &[u8],
    manner: Manner,
    expected: u8,
) -> bool {
    let mut input = Input::new(text, manner);
    status(harness, words, &mut input, manner) == expected
}

/// Whether a command is refused, writes nothing and tells this.
pub fn tells(
    harness: &mut Harness<'_>,
    words: &[String],
    text: &[u8],
    manner: Manner,
    line: &str,
) -> bool {
    ends_in(harness, words, text, manner, 1) && harness.has_told(line)
}
