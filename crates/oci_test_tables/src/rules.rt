//! Golden rules: asks the rules of documents, policies and lints, and prints how many rows of each kind it checked, and each that
//! differs.
//!
//! `rules/KIND.rows` has the rows of a kind of documents, with an empty line between them. A row is three lines: the platform, or `-` for
//! the document's own; the document; and what is listed, in order: `RULE POINTER` with two blanks between entries, or `-`. What begins
//! with `#` is a remark. `tools/gen rules` writes them from `tools/rules/rows`. `rules/texts.rows` has a text in each row: the grammar,
//! whether the text is of it, the text as JSON, and where it is from, by tabs.
//!
//! `rules/POLICY.rows` has the rows of the policy in `rules/POLICY.toml`: a remark, a document, and what is listed. `rules/refused.rows` has
//! texts that are no policies: what is said of each, and the text. `rules/unknown.rows` has rows of unknown members: a kind of documents, a
//! document, and `POINTER SUGGESTION` of each member, with `-` where none is near. `rules/twice.rows` has those of names that stand twice: a
//! remark, a text, and the pointers.

mod books;
mod lint;
mod listing;
mod policies;
mod rows;
mod texts;

use anyhow::Result;
pub use listing::list;
use oci_test_support::rows::report;
use policies::check_policy;
use rows::rows;
use texts::texts;

const KINDS: [&str; 14] = [
    "manifest",
    "index",
    "config",
    "artifact",
    "layout",
    "descriptor",
    "error",
    "repositories",
    "tags",
    "reference",
    "spec",
    "state",
    "process-state",
    "features",
];

const POLICIES: [&str; 3] = ["restricted-container", "published-image", "each-test"];

const LINTS: [&str; 3] = ["refused", "unknown", "twice"];

fn all(rt: &HostRuntime) -> Result<()> {
    for kind in &KINDS {
        rows(rt, kind);
    }
    texts(rt)?;
    for name in &POLICIES {
        check_policy(rt, name)?;
    }
    for file in &LINTS {
        rows(rt, file);
    }
    Ok(())
}

/// Checks the rows of all files.
pub fn run(rt: &HostRuntime) {
    report(rt, "rules", all(rt));
}
