//! How a layout is verified.
ghost use Rattle.std.specs.Prelude.{◌≡◌, false};
ghost use Rattle.oci_verify.specs.Asked.{AsksNothing};

use oci_findings::{Check, Style, Unknown};
use oci_layout::DOCUMENT_LIMIT;
use oci_rules::Level;

/// How a layout is verified, and how that is reported.
#[derive(Clone, Copy)]
pub struct Options<'a> {
    /// What is asked of each document that is reached, as `check` asks it of a file: rules, a policy, what is done with members that the
    /// schema does not list, and whether warnings count. Where they count, notes on the layout do too. The names of rules choose among
    /// what the documents of an image agree on as well. No heed is paid to its kind, its files, and whether it is quiet.
    pub check: Check<'a>,
    /// Contents that are no documents are left unread: their sizes alone are looked at.
    pub quick: bool,
    /// A line a second of what was done, on standard error.
    pub progress: bool,
    /// A line of how much was verified, on standard error.
    pub verbose: bool,
    /// How large a document may be, in bytes.
    pub limit: u64,
}

impl<'a> Options<'a> {
    /// Nothing is asked of documents beside their schemas, all contents are read, and documents have 4 MiB at most.
    pub fn new() -> Options<'a>
        ensures nothing { AsksNothing result.check }
        ensures full { result.quick ≡ false }
        ensures limit { result.limit ≡ 4194304 }
    {
        Options {
            check: Check {
                kind: None,
                rules: false,
                policy: &[],
                level: Level::Should,
                platform: None,
                unknown: Unknown::Allow,
                skip_unknown: false,
                strict: false,
                ignore: &[],
                only: &[],
                style: Style::Text,
                quiet: false,
                files: &[],
            },
            quick: false,
            progress: false,
            verbose: false,
            limit: DOCUMENT_LIMIT,
        }
    }
}
