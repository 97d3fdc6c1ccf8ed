//! What is wrong with the bytes of a document, as findings with their places, and how findings are shown: as lines, JSON and SARIF.
#![tactic(auto)]

pub mod annotations;
pub mod asked;
pub mod claimed;
pub mod color;
pub mod contents;
pub mod detect;
pub mod examine;
pub mod file_fault;
pub mod finding;
pub mod github;
pub mod inspect;
pub mod json_fault;
mod json_string;
pub mod kinds;
pub mod laws;
pub mod left_out;
mod levels;
pub mod outline;
pub mod place;
pub mod quick;
pub mod render;
pub mod repeated;
pub mod report;
pub mod reporter;
pub mod rulebooks;
pub mod sarif;
pub mod shown;
pub mod style;
pub mod table;
pub mod totals;
pub mod uri;
pub mod wording;

pub use asked::{Book, Check, Unknown};
pub use claimed::Claims;
pub use contents::{content_findings, content_report, document_findings};
pub use file_fault::{Absence, FileFault};
pub use finding::{Cause, Finding, Severity};
pub use kinds::kind_named;
pub use report::Report;
pub use reporter::Reporter;
pub use rulebooks::RuleBooks;
pub use style::Style;
pub use totals::Totals;
