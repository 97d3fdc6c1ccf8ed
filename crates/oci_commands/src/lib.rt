//! The commands of the program `ciderglen`: a command as a value, and what it reads and writes over a store of files and two writers.
#![tactic(auto)]

pub mod asked;
pub mod books;
pub mod canonical;
pub mod check;
pub mod compare;
pub mod contents;
pub mod document_texts;
pub mod drawing;
pub mod explained;
pub mod files;
pub mod json_schema;
pub mod kept;
pub mod kinds;
pub mod laws;
pub mod left_out;
pub mod lost;
pub mod nearest;
pub mod objects;
pub mod outcome;
pub mod outline;
pub mod pins;
pub mod program;
pub mod records;
pub mod rule_lists;
pub mod rule_objects;
pub mod rule_places;
pub mod rules_named;
pub mod same_kind;
pub mod shown;
pub mod sums;
pub mod table;
pub mod texts;

pub use asked::{Asked, Book, Check, Compare, Format, Outline, Style, Target, Unknown};
pub use books::Versions;
pub use files::Files;
pub use oci_findings::RuleBooks;
pub use outline::tree_of_layout;
pub use program::run;
