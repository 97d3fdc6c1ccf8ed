//! Regular expressions: whether a text is one, and whether another text has a match of it.
#![tactic(auto)]

pub mod pattern;

pub use pattern::{PatternError, is_match, validate};
