//! Policies: rules of one's own, read from a TOML file.
#![tactic(auto)]

pub mod book;
mod conditions;
pub mod error;
mod grammars;
mod kinds;
mod places;
pub mod policy;
mod rules;
mod values;

pub use book::Book;
pub use bumpalo::Bump;
pub use error::{PolicyError, Reason};
pub use policy::Policy;
