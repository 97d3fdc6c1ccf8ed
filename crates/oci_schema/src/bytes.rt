//! A JSON document by a schema straight from its bytes: whether it is valid, and its normal form, without a value in between where
//! the schema allows that. The normal form is written compact or pretty, to a vector (`normalize_bytes`, `normalize_pretty_bytes`) or
//! from a reader to a writer (`normalize`, `normalize_pretty`).

mod absent;
mod by_value;
mod calls;
mod capabilities;
mod fields;
mod lane;
pub mod laws;
mod object;
mod pretty;
mod scalar;
mod streams;
mod tape;
mod walk;

pub use calls::{is_valid_bytes, normalize_bytes, violations_in_bytes};
pub use lane::Workspace;
pub use pretty::{normalize_pretty, normalize_pretty_bytes};
pub use streams::normalize;
pub use tape::{is_accepted_tape, normal_text_of, pretty_text_of};
