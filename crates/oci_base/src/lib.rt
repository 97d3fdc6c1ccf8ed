//! What all crates share: the errors, the classes of bytes, in `specs/` the grammars, and the escaping of texts that a stranger wrote.
#![tactic(auto)]

pub mod classes;
pub mod error;
pub mod laws;
mod shown;
mod text;

pub use error::{
    OciSpecError, Result, SchemaFault, SerDeError, UninitializedFieldError, UnknownName,
};
pub use shown::Escaped;
pub use text::{escaped, line_of};
