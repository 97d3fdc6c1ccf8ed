//! The commands of the program `ocidoc`.
#![tactic(auto)]

pub mod command;
pub mod document;
pub mod pinning;
pub mod program;
pub mod refusal;
pub mod streams;
pub mod text;

pub use command::Command;
pub use oci_schemas::Kind;
pub use program::run;
pub use refusal::Refusal;
pub use streams::run_on_streams;
