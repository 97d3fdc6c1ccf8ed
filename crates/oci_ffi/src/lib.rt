//! Ciderglen for other languages: the canonical form of documents, their violations, the rules that they break, references, digests and pinning, as functions
//! of the C calling convention on numbers and bytes. Each returns a status of [`status`], keeps no state, and writes only to
//! buffers of its caller.
#![tactic(auto)]

mod buffer;
pub mod content;
pub mod digest;
pub mod document;
mod fields;
mod input;
pub mod interface;
pub mod kind;
pub mod level;
mod normal;
pub mod pinning;
pub mod platform;
pub mod reference;
pub mod rules;
pub mod status;
pub mod violations;
