//! A decoder of gzip files (RFC 1952), which reads from a reader and hands the text to a sink, piece by piece, in constant memory.
#![tactic(auto)]

mod bytes;
mod checked;
mod error;
mod header;
pub mod laws;
mod member;

pub use error::GzipError;
pub use inflate::Sink;
pub use member::decode;
