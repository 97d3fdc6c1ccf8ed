//! References to images, as `docker.io/library/busybox:latest`: their grammar, a scanner that reads one byte by byte, and `Reference`.
#![tactic(auto)]

pub mod error;
pub mod laws;
mod limits;
mod names;
pub mod pieces;
pub mod reference;
pub mod scan_laws;
pub mod scanner;
mod texts;

pub use error::ParseError;
pub use pieces::{Pieces, parts};
pub use reference::Reference;
pub use scanner::{Places, Scanner};
