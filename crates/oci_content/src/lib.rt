//! Content beside what is said of it: digests of bytes and of what a reader gives, and whether a content has the size and the
//! digest that its descriptor says (image specification, "Content Descriptors").
#![tactic(auto)]

pub mod algorithm;
pub mod checksum;
pub mod descriptor;
pub mod embedded;
pub mod hasher;
mod intake;
pub mod judging;
pub mod laws;
pub mod verdict;

pub use algorithm::Algorithm;
pub use checksum::Checksum;
pub use descriptor::{verify, verify_reader};
pub use embedded::{Embedded, verify_base64, verify_data};
pub use hasher::{Hasher, digest_of, digest_of_reader};
pub use judging::{verify_bytes, verify_reader_bytes};
pub use verdict::Verdict;
