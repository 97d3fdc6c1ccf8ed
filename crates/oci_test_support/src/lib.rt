//! What test programs share: a harness that counts and reports cases, streams that give and take little or fail, what such a program
//! needs for itself, and the rows of golden tables.
#![tactic(auto)]

pub mod frame;
pub mod harness;
pub mod rows;
pub mod streams;

pub use frame::{HarnessOutOfMemory, Sample, exit, words};
pub use harness::{Answer, Harness};
pub use streams::{Input, Manner, Output};
