//! What differs between two JSON values, as a list of places with what is there in the one and the other.
#![tactic(auto)]

pub mod aligned;
pub mod changes;

pub use changes::{Change, Difference, differences};
