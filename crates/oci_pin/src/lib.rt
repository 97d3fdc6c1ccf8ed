//! References pinned to the content that a descriptor names.
#![tactic(auto)]

pub mod pinning;

pub use pinning::pin;
