//! Rules as values, and what breaks them in a JSON value.
#![tactic(auto)]

mod apart;
mod conditions;
pub mod document;
pub mod find;
mod items;
mod keys;
pub mod laws;
mod parts;
mod passes;
pub mod rule;
mod show;
mod words;

pub use document::{broken_in, platform_of_document};
pub use find::broken;
pub use rule::{
    Broken, Condition, Key, Level, Origin, Platforms, Predicate, Rule, RuntimePlatform, Step, Test,
};
