//! Golden tests: documents as data through every way of reading and writing, defaults, and rules with what breaks and keeps each.
#![tactic(auto)]

pub mod defaults;
pub mod golden;
pub mod rules;
