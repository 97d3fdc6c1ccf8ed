//! The grammars of texts that the rules of the specifications ask for, and what decides them.
#![tactic(auto)]

mod base64_text;
mod classes;
mod controls;
mod cuts;
mod date_time;
mod entries;
mod grammar;
mod license_lists;
mod licenses;
mod media_type;
mod names;
mod nesting;
mod numbers;
mod parts;
mod paths;
mod precedence;
mod settings;
mod signals;
mod uris;
mod versions;

pub use grammar::Grammar;
pub use license_lists::has_listed_licenses;
pub use nesting::is_inside;
pub use precedence::are_in_order;
