//! The documents of the three specifications of the Open Container Initiative under one name: images, what registries answer, and
//! containers; in `schema` their schemas, with validation and normalization by them; and in `rules` what they ask beyond their
//! schemas, and policies of one's own.
#![tactic(auto)]

pub mod distribution;
pub mod image;
pub mod rules;
pub mod runtime;
pub mod schema;

pub use oci_base::{
    OciSpecError, Result, SchemaFault, SerDeError, UninitializedFieldError, UnknownName,
};
pub use oci_text::{Explanation, JsonName, explain};
