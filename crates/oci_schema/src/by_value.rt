//! The normal form by way of a JSON value, which `serde_json` reads and prints. It is what the calls of `crate::bytes` fall back to where
//! they leave a document, and what programs call that have a value or want one, as `ocidoc`, which promises to read and print by
//! `serde_json`, and tests, which compare both ways. All others call `crate::bytes`.

mod compact;
mod pretty;
mod value;

pub use compact::{normal_value_from_reader, normalize};
pub use pretty::normalize_pretty;
pub use value::normalize_value;
