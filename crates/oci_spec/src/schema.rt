//! Schemas of all documents, and what is done by them: whether a value or a document's bytes are valid, all violations, and the normal
//! form of a document from its bytes, by a schema and its table of records or by a type.
mod distribution;
mod image;
mod linux;
mod runtime;
pub mod typed;

pub use oci_schema::bytes::{
    Workspace, is_valid_bytes, normalize, normalize_bytes, normalize_pretty,
    normalize_pretty_bytes, violations_in_bytes,
};
pub use oci_schema::{
    DefaultValue, Expected, ExpectedKind, Member, Part, Presence, Record, Records, Scalar, Schema,
    Violation, is_valid, violation_lines, violations,
};
pub use oci_schemas::{OciRecords, oci_records};
pub use typed::{HasSchema, is_valid_as, normalize_as, normalize_pretty_as, violations_as};
