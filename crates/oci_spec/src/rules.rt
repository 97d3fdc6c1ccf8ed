//! Rules beyond schemas: what the specifications ask of one document that its schema does not say, policies of one's own from TOML
//! files, members that a schema does not list, and names that stand twice.
pub use oci_grammars::Grammar;
pub use oci_policies::{Book, Bump, Policy, PolicyError, Reason};
pub use oci_rule_books::rules_of;
pub use oci_rules::{
    Broken, Condition, Key, Level, Origin, Platforms, Predicate, Rule, RuntimePlatform, Step, Test,
    broken, broken_in, platform_of_document,
};
pub use oci_schema::{UnknownMember, repeated_names, suggestion, unknown_members};
pub use oci_schemas::Kind;
