//! The books of rules of the specifications.
ghost use Rattle.oci_rule_books.specs.Kinds.{rules_of};

use oci_commands::{RuleBooks, Versions};
use oci_rules::Rule;
use oci_schemas::Kind;
use std::alloc::{AllocError, Global};

/// The rules of the specifications.
#[derive(Clone, Copy)]
pub struct Specifications;

impl RuleBooks for Specifications {
    ghost rules = { λ _ kind. rules_of kind };

    fn books_of(
        &self,
        kind: Kind,
        alloc: Global,
    ) -> Result<Vec<&'static [Rule<'static>]>, AllocError> {
        oci_rule_books::rules_of(kind, alloc)
    }
}

impl Versions for Specifications {
    fn versions(&self) -> &'static str {
        oci_rule_books::VERSIONS
    }
}
