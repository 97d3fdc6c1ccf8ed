//! Where a command finds the rules of the specifications.
ghost use Rattle.std.specs.Prelude.{◌≡◌, List, map, IfOk};
ghost use Rattle.std.specs.List.{flat_map};
ghost use Rattle.oci_schemas.specs.declared.kind.Kind.{Kind};
ghost use Rattle.oci_rules.specs.Rules.{Rule};
ghost use Rattle.oci_rules.specs.Tables.{rule_of};

use oci_rules::Rule;
use oci_schemas::Kind;
use std::alloc::{AllocError, Global};

/// The rules of the specifications, by the kind of documents.
pub trait RuleBooks {
    /// The rules for documents of a kind.
    ghost rules: { Self → Kind → List Rule };

    /// The books of a kind of documents. Fails if out of memory.
    fn books_of(
        &self,
        kind: Kind,
        alloc: Global,
    ) -> Result<Vec<&'static [Rule<'static>]>, AllocError>
        ensures { IfOk result (λ v. flat_map (λ b. map rule_of b.now) v.items ≡ rules self.now kind) };
}
