//! What holds of all books of rules.
ghost use Rattle.std.specs.Prelude.{◌≡◌};
ghost use Rattle.serde_json.specs.Data.{Data};
ghost use Rattle.oci_model.specs.Means.{Means};
ghost use Rattle.oci_model.specs.Plain.{Plain};
ghost use Rattle.oci_schema.specs.Leads.{IsOrderly};
ghost use Rattle.oci_schemas.specs.Kinds.{shape_of};
ghost use Rattle.oci_schemas.specs.declared.kind.Kind.{Kind};
ghost use Rattle.oci_rules.specs.Listed.{all_broken};
ghost use Rattle.oci_rules.specs.Nulls.{LeavesOutNulls};
ghost use Rattle.oci_rules.specs.Rules.{Platform};
ghost use Rattle.oci_rule_books.specs.Nulls.{unminding};

/// A document that the schema of its kind allows breaks the same rules at the same places if members of it that are null are left
/// out, some or all, but for two: `annotations-not-null`, which asks that no such member is null, and `features-no-other-members`,
/// which looks at the names of members that the schema does not know.
pub fn nulls_are_nothing_in_books()
    ensures { (kind : Kind) (platform : Platform) (d e : Data) (p : Plain) → IsOrderly d → Means (shape_of kind) d p → LeavesOutNulls d e
        → all_broken (unminding kind) platform d ≡ all_broken (unminding kind) platform e }
{}
