//! What holds of rules, whatever they are.
ghost use Rattle.std.specs.Prelude.{◌≡◌, List, true};
ghost use Rattle.std.specs.List.{Contains, list_all};
ghost use Rattle.serde_json.specs.Data.{Data};
ghost use Rattle.oci_schema.specs.Leads.{IsOrderly};
ghost use Rattle.oci_rules.specs.Documents.{platform_in};
ghost use Rattle.oci_rules.specs.Listed.{all_broken};
ghost use Rattle.oci_rules.specs.Nulls.{LeavesOutNulls, Minds, minds_no_null};
ghost use Rattle.oci_rules.specs.Rules.{Platform, Rule};

/// A member that is null is as good as none: the same rules are broken at the same places if some such members of a document, or all,
/// are left out. To three sorts of rules they matter: to those that ask that a member is not null, to those that ask how many
/// members an object has, and to those that look at the names of members; and to these only where they come to such a member. It
/// changes nothing in the platform that a document is for either. The document's objects have each name once, as those of each value
/// that is read (`oci_schema::laws::names_are_in_order`).
pub fn nulls_are_nothing()
    ensures same { (rules : List Rule) (platform : Platform) (d e : Data) → IsOrderly d → LeavesOutNulls d e → ((r : Rule) → Contains rules r → ¬ Minds r d)
        → all_broken rules platform d ≡ all_broken rules platform e }
    ensures whatever { (rules : List Rule) (platform : Platform) (d e : Data) → IsOrderly d → LeavesOutNulls d e → list_all minds_no_null rules ≡ true
        → all_broken rules platform d ≡ all_broken rules platform e }
    ensures platform { (d e : Data) → IsOrderly d → LeavesOutNulls d e → platform_in d ≡ platform_in e }
{}
