//! What holds between commands.
ghost use Rattle.std.specs.Prelude.{◌↔◌, ℕ, List};
ghost use Rattle.oci_schemas.specs.declared.kind.Kind.{Kind};
ghost use Rattle.oci_rules.specs.Rules.{Rule};
ghost use Rattle.oci_findings.specs.Checks.{IsRight};
ghost use Rattle.oci_findings.specs.declared.asked.Check.{Check};
ghost use Rattle.oci_commands.specs.Laws.{AsksTypesAlone, HasForm};

/// Where types alone are asked for, nothing is wrong with a file for `check` exactly if `fmt` has a canonical form to write of it, and
/// no key of an annotation stands twice in it.
pub fn check_is_format()
    ensures { (books : Kind → List Rule) (a : Check) (name bytes : List ℕ) → AsksTypesAlone a
        → IsRight books a name bytes ↔ HasForm a name bytes }
{}
