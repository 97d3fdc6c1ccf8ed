//! Lists of texts: fields, each with its length before it.
ghost use Rattle.std.specs.Prelude.{◌≡◌, ◌++◌, map, IfOk, OnOk};
ghost use Rattle.std.specs.List.{flat_map};
ghost use Rattle.oci_schema.specs.Violations.{reported};
ghost use Rattle.oci_ffi.specs.Fields.{field, violation_fields, violation_list, broken_fields};

use oci_rules::Broken;
use oci_schema::Violation;
use std::alloc::{AllocError, Global};

/// Adds the field of a text.
#[tactic(auto, unfolding(crate::specs::Fields::field))]
fn push_field(fields: &mut Vec<u8>, text: &str) -> Result<(), AllocError>
    ensures { OnOk result (fields.new.items ≡ fields.old.items ++ field text.now) }
{
    let len = text.len() as u64;
    fields.extend_from_slice(&len.to_le_bytes())?;
    fields.extend_from_slice(text.as_bytes())
}

/// Adds the fields of a violation.
fn push_violation(
    fields: &mut Vec<u8>,
    violation: &Violation,
    alloc: Global,
) -> Result<(), AllocError>
    ensures { OnOk result (fields.new.items ≡ fields.old.items ++ violation_fields (reported violation.now)) }
{
    let expected = violation.expected;
    let text = format!(in alloc; "{expected}")?;
    push_field(fields, violation.pointer.as_str())?;
    push_field(fields, text.as_str())
}

/// The list of violations.
pub(crate) fn list_violations(found: &[Violation], alloc: Global) -> Result<Vec<u8>, AllocError>
    ensures { IfOk result (λ v. v.items ≡ violation_list (map reported found.now)) }
{
    let mut fields = Vec::new(alloc);
    for violation in found {
        push_violation(&mut fields, violation, alloc)?;
    }
    Ok(fields)
}

/// Adds the fields of a part that breaks a rule.
fn push_broken(fields: &mut Vec<u8>, broken: &Broken) -> Result<(), AllocError>
    ensures { OnOk result (fields.new.items ≡ fields.old.items ++ broken_fields broken.now) }
{
    let rule = broken.rule;
    push_field(fields, broken.pointer.as_str())?;
    push_field(fields, rule.name)?;
    push_field(fields, rule.level.word())?;
    push_field(fields, rule.section)?;
    push_field(fields, rule.wanted)
}

/// The list of parts that break a rule.
pub(crate) fn list_broken(found: &[Broken], alloc: Global) -> Result<Vec<u8>, AllocError>
    ensures { IfOk result (λ v. v.items ≡ flat_map broken_fields found.now) }
{
    let mut fields = Vec::new(alloc);
    for broken in found {
        push_broken(&mut fields, broken)?;
    }
    Ok(fields)
}
