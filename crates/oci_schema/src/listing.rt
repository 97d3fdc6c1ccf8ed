//! All schema violations of a value, and a line for each.
ghost use Rattle.std.specs.Prelude.{◌≡◌, ◌↔◌, [], map, IfOk, string_bytes};
ghost use Rattle.std.specs.List.{Contains};
ghost use Rattle.serde_json.specs.View.{view};
ghost use Rattle.oci_model.specs.Plain.{Plain};
ghost use Rattle.oci_model.specs.Means.{Means};
ghost use Rattle.oci_schema.specs.Shapes.{schema_shape};
ghost use Rattle.oci_schema.specs.Lines.{lines};
ghost use Rattle.oci_schema.specs.Violations.{Report, reported, violations as all_violations};
ghost use Rattle.oci_schema.specs.Wants.{IsViolation};

use crate::find::add_violations;
use crate::place::Place;
use crate::{Records, Schema, Violation};
use serde_json::Value;
use std::alloc::{AllocError, Global};

/// Returns every violation of the schema in `value`, in schema order: the JSON pointer of the part and what was expected there.
/// A violation is returned exactly if a way through `value` leads to a part that is not of the kind that the schema wants there, or
/// to an object without a required member, or with a member under its name and its alias. None is returned exactly if `value` is
/// valid. Fails if out of memory.
///
/// Types alone are checked: a member that is present and of its type is valid, whatever else the specification asks of it.
pub fn violations<T: Records>(
    records: &T,
    schema: &Schema,
    value: &Value,
    alloc: Global,
) -> Result<Vec<Violation>, AllocError>
    ensures all { IfOk result (λ v. map reported v.items ≡ all_violations (schema_shape (T.shape_at records.now) schema.now) [] (view value.now)) }
    ensures exact { IfOk result (λ v. (x : Report) → Contains (map reported v.items) x ↔ IsViolation (schema_shape (T.shape_at records.now) schema.now) (view value.now) x) }
    ensures none { IfOk result (λ v. (v.items ≡ []) ↔ ((p : Plain) × Means (schema_shape (T.shape_at records.now) schema.now) (view value.now) p)) }
{
    let mut found = Vec::new(alloc);
    add_violations(records, schema, value, &Place::Root, &mut found, alloc)?;
    Ok(found)
}

/// Returns a line for each violation, in their order: its JSON pointer, escaped, `: `, and what was expected there, as it displays. A
/// newline inside a member's name is escaped too, so a line is a violation. Fails if out of memory.
pub fn violation_lines(found: &[Violation], alloc: Global) -> Result<String, AllocError>
    ensures { IfOk result (λ t. string_bytes t ≡ lines (map reported found.now)) }
{
    let mut text = String::new(alloc);
    for violation in found {
        let line = format!(in alloc; "{violation}\n")?;
        text.push_str(line.as_str())?;
    }
    Ok(text)
}
