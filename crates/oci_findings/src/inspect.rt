//! What is wrong with the bytes of a document.
ghost use Rattle.std.specs.Prelude.{◌≡◌, ◌↔◌, [], map, IfOk};
ghost use Rattle.serde_json.specs.Data.{Data};
ghost use Rattle.serde_json.specs.View.{view};
ghost use Rattle.oci_model.specs.Plain.{Plain};
ghost use Rattle.oci_model.specs.Means.{Means};
ghost use Rattle.oci_schemas.specs.Kinds.{shape_of};
ghost use Rattle.oci_schema.specs.Violations.{violations as all_violations};
ghost use Rattle.oci_findings.specs.Findings.{told, as_told};
ghost use Rattle.oci_findings.specs.Checks.{IsAllowed, IsReading};
ghost use Rattle.oci_findings.specs.FoundKind.{kind_for};

use crate::detect::{Document, detect, explain_open};
use crate::shown::{json_cause, violation_findings};
use crate::{Cause, Finding, Report, Severity};
use oci_schema::violations;
use oci_schemas::{Kind, OciRecords};
use serde_json::Value;
use std::alloc::{AllocError, Global};

/// What bytes hold.
#[derive(Drop)]
pub enum Reading {
    /// A value that is to be a document of this kind.
    Value(Kind, Value),
    /// No JSON, or a value whose kind cannot be found out.
    Fault(Finding<'static>),
}

/// Reads a value that is to be of the kind, or of the one that is found out by its file name and value. Fails if out of memory.
pub fn read_value(
    asked: Option<Kind>,
    name: &str,
    bytes: &[u8],
    alloc: Global,
) -> Result<Reading, AllocError>
    ensures { IfOk result (IsReading asked name.now bytes.now) }
{
    match Value::from_slice(alloc, bytes) {
        Ok(value) => match kind_of(asked, name, &value) {
            Some(kind) => Ok(Reading::Value(kind, value)),
            None => {
                let text = explain_open(&value, alloc)?;
                Ok(Reading::Fault(at_start(Cause::Kind(text), alloc)))
            }
        },
        Err(fault) => {
            if fault.is_memory() {
                return Err(AllocError);
            }
            let cause = json_cause(&fault, bytes, alloc)?;
            Ok(Reading::Fault(at_start(cause, alloc)))
        }
    }
}

/// The kind that is asked for, or that a document is found out to be.
pub fn kind_of<D: Document>(asked: Option<Kind>, name: &str, document: &D) -> Option<Kind>
    ensures { (d : Data) → D.holds document.now d → result ≡ kind_for asked name.now d }
{
    match asked {
        Some(kind) => Some(kind),
        None => detect(name, document),
    }
}

/// What the schema says of the bytes of a document of a kind, or of the kind that is found out by its file name and value: nothing if
/// and only if the schema of that kind allows it. Fails if out of memory.
#[tactic(auto, using(crate::proofs::Allowed::allowed_of, crate::proofs::Allowed::none_of, crate::proofs::Allowed::none_of_no_kind))]
pub fn inspect(
    kind: Option<Kind>,
    name: &str,
    bytes: &[u8],
    alloc: Global,
) -> Result<Report<'static>, AllocError>
    ensures allowed { IfOk result (λ r. r.errors.items ≡ [] → IsAllowed kind name.now bytes.now) }
    ensures all { IfOk result (λ r. IsAllowed kind name.now bytes.now → r.errors.items ≡ []) }
{
    match read_value(kind, name, bytes, alloc)? {
        Reading::Value(found, value) => {
            let errors = schema_errors(found, name, &value, alloc)?;
            Report::new(errors, Vec::new(alloc), bytes, alloc)
        }
        Reading::Fault(fault) => faulty(fault, alloc),
    }
}

/// A report of one error.
pub fn faulty<'a>(fault: Finding<'a>, alloc: Global) -> Result<Report<'a>, AllocError>
    ensures { IfOk result (λ r. ¬ (r.errors.items ≡ [])) }
{
    let mut errors = Vec::new(alloc);
    errors.push(fault)?;
    Report::new(errors, Vec::new(alloc), b"", alloc)
}

/// A finding on the whole document.
fn at_start<'a>(cause: Cause<'a>, alloc: Global) -> Finding<'a> {
    Finding {
        pointer: String::new(alloc),
        cause,
        severity: Severity::Error,
    }
}

/// The violations of a kind's schema by a value, and if there is one, that the document looks like one of another kind, where it does.
pub(crate) fn schema_errors<'a>(
    kind: Kind,
    name: &str,
    value: &Value,
    alloc: Global,
) -> Result<Vec<Finding<'a>>, AllocError>
    ensures { IfOk result (λ v. (v.items ≡ []) ↔ ((p : Plain) × Means (shape_of kind) (view value.now) p)) }
{
    let found = schema_findings(kind, value, alloc)?;
    with_other_kind(kind, name, value, found, alloc)
}

/// The findings, and if there is one, that the document looks like one of another kind, where it does.
pub fn with_other_kind<'a>(
    asked: Kind,
    name: &str,
    value: &Value,
    mut found: Vec<Finding<'a>>,
    alloc: Global,
) -> Result<Vec<Finding<'a>>, AllocError>
    ensures { IfOk result (λ v. (v.items ≡ []) ↔ (found.entry.items ≡ [])) }
{
    if found.is_empty() {
        return Ok(found);
    }
    if let Some(kind) = other_kind(asked, name, value) {
        found.push(looks_like(kind, alloc)?)?;
    }
    Ok(found)
}

/// The kind that a document looks like, if it is another one.
fn other_kind(asked: Kind, name: &str, value: &Value) -> Option<Kind> {
    match detect(name, value) {
        Some(kind) if kind != asked => Some(kind),
        _ => None,
    }
}

/// That a document looks like one of this kind.
fn looks_like<'a>(kind: Kind, alloc: Global) -> Result<Finding<'a>, AllocError> {
    let (title, word) = (kind.title(), kind.word());
    let text = format!(in alloc; "this looks like {title} (--kind {word})")?;
    Ok(at_start(Cause::Kind(text), alloc))
}

/// The violations of a kind's schema by a value.
pub fn schema_findings<'a>(
    kind: Kind,
    value: &Value,
    alloc: Global,
) -> Result<Vec<Finding<'a>>, AllocError>
    ensures all { IfOk result (λ v. map told v.items ≡ map as_told (all_violations (shape_of kind) [] (view value.now))) }
    ensures none { IfOk result (λ v. (v.items ≡ []) ↔ ((p : Plain) × Means (shape_of kind) (view value.now) p)) }
{
    let schema = kind.schema();
    let listed = violations(&OciRecords, schema, value, alloc)?;
    violation_findings(&listed, value, alloc)
}
