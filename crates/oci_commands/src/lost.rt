//! What would be lost of a document, were it written.
ghost use Rattle.std.specs.Prelude.{◌≡◌, ◌↔◌, [], true, false, IfOk};
ghost use Rattle.serde_json.specs.View.{view};
ghost use Rattle.oci_findings.specs.Checks.{AllKept, HasNamesOnce};
ghost use Rattle.oci_commands.specs.Formats.{AllWritten};

use crate::texts::report_findings;
use json::Error;
use oci_base::{OciSpecError, Result};
use oci_findings::Report;
use oci_findings::examine::lost_members;
use oci_findings::repeated::repeated_findings;
use oci_schemas::Kind;
use serde_json::Value;
use std::alloc::Global;
use std::io::Write;

/// Why no file was written.
const NOT_WRITTEN: &str =
    "not written, since the members above would be lost; --keep-unknown keeps unknown ones, --drop-unknown leaves all out";

/// The same where unknown members are kept.
const NOT_WRITTEN_TWICE: &str =
    "not written, since earlier members of the names above would be lost";

/// The members that what is written lacks, unknown ones too unless they are kept. Fails if out of memory, and for 4 GiB or more.
pub fn lost(
    keep: bool,
    kind: Kind,
    before: &Value,
    bytes: &[u8],
    alloc: Global,
) -> Result<Report<'static>>
    ensures { IfOk result (λ r. (r.errors.items ≡ []) ↔ AllWritten keep kind (view before.now) bytes.now) }
{
    if keep {
        repeated(bytes, alloc)
    } else {
        all_lost(kind, before, bytes, alloc)
    }
}

/// The members that the canonical form lacks.
fn all_lost(kind: Kind, before: &Value, bytes: &[u8], alloc: Global) -> Result<Report<'static>>
    ensures { IfOk result (λ r. (r.errors.items ≡ []) ↔ AllKept kind (view before.now) bytes.now) }
{
    match lost_members(kind, before, bytes, alloc) {
        Ok(report) => Ok(report),
        Err(fault) => Err(error_of(fault, alloc)),
    }
}

/// The members whose name an earlier one of the same object has. Fails as `lost` does.
fn repeated(bytes: &[u8], alloc: Global) -> Result<Report<'static>>
    ensures { IfOk result (λ r. (r.errors.items ≡ []) ↔ HasNamesOnce bytes.now) }
{
    match repeated_findings(bytes, false, alloc) {
        Ok(errors) => Ok(Report::new(errors, Vec::new(alloc), bytes, alloc)?),
        Err(fault) => Err(error_of(fault, alloc)),
    }
}

fn error_of(fault: Error, alloc: Global) -> OciSpecError {
    match fault {
        Error::OutOfMemory => OciSpecError::Memory,
        fault => match format!(in alloc; "{fault}") {
            Ok(text) => OciSpecError::Other(text),
            Err(_) => OciSpecError::Memory,
        },
    }
}

/// Whether an object in the bytes of a file has a name twice, which is said on standard error.
pub fn has_name_twice<E: Write>(
    name: &str,
    bytes: &[u8],
    alloc: Global,
    errors: &mut E,
) -> Result<bool>
    ensures twice { IfOk result (λ b. b ≡ true → ¬ HasNamesOnce bytes.now) }
    ensures once { IfOk result (λ b. b ≡ false → HasNamesOnce bytes.now) }
{
    let found = repeated(bytes, alloc)?;
    if found.errors.is_empty() {
        return Ok(false);
    }
    report_findings(name, &found, alloc, errors)?;
    Ok(true)
}

/// Why no file was written.
pub fn why_not(keep: bool) -> &'static str {
    if keep { NOT_WRITTEN_TWICE } else { NOT_WRITTEN }
}
