//! Whether what `fmt` writes is found to be of the kind of the document.
ghost use Rattle.std.specs.Prelude.{◌≡◌, ◌↔◌, Some, IfOk, IsTrue};
ghost use Rattle.oci_schemas.specs.declared.kind.Kind.{Kind as kind_type};
ghost use Rattle.oci_findings.specs.Checks.{IsKindIn};

use crate::asked::Format;
use crate::texts::complain_of;
use oci_base::Result;
use oci_findings::inspect::kind_of;
use oci_schemas::Kind;
use serde_json::Value;
use std::alloc::Global;
use std::io::Write;

/// The kind that is asked for, or that the value in these bytes is found to be of.
pub fn kind_in(asked: Option<Kind>, name: &str, bytes: &[u8], alloc: Global) -> Result<Option<Kind>>
    ensures { IfOk result (λ o. (kind : kind_type) → (o ≡ Some kind) ↔ IsKindIn asked name.now (Some bytes.now) kind) }
{
    match asked {
        Some(kind) => Ok(Some(kind)),
        None => {
            let value = Value::from_slice(alloc, bytes)?;
            Ok(kind_of(None, name, &value))
        }
    }
}

/// Whether a kind that was looked for is this one.
pub fn is_kind(found: Option<Kind>, kind: Kind) -> bool
    ensures { IsTrue result ↔ (found ≡ Some kind) }
{
    match found {
        Some(found) => found == kind,
        None => false,
    }
}

/// Says that what is written is found to be of another kind than the document, or of none.
pub fn say_other_kind<E: Write>(
    asked: &Format<'_>,
    kind: Kind,
    other: Option<Kind>,
    alloc: Global,
    errors: &mut E,
) -> Result<()> {
    if asked.output.is_none() && asked.quiet {
        return Ok(());
    }
    let before = kind.title();
    let after = match other {
        Some(kind) => kind.title(),
        None => "of no kind",
    };
    let fault = match asked.output {
        Some(_) => format!(in alloc;
            "not written, since this is {before}, and its canonical form would be {after}; say which with --kind"
        )?,
        None => format!(in alloc;
            "this is {before}, and its canonical form is {after}; say which with --kind"
        )?,
    };
    complain_of(asked.file, &fault, alloc, errors);
    Ok(())
}
