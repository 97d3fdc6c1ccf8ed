//! The texts of the canonical form of a document in memory.
ghost use Rattle.std.specs.Prelude.{◌≡◌, Some, IfOk, IfErr};
ghost use Rattle.oci_json.specs.Engines.{WritesDocument, IsNoJson, IsNotNormalized};
ghost use Rattle.oci_model.specs.WellFormed.{WellFormed};
ghost use Rattle.oci_schema.specs.Normalizes.{WritesPretty};
ghost use Rattle.oci_base.specs.Refused.{IsJson, IsSchema, IsMemoryOrSerDe};
ghost use Rattle.oci_ffi.specs.Kinds.{shape_of};

use oci_base::Result;
use oci_schema::Schema;
use oci_schema::bytes::{Workspace, normalize_bytes, normalize_pretty_bytes};
use oci_schemas::OciRecords;
use std::alloc::Global;

/// The compact text of the canonical form of a document.
pub(crate) fn compact_text(schema: &Schema, alloc: Global, document: &[u8]) -> Result<Vec<u8>>
    requires { WellFormed (shape_of schema.now) }
    ensures ok { IfOk result (λ t. WritesDocument (shape_of schema.now) (Some document.now) (λ text. t.items ≡ text)) }
    ensures json { IfErr result (λ e. IsJson e → IsNoJson document.now) }
    ensures schema { IfErr result (λ e. IsSchema e → IsNotNormalized (shape_of schema.now) document.now) }
    ensures kind { IfErr result IsMemoryOrSerDe }
{
    let mut text = Vec::new(alloc);
    let mut workspace = Workspace::new(alloc);
    normalize_bytes(
        &OciRecords,
        schema,
        alloc,
        document,
        &mut workspace,
        &mut text,
    )?;
    Ok(text)
}

/// The pretty text of the canonical form of a document.
pub(crate) fn pretty_text(schema: &Schema, alloc: Global, document: &[u8]) -> Result<Vec<u8>>
    requires { WellFormed (shape_of schema.now) }
    ensures ok { IfOk result (λ t. WritesPretty (shape_of schema.now) (Some document.now) (λ text. t.items ≡ text)) }
    ensures json { IfErr result (λ e. IsJson e → IsNoJson document.now) }
    ensures schema { IfErr result (λ e. IsSchema e → IsNotNormalized (shape_of schema.now) document.now) }
    ensures kind { IfErr result IsMemoryOrSerDe }
{
    let mut text = Vec::new(alloc);
    let mut workspace = Workspace::new(alloc);
    normalize_pretty_bytes(
        &OciRecords,
        schema,
        alloc,
        document,
        &mut workspace,
        &mut text,
    )?;
    Ok(text)
}
