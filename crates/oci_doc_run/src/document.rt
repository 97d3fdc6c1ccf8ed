//! The commands on documents. They read and print by `serde_json`, so they go by way of a value.
ghost use Rattle.std.specs.Prelude.{OnOk, IfErr};
ghost use Rattle.std.specs.Io.KnownBytes.{Appends};
ghost use Rattle.oci_json.specs.Engines.{WritesDocument};
ghost use Rattle.oci_schema.specs.Normalizes.{WritesPretty};
ghost use Rattle.oci_schemas.specs.Kinds.{shape_of};
ghost use Rattle.oci_doc_run.specs.Refusals.{TellsOfNormal, TellsOfPretty};

use crate::refusal::Refusal;
use oci_schema::by_value::{normalize, normalize_pretty};
use oci_schemas::{Kind, OciRecords};
use std::alloc::Global;
use std::io::{Read, Write};

/// Reads a document of a kind, and writes its normal form as compact text.
pub fn normal_of_kind<R: Read, W: Write>(
    kind: Kind,
    alloc: Global,
    reader: &mut R,
    writer: &mut W,
) -> Result<(), Refusal>
    ensures ok { OnOk result (WritesDocument (shape_of kind) (R.remaining reader.old) (Appends (W.contents writer.old) (W.contents writer.new))) }
    ensures err { IfErr result (λ r. TellsOfNormal (shape_of kind) (R.remaining reader.old) (W.contents writer.old) (W.contents writer.new) r) }
{
    let schema = kind.schema();
    normalize(&OciRecords, schema, alloc, &mut *reader, writer)?;
    Ok(())
}

/// Reads a document of a kind, and writes its normal form as pretty text.
pub fn pretty_of_kind<R: Read, W: Write>(
    kind: Kind,
    alloc: Global,
    reader: &mut R,
    writer: &mut W,
) -> Result<(), Refusal>
    ensures ok { OnOk result (WritesPretty (shape_of kind) (R.remaining reader.old) (Appends (W.contents writer.old) (W.contents writer.new))) }
    ensures err { IfErr result (λ r. TellsOfPretty (shape_of kind) (R.remaining reader.old) (W.contents writer.old) (W.contents writer.new) r) }
{
    let schema = kind.schema();
    normalize_pretty(&OciRecords, schema, alloc, &mut *reader, writer)?;
    Ok(())
}
