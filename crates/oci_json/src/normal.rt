//! From bytes to bytes.
ghost use Rattle.std.specs.Prelude.{◌⊎◌, IfOk, IfErr, IfSome, OnOk};
ghost use Rattle.std.specs.Io.KnownBytes.{Appends, Keeps};
ghost use Rattle.oci_base.specs.Refused.{IsSchema, IsJson, IsMemoryOrSchema, IsMemorySerDeOrIo, IsIo};
ghost use Rattle.oci_model.specs.Value.{value as json_of};
ghost use Rattle.oci_model.specs.Writable.{Writable};
ghost use Rattle.oci_json.specs.Engines.{AppendsSome, KeepsUnlessIo, IsCompactText, WritesDocument, ReadsBack, ReadsBackDocument, IsNotNormalized, IsNoJson};

use crate::{from_reader, write_text};
use oci_base::Result;
use oci_model::OciRecord;
use std::alloc::Global;
use std::io::{Read, Write};

/// Reads a document to its end and writes its canonical (normal) form as compact JSON: unknown members are left out, the others
/// are in byte order of their names. Fails as `from_reader` and `to_writer`. It makes the typed document; for a type with a schema
/// `oci_spec::schema::normalize_as` does the same without.
#[tactic(auto, using(crate::proofs::Bytes::keeps))]
pub fn normalize<T: OciRecord, R: Read + Drop, W: Write>(
    alloc: Global,
    reader: R,
    writer: &mut W,
) -> Result<()>
    ensures ok { OnOk result (WritesDocument T.shape (R.remaining reader) (λ text. Appends (W.contents writer.old) (W.contents writer.new) text)) }
    ensures reads_back { OnOk result (ReadsBackDocument T.shape (R.remaining reader)) }
    ensures json { IfErr result (λ e. IsJson e → IfSome (R.remaining reader) IsNoJson) }
    ensures schema { IfErr result (λ e. IsSchema e → IfSome (R.remaining reader) (IsNotNormalized T.shape)) }
    ensures begun { IfErr result (λ e. IsIo e → Keeps (W.contents writer.old) (W.contents writer.new)
        ⊎ WritesDocument T.shape (R.remaining reader) (λ text. AppendsSome (W.contents writer.old) (W.contents writer.new) text)) }
    ensures unwritten { IfErr result (KeepsUnlessIo (W.contents writer.old) (W.contents writer.new)) }
    ensures kind { IfErr result IsMemorySerDeOrIo }
{
    let document: T = from_reader(alloc, reader)?;
    let text = text_of(document, alloc)?;
    write_text(text.as_bytes(), writer)?;
    Ok(())
}

/// Serializes a document to compact JSON. Drops the document first, so that peak memory is one copy. Fails as `to_string`.
#[tactic(auto, using(crate::proofs::Texts::none_in, crate::proofs::Texts::read_back))]
fn text_of<T: OciRecord>(document: T, alloc: Global) -> Result<String>
    ensures ok { IfOk result (IsCompactText (json_of T.shape (T.plain document))) }
    ensures reads_back { OnOk result (ReadsBack (json_of T.shape (T.plain document))) }
    ensures writable { OnOk result (Writable T.shape (T.plain document)) }
    ensures err { IfErr result (λ e. IsSchema e → ¬ Writable T.shape (T.plain document)) }
    ensures kind { IfErr result IsMemoryOrSchema }
{
    let value = document.to_value(alloc)?;
    drop(document);
    Ok(value.to_string(alloc)?)
}
