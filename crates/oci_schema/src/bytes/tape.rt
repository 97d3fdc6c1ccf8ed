//! The normal form of a document whose text is a tape already, for callers that ask more than one thing of it.
ghost use Rattle.std.specs.Prelude.{◌≡◌, true, IfOk, IfSome};
ghost use Rattle.serde_json.specs.Data.{Data};
ghost use Rattle.oci_json_tape.specs.Elements.{BeginsWithData};
ghost use Rattle.oci_schema.specs.Shapes.{schema_shape};
ghost use Rattle.oci_schema.specs.Normalized.{accepts};
ghost use Rattle.oci_schema.specs.Canonical.{IsNormalText, IsNormalPretty};
ghost use Rattle.oci_schema.specs.Walks.{IfDone};

use crate::bytes::lane::{SPARE, write_tape};
use crate::{Records, Schema};
use json::Tape;
use oci_json_tape::{CompactWriter, Nothing, PrettyWriter};
use std::alloc::{AllocError, Global};

/// The normal form of the document that the tape holds as compact text, where the text that was read has `len` bytes; `None` if that was
/// not found out. Fails if out of memory.
pub fn normal_text_of<T: Records>(
    records: &T,
    schema: &Schema,
    alloc: Global,
    tape: &Tape<'_>,
    len: usize,
) -> Result<Option<Vec<u8>>, AllocError>
    ensures { IfOk result (λ o. IfSome o (λ text. (d : Data) → BeginsWithData tape.now d → IsNormalText (schema_shape (T.shape_at records.now) schema.now) d text.items)) }
{
    let mut out = CompactWriter::with_capacity(alloc, len.saturating_add(SPARE))?;
    let done = write_tape(records, schema, alloc, tape, &mut out)?;
    if !done {
        return Ok(None);
    }
    Ok(Some(out.into_bytes()))
}

/// The same as pretty text.
pub fn pretty_text_of<T: Records>(
    records: &T,
    schema: &Schema,
    alloc: Global,
    tape: &Tape<'_>,
) -> Result<Option<Vec<u8>>, AllocError>
    ensures { IfOk result (λ o. IfSome o (λ text. (d : Data) → BeginsWithData tape.now d → IsNormalPretty (schema_shape (T.shape_at records.now) schema.now) d text.items)) }
{
    let mut out = PrettyWriter::new(alloc);
    let done = write_tape(records, schema, alloc, tape, &mut out)?;
    if !done {
        return Ok(None);
    }
    Ok(Some(out.into_bytes()))
}

/// Whether the tape holds a document that has a normal form; `false` if that was not found out. Fails if out of memory.
pub fn is_accepted_tape<T: Records>(
    records: &T,
    schema: &Schema,
    alloc: Global,
    tape: &Tape<'_>,
) -> Result<bool, AllocError>
    ensures { IfDone result ((d : Data) → BeginsWithData tape.now d → accepts (schema_shape (T.shape_at records.now) schema.now) d ≡ true) }
{
    let mut out = Nothing;
    write_tape(records, schema, alloc, tape, &mut out)
}
