//! The normal form of a document straight from its bytes, where it can be had so.
ghost use Rattle.std.specs.Prelude.{◌≡◌, true, Some, IfOk, IfSome};
ghost use Rattle.serde_json.specs.Data.{Data};
ghost use Rattle.serde_json.specs.Read.{read};
ghost use Rattle.oci_json.specs.Engines.{ReadsAs};
ghost use Rattle.oci_schema.specs.Shapes.{schema_shape};
ghost use Rattle.oci_schema.specs.Normalized.{accepts};
ghost use Rattle.oci_schema.specs.Canonical.{IsNormalText, IsNormalPretty};
ghost use Rattle.oci_schema.specs.Walks.{IfDone, Writes, WritesNormal, WritesOf};

use crate::bytes::walk::write_value;
use crate::{Records, Schema};
use json::{Error, Scratch, Tape};
use oci_json_tape::{CompactWriter, Nothing, PrettyWriter, Sink, open};
use std::alloc::{AllocError, Global};

/// How deep arrays, maps and records nest at most: no deeper than a text may.
const DEPTH: usize = 127;

/// How many bytes the writer wants free behind the last one that it writes. With them a text as long as the one that was read is
/// written where it is.
pub(crate) const SPARE: usize = 2;

/// The memory that reading needs. Keep one from call to call.
#[derive(Drop)]
pub struct Workspace {
    scratch: Scratch,
}

impl Workspace {
    /// A workspace without any memory for texts yet.
    pub fn new(alloc: Global) -> Workspace {
        Workspace {
            scratch: Scratch::new(alloc),
        }
    }

    /// The memory in which a text becomes a tape, for those that look at a document before it is read by a schema.
    pub fn scratch(&mut self) -> &mut Scratch {
        &mut self.scratch
    }
}

/// The normal form of a document as compact text; `None` if that was not found out. Fails if out of memory.
pub fn normal_text<T: Records>(
    records: &T,
    schema: &Schema,
    alloc: Global,
    bytes: &[u8],
    workspace: &mut Workspace,
) -> Result<Option<Vec<u8>>, AllocError>
    ensures { IfOk result (λ o. IfSome o (λ text. (d : Data) × ReadsAs bytes.now d
        × IsNormalText (schema_shape (T.shape_at records.now) schema.now) d text.items)) }
{
    let mut out = CompactWriter::with_capacity(alloc, bytes.len().saturating_add(SPARE))?;
    let done = write_document(records, schema, alloc, bytes, workspace, &mut out)?;
    if !done {
        return Ok(None);
    }
    Ok(Some(out.into_bytes()))
}

/// The same as pretty text.
pub fn pretty_text<T: Records>(
    records: &T,
    schema: &Schema,
    alloc: Global,
    bytes: &[u8],
    workspace: &mut Workspace,
) -> Result<Option<Vec<u8>>, AllocError>
    ensures { IfOk result (λ o. IfSome o (λ text. (d : Data) × ReadsAs bytes.now d
        × IsNormalPretty (schema_shape (T.shape_at records.now) schema.now) d text.items)) }
{
    let mut out = PrettyWriter::new(alloc);
    let done = write_document(records, schema, alloc, bytes, workspace, &mut out)?;
    if !done {
        return Ok(None);
    }
    Ok(Some(out.into_bytes()))
}

/// Whether the bytes are a document that has a normal form; `false` if that was not found out. Fails if out of memory.
pub fn is_accepted<T: Records>(
    records: &T,
    schema: &Schema,
    alloc: Global,
    bytes: &[u8],
    workspace: &mut Workspace,
) -> Result<bool, AllocError>
    ensures { IfDone result ((d : Data) × ReadsAs bytes.now d × (accepts (schema_shape (T.shape_at records.now) schema.now) d ≡ true)) }
{
    let mut out = Nothing;
    write_document(records, schema, alloc, bytes, workspace, &mut out)
}

/// Writes the normal form of a document; `false` if that was not found out. What was written then is of no use. Fails if out of
/// memory.
fn write_document<T: Records, K: Sink>(
    records: &T,
    schema: &Schema,
    alloc: Global,
    bytes: &[u8],
    workspace: &mut Workspace,
    out: &mut K,
) -> Result<bool, AllocError>
    ensures { IfDone result (Writes K.holds (WritesOf (λ d. ReadsAs bytes.now d) (schema_shape (T.shape_at records.now) schema.now)) out.old out.new) }
{
    match simdutf8::compat::from_utf8(bytes) {
        Ok(text) => write_text(records, schema, alloc, text, &mut workspace.scratch, out),
        Err(_) => Ok(false),
    }
}

/// The same of a text.
fn write_text<T: Records, K: Sink>(
    records: &T,
    schema: &Schema,
    alloc: Global,
    text: &str,
    scratch: &mut Scratch,
    out: &mut K,
) -> Result<bool, AllocError>
    ensures { IfDone result (Writes K.holds (WritesOf (λ d. read text.now ≡ Some d) (schema_shape (T.shape_at records.now) schema.now)) out.old out.new) }
{
    match open(alloc, text, scratch) {
        Ok(found) => match found {
            Some(tape) => write_tape(records, schema, alloc, &tape, out),
            None => Ok(false),
        },
        Err(Error::OutOfMemory) => Err(AllocError),
        Err(_) => Ok(false),
    }
}

/// The same of a tape.
pub(crate) fn write_tape<T: Records, K: Sink>(
    records: &T,
    schema: &Schema,
    alloc: Global,
    tape: &Tape<'_>,
    out: &mut K,
) -> Result<bool, AllocError>
    ensures { IfDone result (Writes K.holds (WritesNormal (schema_shape (T.shape_at records.now) schema.now) tape.now) out.old out.new) }
{
    write_value(records, schema, &tape.root(), DEPTH, alloc, out)
}
