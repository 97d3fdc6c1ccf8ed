//! The calls that are made by a schema.
ghost use Rattle.std.specs.Prelude.{◌≡◌};
ghost use Rattle.oci_bench.specs.Words.{schema_call_of};

use crate::arguments::Run;
use crate::tape::copy;
use anyhow::Result;
use json::Scratch;
use oci_schema::bytes::{Workspace, normalize_bytes};
use oci_schemas::{Kind, OciRecords};
use serde_json::Value;
use std::alloc::Global;

/// A call on the bytes of a document.
#[derive(Clone, Copy)]
pub enum SchemaCall {
    /// `floor`: the JSON reader's value of the bytes, and its compact text.
    Floor,
    /// `tape`: the bytes as a tape, and the tape as a text.
    Tape,
    /// `value`: the canonical form by way of a value.
    Value,
    /// `normalize`: the canonical form straight from the bytes, from a reader to a writer.
    Normalize,
    /// `bytes`: the same from bytes to bytes, with a workspace that is kept.
    Bytes,
    /// `fresh`: the same with a workspace of its own for each call.
    Fresh,
}

impl SchemaCall {
    /// The call that a word names, if there is one.
    pub fn from_word(word: &str) -> Option<SchemaCall>
        ensures { result ≡ schema_call_of word.now }
    {
        match word {
            "floor" => Some(SchemaCall::Floor),
            "tape" => Some(SchemaCall::Tape),
            "value" => Some(SchemaCall::Value),
            "normalize" => Some(SchemaCall::Normalize),
            "bytes" => Some(SchemaCall::Bytes),
            "fresh" => Some(SchemaCall::Fresh),
            _ => None,
        }
    }
}

/// What is kept from call to call.
#[derive(Drop)]
struct Kept {
    workspace: Workspace,
    scratch: Scratch,
}

fn floor(alloc: Global, bytes: &[u8]) -> Result<()> {
    let value = Value::from_slice(alloc, bytes)?;
    let _text = value.to_string(alloc)?;
    Ok(())
}

fn by_bytes(alloc: Global, kind: Kind, bytes: &[u8], workspace: &mut Workspace) -> Result<()> {
    let mut written = Vec::new(alloc);
    normalize_bytes(
        &OciRecords,
        kind.schema(),
        alloc,
        bytes,
        workspace,
        &mut written,
    )?;
    Ok(())
}

fn by_fresh_bytes(alloc: Global, kind: Kind, bytes: &[u8]) -> Result<()> {
    let mut workspace = Workspace::new(alloc);
    by_bytes(alloc, kind, bytes, &mut workspace)?;
    Ok(())
}

fn by_value(alloc: Global, kind: Kind, bytes: &[u8]) -> Result<()> {
    let mut written = Vec::new(alloc);
    oci_schema::by_value::normalize(&OciRecords, kind.schema(), alloc, bytes, &mut written)?;
    Ok(())
}

fn by_streams(alloc: Global, kind: Kind, bytes: &[u8]) -> Result<()> {
    let mut written = Vec::new(alloc);
    oci_schema::bytes::normalize(&OciRecords, kind.schema(), alloc, bytes, &mut written)?;
    Ok(())
}

/// Makes the call once, and drops all that it made.
fn make(alloc: Global, kind: Kind, bytes: &[u8], call: SchemaCall, kept: &mut Kept) -> Result<()> {
    match call {
        SchemaCall::Floor => floor(alloc, bytes),
        SchemaCall::Tape => copy(alloc, bytes, &mut kept.scratch),
        SchemaCall::Value => by_value(alloc, kind, bytes),
        SchemaCall::Normalize => by_streams(alloc, kind, bytes),
        SchemaCall::Bytes => by_bytes(alloc, kind, bytes, &mut kept.workspace),
        SchemaCall::Fresh => by_fresh_bytes(alloc, kind, bytes),
    }
}

/// Makes the call as often as is asked.
pub fn perform(alloc: Global, kind: Kind, bytes: &[u8], run: Run<SchemaCall>) -> Result<()> {
    let mut kept = Kept {
        workspace: Workspace::new(alloc),
        scratch: Scratch::new(alloc),
    };
    for _ in 0..run.count {
        make(alloc, kind, bytes, run.call, &mut kept)?;
    }
    Ok(())
}
