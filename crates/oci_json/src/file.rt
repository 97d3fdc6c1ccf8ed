//! Documents in files, which the runtime opens.
ghost use Rattle.std.specs.Prelude.{IfErr, OnOk, IsTrue};
ghost use Rattle.oci_base.specs.Refused.{IsSchema, IsMemoryOrIo, IsMemorySerDeOrIo, IsMemorySchemaOrIo};
ghost use Rattle.oci_model.specs.Writable.{Writable, is_always_writable};

use crate::reading::from_reader;
use crate::writing::{to_string, to_string_pretty, write_text};
use oci_base::Result;
use oci_model::OciRecord;
use std::alloc::Global;
use std::fs;
use std::rt::Files;

/// Reads a document from a file. Fails as `from_reader`, and with `Io` if the file cannot be opened.
pub fn from_file<T: OciRecord, R: Files>(rt: &R, alloc: Global, path: &str) -> Result<T>
    ensures kind { IfErr result IsMemorySerDeOrIo }
{
    let file = fs::open(rt, path)?;
    from_reader(alloc, file)
}

/// Serializes a document to a file as compact JSON. The file is created or truncated, after the text was made: it is unchanged if
/// the error is `SerDe(Schema)` or `Memory`. Fails with `Io` if it cannot be opened or written.
pub fn to_file<T: OciRecord, R: Files>(rt: &R, x: &T, alloc: Global, path: &str) -> Result<()>
    ensures writable { OnOk result (Writable T.shape (T.plain x.now)) }
    ensures err { IfErr result (λ e. IsSchema e → ¬ Writable T.shape (T.plain x.now)) }
    ensures kind { IfErr result IsMemorySchemaOrIo }
    ensures always { IsTrue (is_always_writable T.shape) → IfErr result IsMemoryOrIo }
{
    let text = to_string(x, alloc)?;
    let mut file = fs::create(rt, path)?;
    write_text(text.as_bytes(), &mut file)?;
    Ok(())
}

/// Serializes a document to a file as pretty JSON. Fails as `to_file`.
pub fn to_file_pretty<T: OciRecord, R: Files>(
    rt: &R,
    x: &T,
    alloc: Global,
    path: &str,
) -> Result<()>
    ensures writable { OnOk result (Writable T.shape (T.plain x.now)) }
    ensures err { IfErr result (λ e. IsSchema e → ¬ Writable T.shape (T.plain x.now)) }
    ensures kind { IfErr result IsMemorySchemaOrIo }
    ensures always { IsTrue (is_always_writable T.shape) → IfErr result IsMemoryOrIo }
{
    let text = to_string_pretty(x, alloc)?;
    let mut file = fs::create(rt, path)?;
    write_text(text.as_bytes(), &mut file)?;
    Ok(())
}
