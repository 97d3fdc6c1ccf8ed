//! From documents to texts.
ghost use Rattle.std.specs.Prelude.{IfOk, IfErr, OnOk, OnErr, IsTrue};
ghost use Rattle.std.specs.Io.KnownBytes.{Appends};
ghost use Rattle.oci_base.specs.Refused.{IsMemory, IsSchema, IsMemoryOrIo, IsMemoryOrSchema, IsMemorySchemaOrIo};
ghost use Rattle.oci_model.specs.Value.{value as json_of};
ghost use Rattle.oci_model.specs.Writable.{Writable, is_always_writable};
ghost use Rattle.oci_json.specs.Engines.{AppendsSome, AppendsCompact, AppendsPretty, BeginsCompact, BeginsPretty, KeepsUnlessIo, IsCompactText, IsPrettyText, ReadsBack};

use oci_base::Result;
use oci_model::OciRecord;
use std::alloc::Global;
use std::io;
use std::io::{ErrorKind, Write};

/// Serializes a document to compact JSON, members in byte order of their names. Fails with `SerDe(Schema)` if it is not
/// serializable, and with `Memory` if out of memory.
#[tactic(auto, using(crate::proofs::Texts::none_in, crate::proofs::Texts::read_back, crate::proofs::Texts::memory_alone))]
pub fn to_string<T: OciRecord>(x: &T, alloc: Global) -> Result<String>
    ensures ok { IfOk result (IsCompactText (json_of T.shape (T.plain x.now))) }
    ensures reads_back { OnOk result (ReadsBack (json_of T.shape (T.plain x.now))) }
    ensures writable { OnOk result (Writable T.shape (T.plain x.now)) }
    ensures err { IfErr result (λ e. IsSchema e → ¬ Writable T.shape (T.plain x.now)) }
    ensures kind { IfErr result IsMemoryOrSchema }
    ensures always { IsTrue (is_always_writable T.shape) → IfErr result IsMemory }
{
    let value = x.to_value(alloc)?;
    Ok(value.to_string(alloc)?)
}

/// Serializes a document to pretty JSON: a line for each member or item, indented by two spaces a level, no newline at the end.
/// Fails as `to_string`.
#[tactic(auto, using(crate::proofs::Texts::is_pretty, crate::proofs::Texts::memory_alone))]
pub fn to_string_pretty<T: OciRecord>(x: &T, alloc: Global) -> Result<String>
    ensures ok { IfOk result (IsPrettyText (json_of T.shape (T.plain x.now))) }
    ensures writable { OnOk result (Writable T.shape (T.plain x.now)) }
    ensures err { IfErr result (λ e. IsSchema e → ¬ Writable T.shape (T.plain x.now)) }
    ensures kind { IfErr result IsMemoryOrSchema }
    ensures always { IsTrue (is_always_writable T.shape) → IfErr result IsMemory }
{
    let value = x.to_value(alloc)?;
    Ok(value.to_string_pretty(alloc)?)
}

/// Writes all bytes and flushes. Fails with the writer's first error, an interrupted write included; a write that takes no byte is
/// an error of kind `WriteZero`.
pub fn write_text<W: Write>(bytes: &[u8], writer: &mut W) -> io::Result<()>
    ensures ok { OnOk result (Appends (W.contents writer.old) (W.contents writer.new) bytes.now) }
    ensures err { OnErr result (AppendsSome (W.contents writer.old) (W.contents writer.new) bytes.now) }
{
    let mut written = 0;
    while written < bytes.len() {
        let count = writer.write(&bytes[written..])?;
        if count == 0 {
            return Err(io::Error::from(ErrorKind::WriteZero));
        }
        written += count;
    }
    writer.flush()
}

/// Serializes a document to compact JSON, writes it and flushes. After `Io` a beginning of it was written, after any other error
/// nothing. Fails as `to_string`, and with `Io` if a write fails.
pub fn to_writer<T: OciRecord, W: Write>(x: &T, alloc: Global, writer: &mut W) -> Result<()>
    ensures ok { OnOk result (AppendsCompact (W.contents writer.old) (W.contents writer.new) (json_of T.shape (T.plain x.now))) }
    ensures reads_back { OnOk result (ReadsBack (json_of T.shape (T.plain x.now))) }
    ensures writable { OnOk result (Writable T.shape (T.plain x.now)) }
    ensures err { IfErr result (λ e. IsSchema e → ¬ Writable T.shape (T.plain x.now)) }
    ensures begun { IfErr result (BeginsCompact (W.contents writer.old) (W.contents writer.new) (json_of T.shape (T.plain x.now))) }
    ensures unwritten { IfErr result (KeepsUnlessIo (W.contents writer.old) (W.contents writer.new)) }
    ensures kind { IfErr result IsMemorySchemaOrIo }
    ensures always { IsTrue (is_always_writable T.shape) → IfErr result IsMemoryOrIo }
{
    let text = to_string(x, alloc)?;
    write_text(text.as_bytes(), writer)?;
    Ok(())
}

/// Serializes a document to pretty JSON, writes it and flushes. Fails as `to_writer`.
pub fn to_writer_pretty<T: OciRecord, W: Write>(x: &T, alloc: Global, writer: &mut W) -> Result<()>
    ensures ok { OnOk result (AppendsPretty (W.contents writer.old) (W.contents writer.new) (json_of T.shape (T.plain x.now))) }
    ensures writable { OnOk result (Writable T.shape (T.plain x.now)) }
    ensures err { IfErr result (λ e. IsSchema e → ¬ Writable T.shape (T.plain x.now)) }
    ensures begun { IfErr result (BeginsPretty (W.contents writer.old) (W.contents writer.new) (json_of T.shape (T.plain x.now))) }
    ensures unwritten { IfErr result (KeepsUnlessIo (W.contents writer.old) (W.contents writer.new)) }
    ensures kind { IfErr result IsMemorySchemaOrIo }
    ensures always { IsTrue (is_always_writable T.shape) → IfErr result IsMemoryOrIo }
{
    let text = to_string_pretty(x, alloc)?;
    write_text(text.as_bytes(), writer)?;
    Ok(())
}
