//! The command on a reference and a descriptor.
ghost use Rattle.std.specs.Prelude.{◌≡◌, IfOk, IfErr, IfSome, OnOk, string_bytes};
ghost use Rattle.std.specs.Io.KnownBytes.{Appends, Keeps};
ghost use Rattle.oci_shapes.specs.Descriptor.{descriptor};
ghost use Rattle.oci_descriptor.specs.Descriptor.{descriptor_plain};
ghost use Rattle.oci_descriptor.specs.declared.descriptor.Descriptor.{Descriptor};
ghost use Rattle.oci_json.specs.Engines.{MeansBytes, IsNoDocument, IsNoJson};
ghost use Rattle.oci_base.specs.Refused.{IsJson, IsSchema, IsMemorySerDeOrIo};
ghost use Rattle.oci_doc_run.specs.Commands.{pin, LeavesInput};
ghost use Rattle.oci_doc_run.specs.Outputs.{pinned_line, WritesPinned};
ghost use Rattle.oci_doc_run.specs.Refusals.{TellsOfPin};

use crate::refusal::Refusal;
use oci_base::OciSpecError;
use oci_descriptor::Descriptor;
use oci_json::{from_reader, write_text};
use oci_pin::pin;
use oci_reference::Reference;
use std::alloc::Global;
use std::io::{Read, Write};

/// Reads a descriptor, and writes the full text of the reference with its digest, and a newline. If the text is no reference,
/// nothing is read.
pub fn pinned<R: Read, W: Write>(
    alloc: Global,
    text: &str,
    reader: &mut R,
    writer: &mut W,
) -> Result<(), Refusal>
    ensures ok { OnOk result (WritesPinned text.now (R.remaining reader.old) (Appends (W.contents writer.old) (W.contents writer.new))) }
    ensures err { IfErr result (λ r. TellsOfPin text.now (R.remaining reader.old) (W.contents writer.old) (W.contents writer.new) r) }
    ensures unasked { LeavesInput (pin text.now) → Keeps (R.remaining reader.old) (R.remaining reader.new) }
{
    let reference = Reference::from_str(alloc, text)?;
    let line = pinned_line(alloc, &reference, reader)?;
    write_text(line.as_bytes(), writer)?;
    Ok(())
}

/// The line of a reference with the digest of the descriptor that is read.
fn pinned_line<R: Read>(
    alloc: Global,
    reference: &Reference,
    reader: &mut R,
) -> Result<String, OciSpecError>
    ensures ok { IfOk result (λ line. (d : Descriptor) × IfSome (R.remaining reader.old) (λ bytes. MeansBytes descriptor bytes (descriptor_plain d))
        × (string_bytes line ≡ pinned_line reference.now d)) }
    ensures json { IfErr result (λ e. IsJson e → IfSome (R.remaining reader.old) IsNoJson) }
    ensures schema { IfErr result (λ e. IsSchema e → IfSome (R.remaining reader.old) (IsNoDocument descriptor)) }
    ensures kind { IfErr result IsMemorySerDeOrIo }
{
    let descriptor: Descriptor = from_reader(alloc, &mut *reader)?;
    let mut line = pin(alloc, reference, &descriptor)?.into_string()?;
    line.push_str("\n")?;
    Ok(line)
}
