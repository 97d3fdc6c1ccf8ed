//! The commands on references and digests.
ghost use Rattle.std.specs.Prelude.{◌≡◌, ◌++◌, List, ℕ, OnOk, IfOk, IfErr, option_map, string_bytes};
ghost use Rattle.std.specs.Io.KnownBytes.{Appends};
ghost use Rattle.oci_base.specs.Digest.{IsDigest};
ghost use Rattle.oci_doc_run.specs.Outputs.{line, line_if, reference_lines, digest_lines, WritesReference, WritesDigest};
ghost use Rattle.oci_doc_run.specs.Refusals.{TellsOfReference, TellsOfDigest};

use crate::refusal::Refusal;
use oci_base::OciSpecError;
use oci_json::write_text;
use oci_reference::Reference;
use oci_text::Digest;
use std::alloc::{AllocError, Global};
use std::io::Write;

/// Writes the parts of a reference, a line each.
pub fn reference<W: Write>(alloc: Global, text: &str, writer: &mut W) -> Result<(), Refusal>
    ensures ok { OnOk result (WritesReference text.now (Appends (W.contents writer.old) (W.contents writer.new))) }
    ensures err { IfErr result (λ r. TellsOfReference text.now (W.contents writer.old) (W.contents writer.new) r) }
{
    let reference = Reference::from_str(alloc, text)?;
    let lines = reference_lines(&reference, alloc)?;
    write_text(lines.as_bytes(), writer)?;
    Ok(())
}

/// Writes the parts of a digest, a line each.
pub fn digest<W: Write>(alloc: Global, text: &str, writer: &mut W) -> Result<(), Refusal>
    ensures ok { OnOk result (WritesDigest text.now (Appends (W.contents writer.old) (W.contents writer.new))) }
    ensures err { IfErr result (λ r. TellsOfDigest text.now (W.contents writer.old) (W.contents writer.new) r) }
{
    let digest = Digest::from_str(alloc, text)?;
    let lines = digest_lines(&digest, alloc)?;
    write_text(lines.as_bytes(), writer)?;
    Ok(())
}

fn reference_lines(reference: &Reference, alloc: Global) -> Result<String, OciSpecError>
    ensures ok { IfOk result (λ lines. string_bytes lines ≡ reference_lines reference.now) }
    ensures err { IfErr result (λ e. e ≡ OciSpecError.Memory) }
{
    let whole = reference.whole()?;
    let mut lines = String::new(alloc);
    push_line(&mut lines, "registry", reference.registry())?;
    push_line(&mut lines, "repository", reference.repository())?;
    push_line_if(&mut lines, "tag", reference.tag())?;
    push_line_if(&mut lines, "digest", reference.digest())?;
    push_line(&mut lines, "whole", whole.as_str())?;
    push_line(&mut lines, "resolve", reference.resolve_registry())?;
    Ok(lines)
}

fn digest_lines(digest: &Digest, alloc: Global) -> Result<String, AllocError>
    ensures { IfOk result (λ lines. (a : List ℕ) × (e : List ℕ) × IsDigest digest.now a e × (string_bytes lines ≡ digest_lines a e)) }
{
    let mut lines = String::new(alloc);
    push_line(&mut lines, "algorithm", digest.algorithm().as_ref())?;
    push_line(&mut lines, "encoded", digest.digest())?;
    Ok(lines)
}

/// Adds the line of a value.
fn push_line(lines: &mut String, word: &str, value: &str) -> Result<(), AllocError>
    ensures { OnOk result (string_bytes lines.new ≡ string_bytes lines.old ++ line word.now value.now) }
{
    lines.push_str(word)?;
    lines.push_str(" ")?;
    lines.push_str(value)?;
    lines.push_str("\n")
}

/// Adds the line of a value, where there is one.
fn push_line_if(lines: &mut String, word: &str, value: Option<&str>) -> Result<(), AllocError>
    ensures { OnOk result (string_bytes lines.new ≡ string_bytes lines.old ++ line_if word.now (option_map (λ x. x.now) value.entry)) }
{
    match value {
        Some(value) => push_line(lines, word, value),
        None => Ok(()),
    }
}
