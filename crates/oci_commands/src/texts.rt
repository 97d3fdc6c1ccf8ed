//! The commands on references and digests, and what is said on standard error.
ghost use Rattle.std.specs.Prelude.{◌≡◌, ◌⊎◌, ℕ, List, true, false, [], Some, IfOk, IfSome, OnOk, string_bytes};
ghost use Rattle.std.specs.Io.KnownBytes.{Appends};
ghost use Rattle.oci_findings.specs.Checks.{IsAllowed};
ghost use Rattle.oci_base.specs.Digest.{IsDigestText};
ghost use Rattle.oci_base.specs.Escaped.{IsLine};
ghost use Rattle.oci_doc_run.specs.Commands.{asked as asked_of, pin};
ghost use Rattle.oci_doc_run.specs.Outputs.{Writes, WritesPinned};
ghost use Rattle.oci_commands.specs.Done.{IsStatus, AppendsEach};
ghost use Rattle.oci_commands.specs.Objects.{line_of as line_of_tokens};
ghost use Rattle.oci_commands.specs.Refused.{IsAtFault, IsFault, IsNoReference, IsNoDigest, IsNoDescriptor, HasNone};
ghost use Rattle.oci_commands.specs.Texts.{AreReferenceLines, AreDigestLines, IsDigestObject, IsReferenceObject, IsShownDigest, IsShownReference, part_tokens, reference_tokens};

use crate::asked::Style;
use crate::files::Files;
use crate::objects::{begun, ended, text_member, text_member_if};
use json::Writer;
use oci_base::{OciSpecError, Result, line_of};
use oci_doc_run::{Command, Refusal};
use oci_findings::Report;
use oci_findings::inspect::inspect;
use oci_findings::render::lines_of;
use oci_json::write_text;
use oci_reference::{ParseError, Reference};
use oci_schemas::Kind;
use oci_text::Digest;
use std::alloc::{AllocError, Global};
use std::io::Write;
use std::{fmt, io};

/// Writes a line on standard error, as far as that can be.
pub fn complain<E: Write>(line: &str, errors: &mut E) {
    let _ = write_text(line.as_bytes(), errors);
}

/// Says what is wrong with a name on standard error, as far as that can be.
pub fn complain_of<D: fmt::Display, E: Write>(
    name: &str,
    fault: &D,
    alloc: Global,
    errors: &mut E,
) {
    if let Ok(line) = line_about(name, fault, alloc) {
        complain(line.as_str(), errors);
    }
}

/// The line that says what is wrong with a name.
fn line_about<D: fmt::Display>(
    name: &str,
    fault: &D,
    alloc: Global,
) -> std::result::Result<String, AllocError>
    ensures { IfOk result (λ t. IsLine (string_bytes t)) }
{
    let text = format!(in alloc; "ciderglen: {name}: {fault}")?;
    line_of(text.as_str(), alloc)
}

/// Says what is wrong with a file on standard error.
pub fn report_findings<E: Write>(
    name: &str,
    found: &Report<'_>,
    alloc: Global,
    errors: &mut E,
) -> Result<()> {
    let lines = lines_of(name, found, false, alloc)?;
    complain(lines.as_str(), errors);
    Ok(())
}

/// Whether something is wrong with the bytes of a file, which is said on standard error.
pub(crate) fn is_wrong<E: Write>(
    kind: Option<Kind>,
    name: &str,
    bytes: &[u8],
    alloc: Global,
    errors: &mut E,
) -> Result<bool>
    ensures wrong { IfOk result (λ b. b ≡ true → ¬ IsAllowed kind name.now bytes.now) }
    ensures right { IfOk result (λ b. b ≡ false → IsAllowed kind name.now bytes.now) }
{
    let found = inspect(kind, name, bytes, alloc)?;
    if found.errors.is_empty() {
        return Ok(false);
    }
    report_findings(name, &found, alloc, errors)?;
    Ok(true)
}

/// Writes the parts of each reference, or an object a line. Returns 0 if each text is a reference, and 1 if one is none, which a line on
/// standard error says; the others are written all the same. Fails if they cannot be written, or if out of memory.
pub fn references<W: Write, E: Write>(
    style: Style,
    texts: &[&str],
    alloc: Global,
    writer: &mut W,
    errors: &mut E,
) -> Result<u8>
    ensures status { IfOk result IsStatus }
    ensures right { IfOk result (λ s. s ≡ 0 → AppendsEach (λ t. IsShownReference style t.now) texts.now (W.contents writer.old) (W.contents writer.new)) }
    ensures wrong { IfOk result (λ s. s ≡ 1 → HasNone IsNoReference texts.now) }
{
    let mut wrong = false;
    for text in texts {
        if !show_reference(style, text, alloc, writer, errors)? {
            wrong = true;
        }
    }
    Ok(if wrong { 1 } else { 0 })
}

/// Writes what is shown of a reference, and returns whether that was done. If the text is none, a line on standard error says why.
fn show_reference<W: Write, E: Write>(
    style: Style,
    text: &str,
    alloc: Global,
    writer: &mut W,
    errors: &mut E,
) -> Result<bool>
    ensures right { IfOk result (λ b. b ≡ true → (shown : List ℕ) × IsShownReference style text.now shown × Appends (W.contents writer.old) (W.contents writer.new) shown) }
    ensures wrong { IfOk result (λ b. b ≡ false → IsNoReference text.now) }
{
    match style {
        Style::Json => reference_as_json(text, alloc, writer, errors),
        Style::Text | Style::Color | Style::Sarif | Style::Github => {
            reference_as_lines(text, alloc, writer, errors)
        }
    }
}

fn reference_as_lines<W: Write, E: Write>(
    text: &str,
    alloc: Global,
    writer: &mut W,
    errors: &mut E,
) -> Result<bool>
    ensures right { IfOk result (λ b. b ≡ true → (shown : List ℕ) × AreReferenceLines text.now shown × Appends (W.contents writer.old) (W.contents writer.new) shown) }
    ensures wrong { IfOk result (λ b. b ≡ false → IsNoReference text.now) }
{
    perform(Command::Reference(text), text, alloc, writer, errors)
}

fn reference_as_json<W: Write, E: Write>(
    text: &str,
    alloc: Global,
    writer: &mut W,
    errors: &mut E,
) -> Result<bool>
    ensures right { IfOk result (λ b. b ≡ true → (shown : List ℕ) × IsReferenceObject text.now shown × Appends (W.contents writer.old) (W.contents writer.new) shown) }
    ensures wrong { IfOk result (λ b. b ≡ false → IsNoReference text.now) }
{
    match Reference::from_str(alloc, text) {
        Ok(reference) => {
            let line = reference_object(text, &reference, alloc)?;
            write_text(line.as_bytes(), writer)?;
            Ok(true)
        }
        Err(error) => refused(Refusal::Reference(error), text, alloc, errors),
    }
}

/// Writes what a command on a text alone writes, and returns whether that was done. If the text was refused, a line on standard error
/// says why.
#[tactic(auto, using(crate::proofs::Faults::at_fault))]
fn perform<W: Write, E: Write>(
    command: Command<'_>,
    text: &str,
    alloc: Global,
    writer: &mut W,
    errors: &mut E,
) -> Result<bool>
    ensures right { IfOk result (λ b. b ≡ true → Writes (asked_of command.entry) (Some []) (Appends (W.contents writer.old) (W.contents writer.new))) }
    ensures wrong { IfOk result (λ b. b ≡ false → IsAtFault (asked_of command.entry) (Some [])) }
{
    let mut lines = Vec::new(alloc);
    match command.perform(alloc, &mut io::empty(), &mut lines) {
        Ok(()) => {
            write_text(lines.as_slice(), writer)?;
            Ok(true)
        }
        Err(refusal) => refused(refusal, text, alloc, errors),
    }
}

/// Says why a text was refused; fails if out of memory, or if something could not be written.
pub(crate) fn refused<E: Write>(
    refusal: Refusal,
    text: &str,
    alloc: Global,
    errors: &mut E,
) -> Result<bool>
    ensures { IfOk result (λ b. (b ≡ false) × IsFault refusal) }
{
    match refusal {
        Refusal::Memory | Refusal::Reference(ParseError::Memory) => Err(OciSpecError::Memory),
        Refusal::Io => Err(OciSpecError::Io(io::Error::from(io::ErrorKind::Other))),
        Refusal::Reference(error) => {
            complain_of(text, &error, alloc, errors);
            Ok(false)
        }
        Refusal::Other(reason) => {
            complain_of(text, &reason, alloc, errors);
            Ok(false)
        }
        Refusal::Json | Refusal::Schema | Refusal::Builder => Ok(false),
    }
}

/// The object of a reference's parts.
fn reference_object(text: &str, reference: &Reference, alloc: Global) -> Result<String>
    ensures { IfOk result (λ t. string_bytes t ≡ line_of_tokens (reference_tokens text.now reference.now)) }
{
    let whole = reference.whole()?;
    let mut out = begun(alloc)?;
    put_parts(&mut out, text, reference)?;
    text_member(&mut out, "whole", whole.as_str())?;
    text_member(&mut out, "resolve", reference.resolve_registry())?;
    let line = ended(out, alloc)?;
    Ok(line)
}

/// Adds the text of a reference and its parts.
fn put_parts(
    out: &mut Writer,
    text: &str,
    reference: &Reference,
) -> std::result::Result<(), AllocError>
    ensures before { OnOk result (out.new.before ≡ out.old.before) }
    ensures tokens { OnOk result (out.new.tokens ≡ part_tokens out.old.tokens text.now reference.now) }
{
    text_member(out, "input", text)?;
    text_member(out, "registry", reference.registry())?;
    text_member(out, "repository", reference.repository())?;
    text_member_if(out, "tag", reference.tag())?;
    text_member_if(out, "digest", reference.digest())
}

/// Writes the parts of each digest, as `references` does.
pub fn digests<W: Write, E: Write>(
    style: Style,
    texts: &[&str],
    alloc: Global,
    writer: &mut W,
    errors: &mut E,
) -> Result<u8>
    ensures status { IfOk result IsStatus }
    ensures right { IfOk result (λ s. s ≡ 0 → AppendsEach (λ t. IsShownDigest style t.now) texts.now (W.contents writer.old) (W.contents writer.new)) }
    ensures wrong { IfOk result (λ s. s ≡ 1 → HasNone IsNoDigest texts.now) }
{
    let mut wrong = false;
    for text in texts {
        if !show_digest(style, text, alloc, writer, errors)? {
            wrong = true;
        }
    }
    Ok(if wrong { 1 } else { 0 })
}

/// Writes what is shown of a digest, and returns whether that was done. If the text is none, a line on standard error says why.
fn show_digest<W: Write, E: Write>(
    style: Style,
    text: &str,
    alloc: Global,
    writer: &mut W,
    errors: &mut E,
) -> Result<bool>
    ensures right { IfOk result (λ b. b ≡ true → (shown : List ℕ) × IsShownDigest style text.now shown × Appends (W.contents writer.old) (W.contents writer.new) shown) }
    ensures wrong { IfOk result (λ b. b ≡ false → IsNoDigest text.now) }
{
    match style {
        Style::Json => digest_as_json(text, alloc, writer, errors),
        Style::Text | Style::Color | Style::Sarif | Style::Github => digest_as_lines(
            text, alloc, writer, errors,
        ),
    }
}

fn digest_as_lines<W: Write, E: Write>(
    text: &str,
    alloc: Global,
    writer: &mut W,
    errors: &mut E,
) -> Result<bool>
    ensures right { IfOk result (λ b. b ≡ true → (shown : List ℕ) × AreDigestLines text.now shown × Appends (W.contents writer.old) (W.contents writer.new) shown) }
    ensures wrong { IfOk result (λ b. b ≡ false → IsNoDigest text.now) }
{
    perform(Command::Digest(text), text, alloc, writer, errors)
}

fn digest_as_json<W: Write, E: Write>(
    text: &str,
    alloc: Global,
    writer: &mut W,
    errors: &mut E,
) -> Result<bool>
    ensures right { IfOk result (λ b. b ≡ true → (shown : List ℕ) × IsDigestObject text.now shown × Appends (W.contents writer.old) (W.contents writer.new) shown) }
    ensures wrong { IfOk result (λ b. b ≡ false → IsNoDigest text.now) }
{
    if !is_digest(text, alloc, errors)? {
        return Ok(false);
    }
    let digest = Digest::from_str(alloc, text)?;
    let line = digest_object(&digest, alloc)?;
    write_text(line.as_bytes(), writer)?;
    Ok(true)
}

/// Whether the text is a digest. If it is none, a line on standard error says why.
pub(crate) fn is_digest<E: Write>(text: &str, alloc: Global, errors: &mut E) -> Result<bool>
    ensures right { IfOk result (λ b. b ≡ true → IsDigestText text.now) }
    ensures wrong { IfOk result (λ b. b ≡ false → IsNoDigest text.now) }
{
    let mut lines = Vec::new(alloc);
    perform(Command::Digest(text), text, alloc, &mut lines, errors)
}

/// The object of a digest's parts.
fn digest_object(digest: &Digest, alloc: Global) -> std::result::Result<String, AllocError>
    ensures { IfOk result (λ t. IsDigestObject digest.now (string_bytes t)) }
{
    let mut out = begun(alloc)?;
    text_member(&mut out, "input", digest.as_ref())?;
    text_member(&mut out, "algorithm", digest.algorithm().as_ref())?;
    text_member(&mut out, "encoded", digest.digest())?;
    ended(out, alloc)
}

/// Writes the reference with the digest of the descriptor in a file. Returns 0 if that was done, 1 if the text is no reference or the
/// file holds no descriptor, and 3 if the file could not be read; a line on standard error says why.
#[tactic(auto, using(crate::proofs::Held::pinned_held))]
pub fn pin<S: Files, W: Write, E: Write>(
    text: &str,
    file: &str,
    alloc: Global,
    store: &mut S,
    writer: &mut W,
    errors: &mut E,
) -> Result<u8>
    ensures status { IfOk result IsStatus }
    ensures right { IfOk result (λ s. s ≡ 0 → WritesPinned text.now (S.holds store.old file.now) (Appends (W.contents writer.old) (W.contents writer.new))) }
    ensures wrong { IfOk result (λ s. s ≡ 1 → IsNoReference text.now ⊎ IfSome (S.holds store.old file.now) IsNoDescriptor) }
{
    match store.read(alloc, file) {
        Ok(bytes) => {
            let done = pin_bytes(text, file, bytes.as_slice(), alloc, writer, errors)?;
            if done {
                return Ok(0);
            }
            Ok(1)
        }
        Err(fault) => {
            complain_of(file, &fault, alloc, errors);
            Ok(3)
        }
    }
}

#[tactic(auto, using(crate::proofs::Faults::at_fault))]
fn pin_bytes<W: Write, E: Write>(
    text: &str,
    file: &str,
    bytes: &[u8],
    alloc: Global,
    writer: &mut W,
    errors: &mut E,
) -> Result<bool>
    ensures right { IfOk result (λ b. b ≡ true → WritesPinned text.now (Some bytes.now) (Appends (W.contents writer.old) (W.contents writer.new))) }
    ensures wrong { IfOk result (λ b. b ≡ false → IsAtFault (pin text.now) (Some bytes.now)) }
{
    let (mut input, mut line) = (bytes, Vec::new(alloc));
    match Command::Pin(text).perform(alloc, &mut input, &mut line) {
        Ok(()) => {
            write_text(line.as_slice(), writer)?;
            Ok(true)
        }
        Err(refusal) => {
            report_no_descriptor(&refusal, file, bytes, alloc, errors)?;
            refused(refusal, text, alloc, errors)
        }
    }
}

/// Reports what is wrong with a file that holds no descriptor, if that is why there is no reference.
fn report_no_descriptor<E: Write>(
    refusal: &Refusal,
    file: &str,
    bytes: &[u8],
    alloc: Global,
    errors: &mut E,
) -> Result<()> {
    if matches!(refusal, Refusal::Json | Refusal::Schema) {
        let found = inspect(Some(Kind::Descriptor), file, bytes, alloc)?;
        report_findings(file, &found, alloc, errors)?;
    }
    Ok(())
}
