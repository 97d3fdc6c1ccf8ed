//! The command `kind`.
ghost use Rattle.std.specs.Prelude.{◌≡◌, ◌<◌, ◌++◌, ℕ, List, Some, None, length, IfOk, IfSome, OnOk, string_bytes};
ghost use Rattle.std.specs.List.{HoldsAt};
ghost use Rattle.std.specs.Io.KnownBytes.{Appends};
ghost use Rattle.oci_base.specs.Escaped.{IsLine};
ghost use Rattle.oci_findings.specs.Checks.{HasNoKind};
ghost use Rattle.oci_commands.specs.Done.{IsStatus, AppendsEach};
ghost use Rattle.oci_commands.specs.Kinds.{IsKindObject, IsKindText, IsShownKind, IsKindLine, only_candidate};
ghost use Rattle.oci_commands.specs.declared.outcome.Outcome.TheVariants.{Right, Wrong};

use crate::asked::Style;
use crate::files::Files;
use crate::objects::{begun, ended, text_member};
use crate::outcome::Outcome;
use crate::texts::complain_of;
use json::Writer;
use oci_base::{Result, line_of};
use oci_findings::Finding;
use oci_findings::detect::candidates;
use oci_findings::inspect::{Reading, read_value};
use oci_findings::render::json_line;
use oci_json::write_text;
use oci_schemas::Kind;
use serde_json::Value;
use std::alloc::{AllocError, Global};
use std::io::Write;

/// Writes the kind of each document as `check` finds it out, a line or an object each. Returns 0 if each is of one kind, 1 if one is no
/// JSON or of no kind or possibly of several, and 3 if a file could not be read, which a line on standard error says; the others are
/// written all the same. Fails if they cannot be written, or if out of memory.
pub fn kinds<S: Files, W: Write, E: Write>(
    style: Style,
    files: &[&str],
    alloc: Global,
    store: &mut S,
    writer: &mut W,
    errors: &mut E,
) -> Result<u8>
    ensures status { IfOk result IsStatus }
    ensures done { IfOk result (λ s. s ≡ 0 → AppendsEach (λ f. IsKindLine style (S.holds store.old f.now) f.now) files.now (W.contents writer.old) (W.contents writer.new)) }
    ensures wrong { IfOk result (λ s. s ≡ 1 → (i : ℕ) × (i < length files.now) × HoldsAt (λ f. IfSome (S.holds store.old f.now) (HasNoKind None f.now)) files.now i) }
{
    let mut found = Outcome::Right;
    for name in files {
        let of_file = kind_of_file(style, name, alloc, store, writer, errors)?;
        found = found.joined_with(of_file);
    }
    Ok(found.status())
}

/// Writes the kind of a document, or says that it could not be read.
fn kind_of_file<S: Files, W: Write, E: Write>(
    style: Style,
    name: &str,
    alloc: Global,
    store: &mut S,
    writer: &mut W,
    errors: &mut E,
) -> Result<Outcome>
    ensures right { IfOk result (λ o. o ≡ Right → (line : List ℕ) × IsKindLine style (S.holds store.old name.now) name.now line × Appends (W.contents writer.old) (W.contents writer.new) line) }
    ensures wrong { IfOk result (λ o. o ≡ Wrong → IfSome (S.holds store.old name.now) (HasNoKind None name.now)) }
    ensures kept { S.holds store.new ≡ S.holds store.old }
{
    match store.read(alloc, name) {
        Ok(bytes) => kind_of_bytes(style, name, bytes.as_slice(), alloc, writer),
        Err(fault) => {
            complain_of(name, &fault, alloc, errors);
            Ok(Outcome::Unread)
        }
    }
}

/// Writes the kind of the document in these bytes, or that none was found, and which are possible.
fn kind_of_bytes<W: Write>(
    style: Style,
    name: &str,
    bytes: &[u8],
    alloc: Global,
    writer: &mut W,
) -> Result<Outcome>
    ensures right { IfOk result (λ o. o ≡ Right → (line : List ℕ) × IsKindLine style (Some bytes.now) name.now line × Appends (W.contents writer.old) (W.contents writer.new) line) }
    ensures wrong { IfOk result (λ o. o ≡ Wrong → HasNoKind None name.now bytes.now) }
{
    match read_value(None, name, bytes, alloc)? {
        Reading::Value(kind, value) => {
            drop(value);
            let line = kind_line(style, name, kind, alloc)?;
            write_text(line.as_bytes(), writer)?;
            Ok(Outcome::Right)
        }
        Reading::Fault(fault) => {
            let line = fault_line(style, name, bytes, &fault, alloc)?;
            write_text(line.as_bytes(), writer)?;
            Ok(Outcome::Wrong)
        }
    }
}

/// The line of a document of a kind.
fn kind_line(
    style: Style,
    name: &str,
    kind: Kind,
    alloc: Global,
) -> std::result::Result<String, AllocError>
    ensures { IfOk result (λ t. IsShownKind style name.now kind (string_bytes t)) }
{
    match style {
        Style::Json => kind_object(name, kind, alloc),
        Style::Text | Style::Color | Style::Sarif | Style::Github => kind_text(name, kind, alloc),
    }
}

fn kind_text(name: &str, kind: Kind, alloc: Global) -> std::result::Result<String, AllocError>
    ensures { IfOk result (λ t. IsKindText name.now kind (string_bytes t)) }
{
    let word = kind.word();
    let text = format!(in alloc; "{name}: {word}")?;
    line_of(text.as_str(), alloc)
}

fn kind_object(name: &str, kind: Kind, alloc: Global) -> std::result::Result<String, AllocError>
    ensures { IfOk result (λ t. IsKindObject name.now kind (string_bytes t)) }
{
    let word = kind.word();
    let mut out = begun(alloc)?;
    text_member(&mut out, "file", name)?;
    text_member(&mut out, "kind", word)?;
    put_candidate(&mut out, word)?;
    ended(out, alloc)
}

/// Adds the only kind that is possible.
fn put_candidate(out: &mut Writer, word: &str) -> std::result::Result<(), AllocError>
    ensures before { OnOk result (out.new.before ≡ out.old.before) }
    ensures tokens { OnOk result (out.new.tokens ≡ out.old.tokens ++ only_candidate word.now) }
{
    out.key("candidates")?;
    out.begin_array()?;
    out.string(word)?;
    out.end_array()?;
    Ok(())
}

/// The line of a document of which no kind was found, for this reason.
fn fault_line(
    style: Style,
    name: &str,
    bytes: &[u8],
    fault: &Finding<'_>,
    alloc: Global,
) -> std::result::Result<String, AllocError>
    ensures { IfOk result (λ t. IsLine (string_bytes t)) }
{
    let message = fault.message(alloc)?;
    match style {
        Style::Json => fault_object(name, bytes, message.as_str(), alloc),
        Style::Text | Style::Color | Style::Sarif | Style::Github => fault_text(
            name,
            message.as_str(),
            alloc,
        ),
    }
}

fn fault_text(name: &str, message: &str, alloc: Global) -> std::result::Result<String, AllocError>
    ensures { IfOk result (λ t. IsLine (string_bytes t)) }
{
    let text = format!(in alloc; "{name}: unknown: {message}")?;
    line_of(text.as_str(), alloc)
}

fn fault_object(
    name: &str,
    bytes: &[u8],
    message: &str,
    alloc: Global,
) -> std::result::Result<String, AllocError>
    ensures { IfOk result (λ t. IsLine (string_bytes t)) }
{
    let possible = candidates_in(bytes, alloc)?;
    let mut out = Writer::new(Vec::new(alloc));
    out.begin_object()?;
    text_member(&mut out, "file", name)?;
    out.key("kind")?;
    out.null()?;
    put_candidates(&mut out, possible.as_slice())?;
    text_member(&mut out, "message", message)?;
    out.end_object()?;
    json_line(out, alloc)
}

/// The kinds that are possible for what these bytes hold; none if it is no JSON.
fn candidates_in(bytes: &[u8], alloc: Global) -> std::result::Result<Vec<Kind>, AllocError> {
    match Value::from_slice(alloc, bytes) {
        Ok(value) => candidates(&value, alloc),
        Err(fault) if fault.is_memory() => Err(AllocError),
        Err(_) => Ok(Vec::new(alloc)),
    }
}

fn put_candidates(out: &mut Writer, kinds: &[Kind]) -> std::result::Result<(), AllocError> {
    out.key("candidates")?;
    out.begin_array()?;
    for kind in kinds {
        out.string(kind.word())?;
    }
    out.end_array()
}
