//! Why a command was refused, and the line that tells it.
ghost use Rattle.std.specs.Prelude.{◌≡◌, ◌∷◌, ◌++◌, [], OnOk, OnErr};
ghost use Rattle.std.specs.Io.KnownBytes.{Appends};
ghost use Rattle.oci_json.specs.Engines.{AppendsSome};
ghost use Rattle.oci_doc_run.specs.Refusals.{mark, reason, parse_name, line_of};

use oci_base::{OciSpecError, SerDeError};
use oci_json::write_text;
use oci_reference::ParseError;
use std::alloc::AllocError;
use std::io;
use std::io::Write;

/// Why a command was refused.
#[derive(Debug, Drop)]
pub enum Refusal {
    /// The text is no digest, and this says which rule it breaks.
    Other(String),
    /// A read, a write or a flush failed.
    Io,
    /// The input is no JSON.
    Json,
    /// The input is JSON that is no such document.
    Schema,
    /// A builder lacks a field. No command answers it.
    Builder,
    /// Out of memory.
    Memory,
    /// The text is no reference.
    Reference(ParseError),
}

impl From<OciSpecError> for Refusal {
    ghost use Rattle.oci_doc_run.specs.Refusals.{refusal_of};

    ghost from_gives = { λ e r. r ≡ refusal_of e };

    fn from(error: OciSpecError) -> Refusal {
        match error {
            OciSpecError::Other(text) => Refusal::Other(text),
            OciSpecError::Io(_) => Refusal::Io,
            OciSpecError::SerDe(SerDeError::Json(_)) => Refusal::Json,
            OciSpecError::SerDe(SerDeError::Schema(_)) => Refusal::Schema,
            OciSpecError::Builder(_) => Refusal::Builder,
            OciSpecError::Memory => Refusal::Memory,
        }
    }
}

impl From<ParseError> for Refusal {
    ghost use Rattle.oci_doc_run.specs.declared.refusal.Refusal.TheVariants.{Reference};

    ghost from_gives = { λ e r. r ≡ Reference e };

    fn from(error: ParseError) -> Refusal {
        Refusal::Reference(error)
    }
}

impl From<io::Error> for Refusal {
    ghost use Rattle.oci_doc_run.specs.declared.refusal.Refusal.TheVariants.{Io};

    ghost from_gives = { λ _ r. r ≡ Io };

    fn from(_fault: io::Error) -> Refusal {
        Refusal::Io
    }
}

impl From<AllocError> for Refusal {
    ghost use Rattle.oci_doc_run.specs.declared.refusal.Refusal.TheVariants.{Memory};

    ghost from_gives = { λ _ r. r ≡ Memory };

    fn from(_refused: AllocError) -> Refusal {
        Refusal::Memory
    }
}

impl Refusal {
    /// Writes the line of the refusal, or a beginning of it.
    pub fn report<E: Write>(&self, errors: &mut E)
        ensures { AppendsSome (E.contents errors.old) (E.contents errors.new) (line_of self.now) }
    {
        let _ = write_line(self.mark(), self.reason(), errors);
    }

    fn mark(&self) -> &'static str
        ensures { result.now ≡ mark self.now }
    {
        match self {
            Refusal::Other(_) => "refused: Other: ",
            _ => "refused: ",
        }
    }

    fn reason(&self) -> &str
        ensures { result.now ≡ reason self.now }
    {
        match self {
            Refusal::Other(text) => text.as_str(),
            Refusal::Io => "Io",
            Refusal::Json => "Json",
            Refusal::Schema => "Schema",
            Refusal::Builder => "Builder",
            Refusal::Memory => "Memory",
            Refusal::Reference(error) => parse_name(error),
        }
    }
}

fn parse_name(error: &ParseError) -> &'static str
    ensures { result.now ≡ parse_name error.now }
{
    match error {
        ParseError::DigestInvalidFormat => "DigestInvalidFormat",
        ParseError::DigestInvalidLength => "DigestInvalidLength",
        ParseError::DigestUnsupported => "DigestUnsupported",
        ParseError::NameContainsUppercase => "NameContainsUppercase",
        ParseError::NameEmpty => "NameEmpty",
        ParseError::NameTooLong => "NameTooLong",
        ParseError::ReferenceInvalidFormat => "ReferenceInvalidFormat",
        ParseError::TagInvalidFormat => "TagInvalidFormat",
        ParseError::Memory => "Memory",
    }
}

/// Writes a line in its parts, without memory of its own.
fn write_line<E: Write>(mark: &str, reason: &str, errors: &mut E) -> io::Result<()>
    ensures ok { OnOk result (Appends (E.contents errors.old) (E.contents errors.new) (mark.now ++ (reason.now ++ 10 ∷ []))) }
    ensures err { OnErr result (AppendsSome (E.contents errors.old) (E.contents errors.new) (mark.now ++ (reason.now ++ 10 ∷ []))) }
{
    write_text(mark.as_bytes(), errors)?;
    write_text(reason.as_bytes(), errors)?;
    write_text(b"\n", errors)
}
