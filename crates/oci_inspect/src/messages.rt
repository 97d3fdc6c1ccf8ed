//! What is said where no image is shown.
ghost use Rattle.std.specs.Prelude.{IfOk, string_bytes};
ghost use Rattle.oci_base.specs.Escaped.{IsLine};

use crate::asked::Inspect;
use crate::fault::{Fault, FindError, InspectError};
use oci_base::{OciSpecError, SerDeError, line_of};
use oci_content::Verdict;
use oci_json::write_text;
use std::alloc::{AllocError, Global};
use std::io::{ErrorKind, Write};

/// Says why no image is shown. Nothing is said of a reader that has gone away, as `head` does.
pub(crate) fn complain<E: Write>(
    error: &InspectError,
    asked: &Inspect<'_>,
    alloc: Global,
    errors: &mut E,
) {
    if let InspectError::Unwritten(fault) = error {
        if fault.kind() == ErrorKind::BrokenPipe {
            return;
        }
    }
    let _ = match complaint(error, asked, alloc) {
        Ok(line) => write_text(line.as_bytes(), errors),
        Err(_) => write_text(b"ciderglen: out of memory\n", errors),
    };
}

/// The line that says why.
fn complaint(error: &InspectError, asked: &Inspect<'_>, alloc: Global) -> Result<String, AllocError>
    ensures { IfOk result (λ t. IsLine (string_bytes t)) }
{
    let why = match error {
        InspectError::NotFound(error) => why(error, asked, alloc)?,
        InspectError::Unwritten(fault) => format!(in alloc; "cannot write: {fault}")?,
    };
    let text = format!(in alloc; "ciderglen: {why}")?;
    line_of(text.as_str(), alloc)
}

/// Why no image is found.
fn why(error: &FindError, asked: &Inspect<'_>, alloc: Global) -> Result<String, AllocError> {
    match error {
        FindError::NoIndex(fault) => {
            let why = why_not(fault, alloc)?;
            format!(in alloc; "index.json: {why}")
        }
        FindError::Content(digest, fault) => {
            let why = why_not(fault, alloc)?;
            format!(in alloc; "{digest}: {why}")
        }
        FindError::NoName => no_name(asked.wanted.name, alloc),
        FindError::Several(count) => several(*count, asked.wanted.name, alloc),
        FindError::NoPlatform => String::from_str(alloc, "no image runs on the platform"),
        FindError::TooDeep => String::from_str(alloc, "the image lies below more than 16 indexes"),
        FindError::Memory => Err(AllocError),
    }
}

fn no_name(name: Option<&str>, alloc: Global) -> Result<String, AllocError> {
    match name {
        Some(name) => format!(in alloc; "no manifest is there by the name {name}"),
        None => String::from_str(alloc, "no manifest is there"),
    }
}

fn several(count: usize, name: Option<&str>, alloc: Global) -> Result<String, AllocError> {
    match name {
        Some(name) => format!(in alloc;
            "{count} manifests are there by the name {name}: say which with --platform"
        ),
        None => format!(in alloc;
            "{count} manifests are there: say which by its name, or with --platform"
        ),
    }
}

/// Why a document is not to be had.
fn why_not(fault: &Fault, alloc: Global) -> Result<String, AllocError> {
    match fault {
        Fault::Missing => String::from_str(alloc, "missing"),
        Fault::Unreadable(why) => format!(in alloc; "cannot be read: {why}"),
        Fault::TooLarge => String::from_str(alloc, "larger than 4 MiB"),
        Fault::Other(verdict) => String::from_str(alloc, words_of(*verdict)),
        Fault::Invalid(error) => why_invalid(error, alloc),
        Fault::Memory => Err(AllocError),
    }
}

fn words_of(verdict: Verdict) -> &'static str {
    match verdict {
        Verdict::Same => "the same",
        Verdict::Shorter(_) => "smaller than its descriptor says",
        Verdict::Longer => "larger than its descriptor says",
        Verdict::OtherDigest(_) => "the digest is another",
        Verdict::Unjudged => "the digest is by an algorithm that is not known here",
    }
}

fn why_invalid(error: &OciSpecError, alloc: Global) -> Result<String, AllocError> {
    match error {
        OciSpecError::SerDe(SerDeError::Json(fault)) => format!(in alloc; "no JSON: {fault}"),
        OciSpecError::SerDe(SerDeError::Schema(fault)) => format!(in alloc; "{fault}"),
        _ => String::from_str(alloc, "no document"),
    }
}
