//! What is found where documents do not agree.
ghost use Rattle.std.specs.Prelude.{◌≡◌, ◌++◌, ◌∷◌, [], map, OnOk};
ghost use Rattle.oci_agreement.specs.Listed.{told_of, seat_of, shown_of, tell, unless};

use crate::agreement::Agreement;
use serde_json::Value;
use std::alloc::{AllocError, Global};

/// A document of an image.
#[derive(Clone, Copy, Debug, PartialEq, Eq)]
pub enum Document {
    /// The manifest.
    Manifest,
    /// The configuration.
    Configuration,
}

/// What was expected or found.
#[derive(Clone, Copy)]
pub enum Shown<'a> {
    /// So many.
    Count(usize),
    /// A string.
    Text(&'a str),
    /// The strings of an array.
    Texts(&'a Vec<Value>),
}

/// A place where an agreement is broken.
#[derive(Drop)]
pub struct Broken<'a> {
    /// The agreement.
    pub agreement: Agreement,
    /// The document that is shown.
    pub document: Document,
    /// The place in it, as a JSON pointer (RFC 6901). A variant that is not said has the place where it would be.
    pub pointer: String,
    /// What another document lets expect there.
    pub expected: Shown<'a>,
    /// What is found there.
    pub found: Shown<'a>,
}

/// Where an agreement is looked at.
#[derive(Clone, Copy)]
pub struct Seat<'p> {
    pub agreement: Agreement,
    pub document: Document,
    pub pointer: &'p str,
}

/// Adds that something else is found than is expected, unless they are the same.
pub fn add_unless<'a>(
    is_same: bool,
    at: Seat<'_>,
    shown: (Shown<'a>, Shown<'a>),
    broken: &mut Vec<Broken<'a>>,
    alloc: Global,
) -> Result<(), AllocError>
    ensures { OnOk result (map told_of broken.new.items ≡ map told_of broken.old.items ++ unless is_same (tell (seat_of at.entry) (shown_of shown.entry.0) (shown_of shown.entry.1))) }
{
    if is_same {
        return Ok(());
    }
    let (expected, found) = shown;
    let pointer = String::from_str(alloc, at.pointer)?;
    broken.push(Broken {
        agreement: at.agreement,
        document: at.document,
        pointer,
        expected,
        found,
    })?;
    Ok(())
}
