//! Members whose name an earlier member of the same object has. The last one counts.
ghost use Rattle.std.specs.Prelude.{◌≡◌, ◌↔◌, ◌+◌, [], true, length, map, string_bytes, IfOk, OnOk, IsUtf8};
ghost use Rattle.std.specs.List.{filter};
ghost use Rattle.oci_findings.specs.Asked.{is_wrong_twice as is_wrong};
ghost use Rattle.oci_findings.specs.Checks.{HasNamesOnce};
ghost use Rattle.oci_findings.specs.Repeated.{AreRepeated};

use crate::annotations::is_annotation;
use crate::{Cause, Check, Finding, Severity};
use json::{Error, Scratch, Tape};
use oci_schema::repeated_names;
use oci_schemas::Kind;
use std::alloc::{AllocError, Global};

/// Adds a warning of each of these members that is worth one and does not make a document of the kind wrong.
pub fn warn_of_repeated(
    asked: &Check<'_>,
    kind: Kind,
    repeated: &Vec<String>,
    found: &mut Vec<Finding<'_>>,
    alloc: Global,
) -> Result<(), AllocError> {
    if asked.ignores("repeated") {
        return Ok(());
    }
    for pointer in repeated {
        if !is_wrong_twice(asked, kind, pointer.as_str()) {
            add_at(pointer.as_str(), true, found, alloc)?;
        }
    }
    Ok(())
}

/// A finding of each of these members that makes a document of the kind wrong: an error of an annotation, whose key has to be unique, and
/// a warning of another one.
pub fn key_errors<'a>(
    asked: &Check<'_>,
    kind: Kind,
    repeated: &Vec<String>,
    alloc: Global,
) -> Result<Vec<Finding<'a>>, AllocError>
    ensures { IfOk result (λ v. length v.items ≡ length (filter (is_wrong asked.now kind) (map string_bytes repeated.now.items))) }
{
    let mut found = Vec::new(alloc);
    for pointer in repeated {
        if is_wrong_twice(asked, kind, pointer.as_str()) {
            let is_warning = !is_annotation(kind, pointer.as_str());
            add_at(pointer.as_str(), is_warning, &mut found, alloc)?;
        }
    }
    Ok(found)
}

/// Whether a member of a document of the kind, whose name an earlier member of its object has, makes it wrong.
fn is_wrong_twice(asked: &Check<'_>, kind: Kind, pointer: &str) -> bool
    ensures { result ≡ is_wrong asked.now kind pointer.now }
{
    !asked.ignores("repeated") && (asked.strict || is_annotation(kind, pointer))
}

/// Adds a finding at a pointer.
fn add_at(
    pointer: &str,
    is_warning: bool,
    found: &mut Vec<Finding<'_>>,
    alloc: Global,
) -> Result<(), AllocError>
    ensures { OnOk result (length found.new.items ≡ length found.old.items + 1) }
{
    let pointer = String::from_str(alloc, pointer)?;
    found.push(repeated_finding(pointer, is_warning))?;
    Ok(())
}

/// The pointer of each member whose name an earlier member of the same object has; none for bytes that are not JSON. Fails if out of
/// memory.
pub fn repeated_if_any(bytes: &[u8], alloc: Global) -> Result<Vec<String>, AllocError>
    ensures { IfOk result (λ v. IsUtf8 bytes.now → AreRepeated bytes.now v.items) }
{
    match std::str::from_utf8(bytes) {
        Ok(text) => repeated_in(text, alloc),
        Err(_) => Ok(Vec::new(alloc)),
    }
}

/// The same of a text. A tape shows sooner than values that no name stands twice.
#[tactic(auto, using(crate::proofs::Keys::none_repeated))]
fn repeated_in(text: &str, alloc: Global) -> Result<Vec<String>, AllocError>
    ensures { IfOk result (λ v. AreRepeated text.now v.items) }
{
    if has_names_once(text, alloc)? {
        Ok(Vec::new(alloc))
    } else {
        all_repeated(text, alloc)
    }
}

/// Whether the text is JSON in which no name stands twice in an object; `false` also if that was not found out.
fn has_names_once(text: &str, alloc: Global) -> Result<bool, AllocError>
    ensures { IfOk result (λ b. b ≡ true → HasNamesOnce text.now) }
{
    let mut scratch = Scratch::new(alloc);
    match Tape::parse_strict(text, &mut scratch, Vec::new(alloc)) {
        Ok(_) => Ok(true),
        Err(Error::OutOfMemory) => Err(AllocError),
        Err(_) => Ok(false),
    }
}

/// The pointers of all such members; none if the text is not JSON.
#[tactic(auto, using(crate::proofs::Keys::all_listed, crate::proofs::Keys::none_of_no_json))]
fn all_repeated(text: &str, alloc: Global) -> Result<Vec<String>, AllocError>
    ensures { IfOk result (λ v. AreRepeated text.now v.items) }
{
    match repeated_names(text, alloc) {
        Ok(pointers) => Ok(pointers),
        Err(Error::Invalid) => Ok(Vec::new(alloc)),
        Err(_) => Err(AllocError),
    }
}

/// A finding of each member whose name an earlier member of the same object has. Fails if out of memory, with `Invalid` if the bytes
/// are not JSON, and with `TooLong` if they are 4 GiB or more.
pub fn repeated_findings<'a>(
    bytes: &[u8],
    is_warning: bool,
    alloc: Global,
) -> Result<Vec<Finding<'a>>, Error>
    ensures { IfOk result (λ v. (v.items ≡ []) ↔ HasNamesOnce bytes.now) }
{
    match std::str::from_utf8(bytes) {
        Ok(text) => findings_in(text, is_warning, alloc),
        Err(_) => Err(Error::Invalid),
    }
}

/// The same of a text.
fn findings_in<'a>(text: &str, is_warning: bool, alloc: Global) -> Result<Vec<Finding<'a>>, Error>
    ensures { IfOk result (λ v. (v.items ≡ []) ↔ HasNamesOnce text.now) }
{
    let pointers = repeated_names(text, alloc)?;
    let found = findings_at(pointers, is_warning, alloc)?;
    Ok(found)
}

/// A finding at each pointer.
fn findings_at<'a>(
    pointers: Vec<String>,
    is_warning: bool,
    alloc: Global,
) -> Result<Vec<Finding<'a>>, AllocError>
    ensures { IfOk result (λ v. length v.items ≡ length pointers.items) }
{
    let mut found = Vec::new(alloc);
    for pointer in pointers {
        found.push(repeated_finding(pointer, is_warning))?;
    }
    Ok(found)
}

fn repeated_finding<'a>(pointer: String, is_warning: bool) -> Finding<'a> {
    Finding {
        pointer,
        cause: Cause::Repeated,
        severity: Severity::warning_if(is_warning),
    }
}
