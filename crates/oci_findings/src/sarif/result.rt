//! A finding as a result (SARIF 2.1.0, section 3.27).
use crate::claimed::{Claimant, Claims};
use crate::finding::Finding;
use crate::place::Place;
use crate::render::{number_member, text_member};
use crate::uri::uri_of;
use json::Writer;
use oci_content::{Algorithm, digest_of};
use std::alloc::{AllocError, Global};

/// A finding, with where it is.
pub struct Located<'r, 'a> {
    /// The file.
    pub name: &'r str,
    /// What is found.
    pub finding: &'r Finding<'a>,
    /// The index of its rule.
    pub rule: u64,
    /// Where it is in the text, if there is one.
    pub place: Option<Place>,
    /// By which descriptors the file was reached.
    pub claims: &'r Claims,
}

impl<'r, 'a> Drop for Located<'r, 'a> {
    fn drop(self) {
        let Located {
            name,
            finding,
            rule,
            place,
            claims,
        } = self;
    }
}

/// Writes a finding.
pub fn put_result(out: &mut Writer, it: &Located<'_, '_>, alloc: Global) -> Result<(), AllocError> {
    out.begin_object()?;
    text_member(out, "ruleId", it.finding.rule())?;
    number_member(out, "ruleIndex", it.rule)?;
    text_member(out, "level", it.finding.severity.word())?;
    put_message(out, it.finding, alloc)?;
    put_location(out, it, alloc)?;
    put_fingerprint(out, it, alloc)?;
    put_claims(out, it.claims, alloc)?;
    out.end_object()
}

fn put_message(out: &mut Writer, finding: &Finding<'_>, alloc: Global) -> Result<(), AllocError> {
    let message = finding.message(alloc)?;
    begin_member(out, "message")?;
    text_member(out, "text", message.as_str())?;
    out.end_object()
}

fn put_location(out: &mut Writer, it: &Located<'_, '_>, alloc: Global) -> Result<(), AllocError> {
    begin_item(out, "locations")?;
    begin_member(out, "physicalLocation")?;
    put_file(out, it.name, alloc)?;
    if let Some(place) = it.place {
        put_region(out, place)?;
    }
    out.end_object()?;
    put_pointer(out, it.finding.pointer.as_str())?;
    end_item(out)
}

/// Writes the URI of a file.
pub(crate) fn put_file(out: &mut Writer, name: &str, alloc: Global) -> Result<(), AllocError> {
    let uri = uri_of(name, alloc)?;
    begin_member(out, "artifactLocation")?;
    text_member(out, "uri", uri.as_str())?;
    out.end_object()
}

fn put_region(out: &mut Writer, place: Place) -> Result<(), AllocError> {
    begin_member(out, "region")?;
    number_member(out, "startLine", place.line)?;
    number_member(out, "startColumn", place.column)?;
    out.end_object()
}

fn put_pointer(out: &mut Writer, pointer: &str) -> Result<(), AllocError> {
    begin_item(out, "logicalLocations")?;
    text_member(out, "fullyQualifiedName", pointer)?;
    end_item(out)
}

/// Writes by what the finding is known again when lines have moved: the name by which code hosts look for it is that of a hash of a
/// line, which this is none.
fn put_fingerprint(
    out: &mut Writer,
    it: &Located<'_, '_>,
    alloc: Global,
) -> Result<(), AllocError> {
    let hash = fingerprint_of(it, alloc)?;
    begin_member(out, "partialFingerprints")?;
    text_member(out, "primaryLocationLineHash", hash.as_str())?;
    out.end_object()
}

/// The digest of the file's path, the rule and the pointer, each behind a zero byte but the first.
fn fingerprint_of(it: &Located<'_, '_>, alloc: Global) -> Result<String, AllocError> {
    let mut text = String::from_str(alloc, it.name)?;
    text.push('\0')?;
    text.push_str(it.finding.rule())?;
    text.push('\0')?;
    text.push_str(it.finding.pointer.as_str())?;
    let digest = digest_of(Algorithm::Sha256, text.as_bytes()).text(alloc)?;
    match digest.as_str().split_once(':') {
        Some((_, encoded)) => String::from_str(alloc, encoded),
        None => Ok(digest),
    }
}

/// Writes the descriptors by which the file was reached, if there are any.
fn put_claims(out: &mut Writer, claims: &Claims, alloc: Global) -> Result<(), AllocError> {
    if claims.path.is_empty() {
        return Ok(());
    }
    out.key("relatedLocations")?;
    out.begin_array()?;
    for claimant in &claims.path {
        put_claimant(out, claimant, alloc)?;
    }
    out.end_array()
}

fn put_claimant(out: &mut Writer, claimant: &Claimant, alloc: Global) -> Result<(), AllocError> {
    out.begin_object()?;
    begin_member(out, "physicalLocation")?;
    put_file(out, claimant.file.as_str(), alloc)?;
    out.end_object()?;
    put_pointer(out, claimant.pointer.as_str())?;
    begin_member(out, "message")?;
    text_member(out, "text", "claimed by this descriptor")?;
    out.end_object()?;
    out.end_object()
}

/// Begins a member that is an object.
pub(crate) fn begin_member(out: &mut Writer, name: &str) -> Result<(), AllocError> {
    out.key(name)?;
    out.begin_object()
}

/// Begins a member that is an array of one object.
pub(crate) fn begin_item(out: &mut Writer, name: &str) -> Result<(), AllocError> {
    out.key(name)?;
    out.begin_array()?;
    out.begin_object()
}

/// Ends what `begin_item` began.
pub(crate) fn end_item(out: &mut Writer) -> Result<(), AllocError> {
    out.end_object()?;
    out.end_array()
}
