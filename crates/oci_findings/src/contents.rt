//! Findings on the contents of an image layout, by the facts that a walk over it gives.
ghost use Rattle.std.specs.Prelude.{◌≡◌, ◌++◌, ◌∷◌, [], IfOk, OnOk, Some, map, not, string_bytes};
ghost use Rattle.oci_findings.specs.Contents.{content_fault, document_fault, document_facts, fact, fact_in, file_facts, held_fact, is_wrong, note_fact, unread_fact};
ghost use Rattle.oci_findings.specs.Lines.{is_error_level};
ghost use Rattle.oci_findings.specs.Reports.{IsReportOn};

use crate::claimed::{Claims, pointer_of};
use crate::file_fault::{Absence, FileFault};
use crate::finding::{Cause, Finding, Severity, joined};
use crate::report::Report;
use crate::shown::{json_cause_of, shown_at, value_of, violation_findings};
use oci_layout::{Claim, Detail, Fault, Held, Kind, OtherMember, Role, Walk};
use serde_json::Value;
use std::alloc::{AllocError, Global};
use std::io;

/// What was found at a place of a walk, which was looked at, and by which descriptors it was reached. Fails if out of memory.
pub fn content_report(
    walk: &Walk,
    place: usize,
    alloc: Global,
) -> Result<Report<'static>, AllocError> {
    let (Some(claim), Some(fault), Some(detail)) = (
        walk.claims.get(place),
        walk.faults.get(place),
        walk.details.get(place),
    ) else {
        return Report::new(Vec::new(alloc), Vec::new(alloc), b"", alloc);
    };
    report_on(
        claim,
        *fault,
        detail,
        Claims::of(walk, place, alloc)?,
        alloc,
    )
}

/// What was found at a content that is reached by these descriptors. Fails if out of memory.
#[tactic(auto, using(crate::proofs::Facts::reported))]
pub fn report_on(
    claim: &Claim,
    fault: Option<Fault>,
    detail: &Detail,
    claims: Claims,
    alloc: Global,
) -> Result<Report<'static>, AllocError>
    ensures { IfOk result (IsReportOn claim.now fault detail.now) }
{
    let found = content_findings(claim, fault, detail, alloc)?;
    Report::of_file(found, &detail.text, claims, alloc)
}

/// A finding for each violation of the schema of a content's document, for what stands against each content that its descriptors hold
/// themselves, for what stands against the content, and that it is not looked into, in this order. Fails if out of memory.
pub fn content_findings<'a>(
    claim: &Claim,
    fault: Option<Fault>,
    detail: &Detail,
    alloc: Global,
) -> Result<Vec<Finding<'a>>, AllocError>
    ensures { IfOk result (λ v. map fact v.items ≡ document_facts fault detail.now ++ content_fault claim.now fault ++ unread_fact claim.now fault) }
{
    let mut found = document_findings(claim.kind, fault, detail, alloc)?;
    add_content_fault(claim, fault, detail, &mut found, alloc)?;
    add_unread(claim, fault, &mut found, alloc)?;
    Ok(found)
}

/// The same of what stands against a document of a kind, as `index.json`. Fails if out of memory.
pub fn document_findings<'a>(
    kind: Kind,
    fault: Option<Fault>,
    detail: &Detail,
    alloc: Global,
) -> Result<Vec<Finding<'a>>, AllocError>
    ensures { IfOk result (λ v. map fact v.items ≡ document_facts fault detail.now) }
{
    let text = detail.text.as_deref().unwrap_or(b"");
    let value = value_of(text, alloc)?;
    let mut found = violation_findings(&detail.violations, &value, alloc)?;
    add_all_held(&detail.held, &mut found, alloc)?;
    add_document_fault(kind, fault, text, &value, &mut found, alloc)?;
    Ok(found)
}

fn add_all_held<'a>(
    listed: &Vec<Held>,
    found: &mut Vec<Finding<'a>>,
    alloc: Global,
) -> Result<(), AllocError>
    ensures { OnOk result (map fact found.new.items ≡ map fact found.old.items ++ map held_fact listed.now.items) }
{
    for held in listed {
        add_held(held, found, alloc)?;
    }
    Ok(())
}

fn add_held<'a>(held: &Held, found: &mut Vec<Finding<'a>>, alloc: Global) -> Result<(), AllocError>
    ensures { OnOk result (map fact found.new.items ≡ map fact found.old.items ++ held_fact held.now ∷ []) }
{
    let pointer = pointer_of(held.role, held.at, alloc)?;
    let pointer = joined(pointer.as_str(), "/data", alloc)?;
    let cause = Cause::File(FileFault::Held(held.embedded));
    add(Severity::Error, pointer, cause, found)
}

/// Adds what stands against a document that was read.
fn add_document_fault<'a>(
    kind: Kind,
    fault: Option<Fault>,
    text: &[u8],
    value: &Value,
    found: &mut Vec<Finding<'a>>,
    alloc: Global,
) -> Result<(), AllocError>
    ensures { OnOk result (map fact found.new.items ≡ map fact found.old.items ++ document_fault fault) }
{
    match fault {
        Some(Fault::NoJson) => {
            let cause = json_cause_of(text, alloc)?;
            add(Severity::Error, String::new(alloc), cause, found)
        }
        Some(Fault::OtherType) => add_other_type(kind, value, found, alloc),
        Some(Fault::Ambiguous(member)) => add_ambiguous(member, found, alloc),
        _ => Ok(()),
    }
}

fn add_other_type<'a>(
    kind: Kind,
    value: &Value,
    found: &mut Vec<Finding<'a>>,
    alloc: Global,
) -> Result<(), AllocError>
    ensures { OnOk result (map fact found.new.items ≡ map fact found.old.items ++ document_fault (Some Fault.OtherType)) }
{
    let shown = shown_at(value, "/mediaType", alloc)?;
    let cause = FileFault::MediaType(kind.own_type().unwrap_or(""), shown);
    let pointer = String::from_str(alloc, "/mediaType")?;
    add(Severity::Error, pointer, Cause::File(cause), found)
}

fn add_ambiguous<'a>(
    member: OtherMember,
    found: &mut Vec<Finding<'a>>,
    alloc: Global,
) -> Result<(), AllocError>
    ensures { OnOk result (map fact found.new.items ≡ map fact found.old.items ++ document_fault (Some (Fault.Ambiguous member))) }
{
    let pointer = joined("/", member.name(), alloc)?;
    let cause = Cause::File(FileFault::Ambiguous(member));
    add(Severity::Error, pointer, cause, found)
}

fn add<'a>(
    severity: Severity,
    pointer: String,
    cause: Cause<'a>,
    found: &mut Vec<Finding<'a>>,
) -> Result<(), AllocError>
    ensures { OnOk result (map fact found.new.items ≡ map fact found.old.items ++ (string_bytes pointer, fact_in cause.entry, is_error_level severity) ∷ []) }
{
    let finding = Finding {
        pointer,
        cause,
        severity,
    };
    found.push(finding)?;
    Ok(())
}

/// Adds what stands against a content that is not as it is claimed to be.
fn add_content_fault<'a>(
    claim: &Claim,
    fault: Option<Fault>,
    detail: &Detail,
    found: &mut Vec<Finding<'a>>,
    alloc: Global,
) -> Result<(), AllocError>
    ensures { OnOk result (map fact found.new.items ≡ map fact found.old.items ++ content_fault claim.now fault) }
{
    let Some(fault) = fault else {
        return Ok(());
    };
    match file_fault(claim, fault, detail, alloc)? {
        Some(cause) => {
            let severity = severity_of(claim, fault);
            add(severity, String::new(alloc), Cause::File(cause), found)
        }
        None => Ok(()),
    }
}

/// Adds a note on a content against which nothing stands, and that is not looked into.
fn add_unread<'a>(
    claim: &Claim,
    fault: Option<Fault>,
    found: &mut Vec<Finding<'a>>,
    alloc: Global,
) -> Result<(), AllocError>
    ensures { OnOk result (map fact found.new.items ≡ map fact found.old.items ++ unread_fact claim.now fault) }
{
    match fault {
        None => add_note_if(claim.is_unread(), found, alloc),
        Some(_) => Ok(()),
    }
}

/// Adds a note that a content is not looked into, if it is not.
fn add_note_if<'a>(
    is_unread: bool,
    found: &mut Vec<Finding<'a>>,
    alloc: Global,
) -> Result<(), AllocError>
    ensures { OnOk result (map fact found.new.items ≡ map fact found.old.items ++ note_fact is_unread) }
{
    if !is_unread {
        return Ok(());
    }
    let cause = Cause::File(FileFault::Unread);
    add(Severity::Note, String::new(alloc), cause, found)
}

/// A content that is missing and may be is worth a note.
fn severity_of(claim: &Claim, fault: Fault) -> Severity
    ensures { is_error_level result ≡ is_wrong claim.now fault }
{
    match fault {
        Fault::Missing => note_if(claim.may_be_missing()),
        _ => Severity::Error,
    }
}

/// A note, or else an error.
fn note_if(is_note: bool) -> Severity
    ensures { is_error_level result ≡ not is_note }
{
    if is_note {
        Severity::Note
    } else {
        Severity::Error
    }
}

/// What is wrong with a file that is not as it is claimed to be; nothing of a document that is.
fn file_fault(
    claim: &Claim,
    fault: Fault,
    detail: &Detail,
    alloc: Global,
) -> Result<Option<FileFault>, AllocError>
    ensures { IfOk result (λ f. content_fault claim.now (Some fault) ≡ file_facts (is_wrong claim.now fault) f) }
{
    Ok(Some(match fault {
        Fault::Missing => FileFault::Missing(absence_of(claim)),
        Fault::Unreadable => FileFault::Unreadable(reason_in(detail, alloc)?),
        Fault::TooLarge => FileFault::TooLarge,
        Fault::Shorter(found) => FileFault::Size(claim.size, Some(found)),
        Fault::Longer => FileFault::Size(claim.size, None),
        Fault::OtherDigest(found) => {
            FileFault::Digest(String::from_str(alloc, claim.digest.as_ref())?, found)
        }
        Fault::Unjudged => FileFault::Unjudged,
        Fault::NoJson
        | Fault::NoDocument
        | Fault::OtherType
        | Fault::Ambiguous(_)
        | Fault::Embedded => {
            return Ok(None);
        }
    }))
}

/// Why a content cannot be read, as the system says it.
fn reason_in(detail: &Detail, alloc: Global) -> Result<Option<String>, AllocError> {
    match &detail.why {
        Some(why) => reason_text(why, alloc),
        None => Ok(None),
    }
}

/// What the system says.
pub fn reason_text(why: &io::Error, alloc: Global) -> Result<Option<String>, AllocError> {
    Ok(Some(format!(in alloc; "{why}")?))
}

/// Why the content of a claim may be missing.
fn absence_of(claim: &Claim) -> Absence {
    if claim.role == Role::Subject {
        Absence::Subject
    } else if claim.elsewhere {
        Absence::Elsewhere
    } else {
        Absence::Wrong
    }
}
