//! What is said where the documents of an image do not agree.
ghost use Rattle.std.specs.Prelude.{◌≡◌, ◌↔◌, false, IsTrue};
ghost use Rattle.std.specs.List.{All};
ghost use Rattle.oci_findings.specs.Checks.{binds as does_bind};
ghost use Rattle.oci_rules.specs.Tables.{level_of};
ghost use Rattle.oci_verify.specs.Images as images;

use crate::documents::Document;
use crate::output::Output;
use oci_agreement::{Agreement, Broken, Description, Document as Place, Shown};
use oci_base::Result;
use oci_findings::shown::shown_at;
use oci_findings::{Cause, Check, Claims, Finding, Report, Severity};
use oci_layout::{Walk, blob_path};
use oci_rules::{Level, Platforms, Rule, Test};
use oci_text::Digest;
use serde_json::{Map, Value};
use std::alloc::{AllocError, Global};
use std::io::Write;

/// The documents of an image as texts, and the walk by which they were reached.
#[derive(Clone, Copy)]
pub struct Texts<'d> {
    pub manifest: &'d Document,
    pub config: &'d Option<Document>,
    pub walk: &'d Walk,
}

impl<'d> Texts<'d> {
    /// The document in which something was found.
    fn document(&self, place: Place) -> &'d Document {
        match (place, self.config) {
            (Place::Configuration, Some(config)) => config,
            _ => self.manifest,
        }
    }

    /// Writes a finding on one of the documents. Fails as `Output::add`.
    pub fn report<W: Write, E: Write>(
        &self,
        place: Place,
        finding: Finding<'_>,
        output: &mut Output<'_, W, E>,
    ) -> Result<()> {
        let alloc = output.alloc;
        let document = self.document(place);
        let report = report_of(finding, document, self.walk, alloc)?;
        let path = path_of(document, alloc)?;
        output.add(path.as_str(), &report)
    }
}

/// Writes a finding for each agreement that is broken and is asked by its name: an error of one that binds, and else a warning. Fails as
/// `Output::add`.
pub fn report_broken<W: Write, E: Write>(
    broken: &Vec<Broken<'_>>,
    texts: &Texts<'_>,
    asked: &Check<'_>,
    output: &mut Output<'_, W, E>,
) -> Result<()> {
    for one in broken {
        if asked.asks(one.agreement.description().name) {
            report_one(one, texts, output)?;
        }
    }
    Ok(())
}

fn report_one<W: Write, E: Write>(
    one: &Broken<'_>,
    texts: &Texts<'_>,
    output: &mut Output<'_, W, E>,
) -> Result<()> {
    let alloc = output.alloc;
    let rule = rule_of(one.agreement.description());
    let finding = Finding {
        pointer: String::from_str(alloc, one.pointer.as_str())?,
        cause: Cause::Rule(&rule, Some(found_text(one, alloc)?)),
        severity: Severity::warning_if(!binds(rule.level)),
    };
    texts.report(one.document, finding, output)
}

/// A report of one finding on a document.
fn report_of<'a>(
    finding: Finding<'a>,
    document: &Document,
    walk: &Walk,
    alloc: Global,
) -> std::result::Result<Report<'a>, AllocError> {
    let mut found = Vec::new(alloc);
    found.push(finding)?;
    let text = Some(Vec::from_slice(alloc, document.bytes.as_slice())?);
    let claims = claims_of(document.digest.as_str(), walk, alloc)?;
    Report::of_file(found, &text, claims, alloc)
}

fn path_of(document: &Document, alloc: Global) -> Result<String> {
    let digest = Digest::from_str(alloc, document.digest.as_str())?;
    Ok(blob_path(alloc, &digest)?)
}

/// By which descriptors the content of a digest was reached first.
pub fn claims_of(
    digest: &str,
    walk: &Walk,
    alloc: Global,
) -> std::result::Result<Claims, AllocError> {
    let mut place: usize = 0;
    for claim in &walk.claims {
        if claim.digest.as_ref() == digest {
            return Claims::of(walk, place, alloc);
        }
        place = place.saturating_add(1);
    }
    Ok(Claims::none(alloc))
}

/// An agreement as a rule: it has a name, a level and a section, and is shown as rules are.
pub fn rule_of(description: Description) -> Rule<'static> {
    Rule {
        name: description.name,
        level: description.level,
        section: description.section,
        wanted: description.wanted,
        platforms: Platforms::Every,
        place: &[],
        test: Test::NotEmpty,
    }
}

/// What was found, and what another document lets expect there.
fn found_text(one: &Broken<'_>, alloc: Global) -> std::result::Result<String, AllocError> {
    let pointer = one.pointer.as_str();
    let found = shown_text(&one.found, pointer, alloc)?;
    let expected = shown_text(&one.expected, pointer, alloc)?;
    format!(in alloc; "{found}, not {expected}")
}

/// A number, or a value as it is shown at a pointer.
fn shown_text(
    shown: &Shown<'_>,
    pointer: &str,
    alloc: Global,
) -> std::result::Result<String, AllocError> {
    let value = match shown {
        Shown::Count(count) => return count.to_string(alloc),
        Shown::Text(text) => Value::String(String::from_str(alloc, text)?),
        Shown::Texts(texts) => Value::Array((*texts).clone()?),
    };
    let shown = if is_media_type(pointer) {
        let mut members = Map::new(alloc);
        drop(members.insert(String::from_str(alloc, "mediaType")?, value)?);
        shown_at(&Value::Object(members), "/mediaType", alloc)?
    } else {
        shown_at(&value, "", alloc)?
    };
    match shown {
        Some(text) => Ok(text),
        None => Ok(String::new(alloc)),
    }
}

/// Whether a media type stands at a pointer, which is shown whole.
fn is_media_type(pointer: &str) -> bool {
    pointer.ends_with("/mediaType") || pointer.ends_with("/artifactType")
}

/// Whether none of these counts.
pub fn none_counts(broken: &Vec<Broken<'_>>, asked: &Check<'_>) -> bool
    ensures { IsTrue result ↔ All (λ b. images.counts asked.now b.agreement ≡ false) broken.now.items }
{
    broken.iter().all(|one| !counts(one.agreement, asked))
}

/// Whether an agreement counts: it is asked by its name, and it binds, or warnings count.
fn counts(agreement: Agreement, asked: &Check<'_>) -> bool
    ensures { result ≡ images.counts asked.now agreement }
{
    let description = agreement.description();
    asked.asks(description.name) && (asked.strict || binds(description.level))
}

/// Whether a document that breaks what is asked so strongly is wrong, and not just worth a warning.
fn binds(level: Level) -> bool
    ensures { result ≡ does_bind (level_of level) }
{
    match level {
        Level::Must | Level::Stated => true,
        Level::Should | Level::Host => false,
    }
}
