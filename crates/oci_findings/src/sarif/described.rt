//! What is said of rules that were broken, each once, beside the findings.
use crate::finding::{Cause, Finding, Severity};
use oci_rules::{Level, Rule};
use std::alloc::{AllocError, Global};

/// A rule that a finding says is broken.
#[derive(Drop)]
pub struct Described {
    /// Its name.
    pub name: String,
    /// What it asks, in a sentence.
    pub asks: String,
    /// The same, and where it is asked.
    pub help: String,
    /// How much its findings count where nothing else is said.
    pub severity: Severity,
    /// How strongly it is asked, and the section that asks it, if it is a rule of a specification or policy.
    pub requirement: Option<Requirement>,
}

/// How strongly a rule is asked, and by which section.
#[derive(Drop)]
pub struct Requirement {
    /// The word of its level.
    pub level: &'static str,
    /// The section.
    pub section: String,
}

/// The rule of a finding. Fails if out of memory.
pub fn describe(finding: &Finding<'_>, alloc: Global) -> Result<Described, AllocError> {
    match &finding.cause {
        Cause::Rule(rule, _) => of_rule(rule, alloc),
        _ => of_others(finding.rule(), alloc),
    }
}

fn of_rule(rule: &Rule<'_>, alloc: Global) -> Result<Described, AllocError> {
    let (wanted, section, level) = (rule.wanted, rule.section, rule.level.word());
    Ok(Described {
        name: String::from_str(alloc, rule.name)?,
        asks: format!(in alloc; "Expected: {wanted}.")?,
        help: format!(in alloc; "Expected: {wanted}. Asked by {section} ({level}).")?,
        severity: severity_of(rule.level),
        requirement: Some(Requirement {
            level: rule.level.word(),
            section: String::from_str(alloc, rule.section)?,
        }),
    })
}

fn of_others(name: &str, alloc: Global) -> Result<Described, AllocError> {
    let (asks, severity) = asked_by(name);
    Ok(Described {
        name: String::from_str(alloc, name)?,
        asks: String::from_str(alloc, asks)?,
        help: String::from_str(alloc, asks)?,
        severity,
        requirement: None,
    })
}

/// How much what breaks a rule of a level counts.
fn severity_of(level: Level) -> Severity {
    match level {
        Level::Must | Level::Stated => Severity::Error,
        Level::Should | Level::Host => Severity::Warning,
    }
}

/// What a rule asks that is neither of a specification nor of a policy, by its name.
fn asked_by(name: &str) -> (&'static str, Severity) {
    match name {
        "json" => ("The file is a JSON text (RFC 8259).", Severity::Error),
        "kind" => ("The document is of a kind that is known.", Severity::Error),
        "schema" => (
            "The document is what the schema of its kind allows.",
            Severity::Error,
        ),
        "unknown" => (
            "The schema lists all members of the document.",
            Severity::Warning,
        ),
        "repeated" => (
            "No two members of an object have the same name (RFC 8259, section 4).",
            Severity::Warning,
        ),
        _ => asked_of_file(name),
    }
}

/// The same of what is asked of the files of an image layout.
fn asked_of_file(name: &str) -> (&'static str, Severity) {
    match name {
        "missing" => ("What a descriptor refers to is there.", Severity::Error),
        "unreadable" | "unlisted" => ("Files and folders can be read.", Severity::Error),
        "too-large" => ("A document has 4 MiB at most.", Severity::Error),
        "size" => (
            "A content has the size that its descriptor says.",
            Severity::Error,
        ),
        "digest" => (
            "A content has the digest that its descriptor says.",
            Severity::Error,
        ),
        "unjudged" => ("A digest is by sha256, sha384 or sha512.", Severity::Error),
        "media-type" => (
            "A document is of the media type that its descriptor says.",
            Severity::Error,
        ),
        "ambiguous" => (
            "A document cannot be taken for one of another media type.",
            Severity::Error,
        ),
        "embedded" => (
            "The data of a descriptor is the content that the descriptor says.",
            Severity::Error,
        ),
        "layout-version" => ("The image layout is of version 1.0.0.", Severity::Error),
        "unreferenced" => ("What is there is referred to.", Severity::Note),
        "unread" => (
            "A manifest, a configuration or a subject is of a media type that is known.",
            Severity::Note,
        ),
        _ => ("The file is what refers to it says.", Severity::Error),
    }
}
