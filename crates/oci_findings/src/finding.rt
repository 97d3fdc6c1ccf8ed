//! What is wrong with a document, or with a file of an image layout.
ghost use Rattle.std.specs.Prelude.{◌≡◌, ◌++◌, codes, IfOk, OnOk, string_bytes};
ghost use Rattle.oci_findings.specs.Files.{found_words};
ghost use Rattle.oci_findings.specs.Findings.{message_words, missing_words, is_for_member, rule_name, rule_words};
ghost use Rattle.oci_findings.specs.Lines.{is_error};
ghost use Rattle.oci_findings.specs.Wording.{expected_words};
ghost use Rattle.oci_findings.specs.declared.finding.Cause.TheVariants.{Unknown};

use crate::file_fault::FileFault;
use crate::place::Place;
use crate::wording::push_expected;
use oci_rules::{Rule, Test};
use oci_schema::Expected;
use std::alloc::{AllocError, Global};

/// Why a finding was made.
#[derive(Drop)]
pub enum Cause<'a> {
    /// The bytes are not JSON from a place on, and this is what the reader says.
    Json(String, Place),
    /// The kind of the document is not known, or it is of another kind than asked for.
    Kind(String),
    /// The schema expects something else at a place, where this value is, if there is one.
    Schema(Expected, Option<String>),
    /// A rule is broken at a place, where this value is, if there is one.
    Rule(&'a Rule<'a>, Option<String>),
    /// The schema does not list the member; the name that may be meant, if one is near.
    Unknown(Option<&'static str>),
    /// An earlier member of the same object has the same name.
    Repeated,
    /// A file of an image layout is not what refers to it says.
    File(FileFault),
}

/// How much a finding counts.
#[derive(Clone, Copy, Debug, PartialEq, Eq)]
pub enum Severity {
    /// Something is wrong.
    Error,
    /// Something may be meant otherwise.
    Warning,
    /// Something is worth knowing.
    Note,
}

impl Severity {
    /// A warning, or else an error.
    pub fn warning_if(is_warning: bool) -> Severity {
        if is_warning {
            Severity::Warning
        } else {
            Severity::Error
        }
    }

    /// The word for it, which is that of SARIF's levels.
    pub fn word(self) -> &'static str {
        match self {
            Severity::Error => "error",
            Severity::Warning => "warning",
            Severity::Note => "note",
        }
    }
}

/// Something that is wrong with a document or a file of an image layout, a warning, or a note.
#[derive(Drop)]
pub struct Finding<'a> {
    /// Where it is in the document, as a JSON pointer (RFC 6901); empty for the whole of it.
    pub pointer: String,
    /// What it is.
    pub cause: Cause<'a>,
    /// How much it counts.
    pub severity: Severity,
}

impl<'a> Finding<'a> {
    /// Whether something is wrong.
    pub fn is_error(&self) -> bool
        ensures { result ≡ is_error self.now }
    {
        match self.severity {
            Severity::Error => true,
            Severity::Warning | Severity::Note => false,
        }
    }

    /// The name of the rule that is broken: `json`, `kind`, `schema`, `unknown` or `repeated`, that of a rule of a specification or
    /// policy, or a word for what is wrong with a file.
    pub fn rule(&self) -> &'a str
        ensures { result.now ≡ rule_name self.now.cause }
    {
        match &self.cause {
            Cause::Json(_, _) => "json",
            Cause::Kind(_) => "kind",
            Cause::Schema(_, _) => "schema",
            Cause::Rule(rule, _) => rule.name,
            Cause::Unknown(_) => "unknown",
            Cause::Repeated => "repeated",
            Cause::File(fault) => fault.rule(),
        }
    }

    /// What is wrong, in a sentence.
    pub fn message(&self, alloc: Global) -> Result<String, AllocError>
        ensures { IfOk result (λ t. string_bytes t ≡ message_words self.now.cause) }
    {
        match &self.cause {
            Cause::Json(told, _) => joined("not JSON: ", told.as_str(), alloc),
            Cause::Kind(told) => String::from_str(alloc, told.as_str()),
            Cause::Schema(expected, found) => schema_message(expected, found, alloc),
            Cause::Rule(rule, found) => rule_message(rule, found, alloc),
            Cause::Unknown(meant) => unknown_message(*meant, alloc),
            Cause::Repeated => String::from_str(
                alloc,
                "an earlier member has the same name; the last one counts",
            ),
            Cause::File(fault) => fault.message(alloc),
        }
    }
}

/// One text behind another.
pub(crate) fn joined(first: &str, second: &str, alloc: Global) -> Result<String, AllocError>
    ensures { IfOk result (λ t. string_bytes t ≡ first.now ++ second.now) }
{
    let mut text = String::from_str(alloc, first)?;
    text.push_str(second)?;
    Ok(text)
}

/// What is expected, and what was found.
fn schema_message(
    expected: &Expected,
    found: &Option<String>,
    alloc: Global,
) -> Result<String, AllocError>
    ensures { IfOk result (λ t. string_bytes t ≡ expected_words expected.now ++ found_words found.now) }
{
    let mut text = String::new(alloc);
    push_expected(&mut text, expected, alloc)?;
    with_found(text, found)
}

/// What a rule says of what was found: that a member is missing, or what is wanted.
fn rule_message(
    rule: &Rule<'_>,
    found: &Option<String>,
    alloc: Global,
) -> Result<String, AllocError>
    ensures { IfOk result (λ t. string_bytes t ≡ rule_words rule.now.test rule.now.wanted.now found.now) }
{
    if asks_member(&rule.test) {
        missing_message(rule.wanted, alloc)
    } else {
        wanted_message(rule.wanted, found, alloc)
    }
}

/// Whether a test asks for a member, which is missing where it fails.
fn asks_member(test: &Test<'_>) -> bool
    ensures { result ≡ is_for_member test.now }
{
    match test {
        Test::There(_) | Test::Either(_) => true,
        _ => false,
    }
}

/// That a member is missing, and which is wanted.
fn missing_message(wanted: &str, alloc: Global) -> Result<String, AllocError>
    ensures { IfOk result (λ t. string_bytes t ≡ missing_words wanted.now) }
{
    let mut text = joined("member is missing (", wanted, alloc)?;
    text.push_str(")")?;
    Ok(text)
}

/// What is wanted, and what was found.
fn wanted_message(wanted: &str, found: &Option<String>, alloc: Global) -> Result<String, AllocError>
    ensures { IfOk result (λ t. string_bytes t ≡ (codes "expected " ++ wanted.now) ++ found_words found.now) }
{
    let text = joined("expected ", wanted, alloc)?;
    with_found(text, found)
}

/// A text, and behind it what was found.
pub(crate) fn with_found(mut text: String, found: &Option<String>) -> Result<String, AllocError>
    ensures { IfOk result (λ t. string_bytes t ≡ string_bytes text ++ found_words found.now) }
{
    match found {
        Some(found) => {
            push_found(&mut text, found.as_str())?;
            Ok(text)
        }
        None => Ok(text),
    }
}

fn push_found(text: &mut String, found: &str) -> Result<(), AllocError>
    ensures { OnOk result (string_bytes text.new ≡ string_bytes text.old ++ (codes ", found " ++ found.now)) }
{
    text.push_str(", found ")?;
    text.push_str(found)
}

/// That a member is unknown, and which may be meant.
fn unknown_message(meant: Option<&'static str>, alloc: Global) -> Result<String, AllocError>
    ensures { IfOk result (λ t. string_bytes t ≡ message_words (Unknown meant.entry)) }
{
    match meant {
        Some(name) => joined("unknown member; the schema has ", name, alloc),
        None => String::from_str(alloc, "unknown member"),
    }
}
