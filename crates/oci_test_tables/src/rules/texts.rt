//! The rows of texts: which texts are of a grammar, and which are not.
use crate::rules::rows::{compare, count_rows};
use anyhow::{Context, Result};
use oci_grammars::Grammar;
use serde_json::Value;
use std::alloc::Global;
use std::fs;
use std::rt::Files;

static GRAMMARS: [(&str, Grammar); 42] = [
    ("AbsolutePath", Grammar::AbsolutePath),
    ("AscendingCpuList", Grammar::AscendingCpuList),
    ("Base64", Grammar::Base64),
    ("CapabilityName", Grammar::CapabilityName),
    ("CgroupFile", Grammar::CgroupFile),
    ("CpuList", Grammar::CpuList),
    ("DateTime", Grammar::DateTime),
    ("DecimalNumber", Grammar::DecimalNumber),
    ("DeviceAccess", Grammar::DeviceAccess),
    ("Digest", Grammar::Digest),
    ("Domain", Grammar::Domain),
    ("EnvironmentEntry", Grammar::EnvironmentEntry),
    ("ExposedPorts", Grammar::ExposedPorts),
    ("FullReference", Grammar::FullReference),
    ("Guid", Grammar::Guid),
    ("HttpUri", Grammar::HttpUri),
    ("InterfaceName", Grammar::InterfaceName),
    ("LocalDirectory", Grammar::LocalDirectory),
    ("MediaType", Grammar::MediaType),
    ("NoNul", Grammar::NoNul),
    ("NoParent", Grammar::NoParent),
    ("OneDirectory", Grammar::OneDirectory),
    ("OneLine", Grammar::OneLine),
    ("PageSize", Grammar::PageSize),
    ("Port", Grammar::Port),
    ("PortableEntry", Grammar::PortableEntry),
    ("RefName", Grammar::RefName),
    ("RefNameCharacters", Grammar::RefNameCharacters),
    ("Reference", Grammar::Reference),
    ("Repository", Grammar::Repository),
    ("ReverseDomain", Grammar::ReverseDomain),
    ("RootfsPath", Grammar::RootfsPath),
    ("ScaledNumber", Grammar::ScaledNumber),
    ("SelinuxLabel", Grammar::SelinuxLabel),
    ("SemVer", Grammar::SemVer),
    ("Signal", Grammar::Signal),
    ("SpdxExpression", Grammar::SpdxExpression),
    ("Tag", Grammar::Tag),
    ("Uri", Grammar::Uri),
    ("User", Grammar::User),
    ("VolumeGuidPath", Grammar::VolumeGuidPath),
    ("WindowsPath", Grammar::WindowsPath),
];

fn grammar_of(word: &str) -> Option<Grammar> {
    for (name, grammar) in &GRAMMARS {
        if *name == word {
            return Some(*grammar);
        }
    }
    None
}

/// Checks the rows of texts, and prints each that differs, and how many there are.
pub fn texts<R: Files + Print + AllocGlobal>(rt: &R) -> Result<()> {
    let text = fs::read_to_string(rt, "rules/texts.rows")?;
    let mut count = 0u64;
    for row in text.as_str().lines() {
        if !row.is_empty() && !row.starts_with('#') {
            check_row(rt, row)?;
            count = count.saturating_add(1);
        }
    }
    count_rows(rt, "texts", count)
}

fn check_row<R: Print + AllocGlobal>(rt: &R, row: &str) -> Result<()> {
    let (word, verdict, text) = cells(row).context("a row has three cells")?;
    let found = verdict_of(word, text, rt.alloc())?;
    compare(rt, "texts", row, found, verdict)
}

fn cells(row: &str) -> Option<(&str, &str, &str)> {
    let (word, rest) = row.split_once('\t')?;
    let (verdict, rest) = rest.split_once('\t')?;
    let (text, _) = rest.split_once('\t')?;
    Some((word, verdict, text))
}

/// Whether a text, as JSON, is of a grammar.
fn verdict_of(word: &str, text: &str, alloc: Global) -> Result<&'static str> {
    let grammar = grammar_of(word).context("no grammar")?;
    let value = Value::from_str(alloc, text)?;
    let text = value.as_str().context("no text")?;
    Ok(if grammar.accepts(text) { "yes" } else { "no" })
}
