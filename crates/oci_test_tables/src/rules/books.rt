//! What breaks the rules of a kind of documents.
use anyhow::{Context, Result, bail};
use oci_rule_books::rules_of;
use oci_rules::{Broken, RuntimePlatform, broken, platform_of_document};
use oci_schemas::Kind;
use serde_json::Value;
use std::alloc::Global;

/// What breaks the rules of a kind of documents.
pub fn broken_of(
    kind: &str,
    platform: RuntimePlatform,
    value: &Value,
    alloc: Global,
) -> Result<Vec<Broken<'static>>> {
    let kind = Kind::from_word(kind).context("no kind of documents")?;
    let mut out = Vec::new(alloc);
    for rules in &rules_of(kind, alloc)? {
        for it in broken(rules, platform, value, alloc)? {
            out.push(it)?;
        }
    }
    Ok(out)
}

/// The platform of a word, or for `-` the one that the document's parts say.
pub fn platform_of(word: &str, value: &Value) -> Result<RuntimePlatform> {
    Ok(match word {
        "linux" => RuntimePlatform::Linux,
        "windows" => RuntimePlatform::Windows,
        "solaris" => RuntimePlatform::Solaris,
        "vm" => RuntimePlatform::Vm,
        "zos" => RuntimePlatform::Zos,
        "freebsd" => RuntimePlatform::FreeBsd,
        "-" => platform_of_document(value),
        _ => bail!("no platform"),
    })
}
