//! The rows of a policy.
use crate::rules::rows::{compare, count_rows, line_of, parts, read};
use anyhow::{Context, Result, bail};
use oci_policies::{Bump, Policy};
use oci_rules::{RuntimePlatform, broken};
use serde_json::Value;
use std::alloc::Global;
use std::fs;
use std::rt::Files;

/// Checks the rows of a policy over its file, and prints each that differs, and how many there are.
pub fn check_policy<R: Files + Print + AllocGlobal>(rt: &R, name: &str) -> Result<()> {
    let path = format!(in rt.alloc(); "rules/{name}.toml")?;
    let text = fs::read_to_string(rt, path.as_str())?;
    let arena = Bump::new(rt.alloc());
    match Policy::from_toml(text.as_str(), &arena, rt.alloc()) {
        Ok(policy) => check_rows(rt, name, &policy),
        Err(error) => bail!("{name}: {error}"),
    }
}

fn check_rows<R: Files + Print + AllocGlobal>(rt: &R, name: &str, policy: &Policy) -> Result<()> {
    let rows = read(rt, name)?;
    let mut count = 0u64;
    for row in rows.as_str().trim().split("\n\n") {
        if !row.starts_with('#') {
            check_row(rt, name, policy, row)?;
            count = count.saturating_add(1);
        }
    }
    count_rows(rt, name, count)
}

fn check_row<R: Print + AllocGlobal>(rt: &R, name: &str, policy: &Policy, row: &str) -> Result<()> {
    let (_, document, expected) = parts(row)?;
    let found = listed(policy, document, rt.alloc())?;
    compare(rt, name, row, found.as_str(), expected)
}

/// What breaks the policy in the text of a document.
fn listed(policy: &Policy, document: &str, alloc: Global) -> Result<String> {
    let value = Value::from_str(alloc, document)?;
    let found = broken(policy.rules(), RuntimePlatform::Linux, &value, alloc)?;
    line_of(&found, alloc)
}

/// Checks a row of a text that is no policy: what is said of it, and the text.
pub fn check_refused<R: Print + AllocGlobal>(rt: &R, row: &str) -> Result<()> {
    let (expected, text) = row.split_once('\n').context("a row has one line")?;
    let found = said(text, rt.alloc())?;
    compare(rt, "refused", row, found.as_str(), expected)
}

/// What is said of a text that is no policy.
fn said(text: &str, alloc: Global) -> Result<String> {
    let arena = Bump::new(alloc);
    match Policy::from_toml(text, &arena, alloc) {
        Ok(_) => Ok(String::from_str(alloc, "a policy")?),
        Err(error) => Ok(format!(in alloc; "{error}")?),
    }
}
