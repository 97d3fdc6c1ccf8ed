//! What breaks rules in the documents of standard input.
use crate::rules::books::{broken_of, platform_of};
use anyhow::{Context, Result};
use serde_json::Value;
use std::io::Read;

/// Reads `KIND PLATFORM DOCUMENT` from each line of standard input, and writes a line for each part that breaks a rule,
/// `POINTER: RULE (LEVEL, SECTION): WANTED`, and an empty line behind each document.
pub fn list(rt: &HostRuntime) -> Result<()> {
    let mut text = String::new(rt.alloc());
    rt.stdin().read_to_string(&mut text)?;
    for line in text.as_str().lines() {
        let (kind, rest) = line.split_once(' ').context("a line has no kind")?;
        let (platform, document) = rest.split_once(' ').context("a line has no platform")?;
        match Value::from_str(rt.alloc(), document) {
            Ok(value) => list_of(rt, kind, platform, &value)?,
            Err(_) => println!(rt; ": json (must, -)")?,
        }
        println!(rt; "")?;
    }
    Ok(())
}

fn list_of(rt: &HostRuntime, kind: &str, platform: &str, value: &Value) -> Result<()> {
    for it in &broken_of(kind, platform_of(platform, value)?, value, rt.alloc())? {
        println!(rt; "{it}")?;
    }
    Ok(())
}
