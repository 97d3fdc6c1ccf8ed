//! Enums that have other texts too.

use crate::golden::tables::closed::{FromText, made};
use anyhow::Result;
use oci_spec::image::{DigestAlgorithm, MediaType, ToDockerV2S2};
use oci_test_support::rows::{ask, count, read, text_of};
use std::fmt::Display;

/// Compares what each text of the table is read as, and what the value displays.
pub fn texts<T: FromText + Display>(rt: &HostRuntime, table: &str) -> Result<()> {
    let rows = read(rt, table)?;
    let mut compared = 0usize;
    for row in rows.as_str().split('\n') {
        if let Some(text) = text_of(row, "from_text") {
            ask_displayed(rt, table, rows.as_str(), T::read(rt.alloc(), text))?;
            compared = compared.saturating_add(1);
        }
    }
    count(rt, table, "display", compared)?;
    made::<T>(rt, table, "from_text")
}

/// Compares what a value displays, if there is one.
fn ask_displayed<T: FromText + Display>(
    rt: &HostRuntime,
    table: &str,
    rows: &str,
    found: Option<T>,
) -> Result<()> {
    if let Some(x) = found {
        let here = format!(in rt.alloc(); "display {x:?} {x}")?;
        ask(rt, table, rows, here.as_str())?;
    }
    Ok(())
}

/// Compares what Docker calls each media type.
pub fn docker(rt: &HostRuntime) -> Result<()> {
    let rows = read(rt, "MediaType")?;
    let mut compared = 0usize;
    for row in rows.as_str().split('\n') {
        if let Some(text) = text_of(row, "from_text") {
            ask_docker(rt, rows.as_str(), text)?;
            compared = compared.saturating_add(1);
        }
    }
    count(rt, "MediaType", "docker", compared)
}

fn ask_docker(rt: &HostRuntime, rows: &str, text: &str) -> Result<()> {
    let x = MediaType::from_text(rt.alloc(), text)?;
    let here = match x.to_docker_v2s2() {
        Ok(text) => format!(in rt.alloc(); "docker {x:?} {text}")?,
        Err(_) => format!(in rt.alloc(); "docker {x:?} none")?,
    };
    ask(rt, "MediaType", rows, here.as_str())
}

/// Compares the length of each algorithm's digests.
pub fn lengths(rt: &HostRuntime) -> Result<()> {
    let rows = read(rt, "DigestAlgorithm")?;
    let mut compared = 0usize;
    for row in rows.as_str().split('\n') {
        if let Some(text) = text_of(row, "from_text") {
            ask_length(rt, rows.as_str(), text)?;
            compared = compared.saturating_add(1);
        }
    }
    count(rt, "DigestAlgorithm", "hexlen", compared)
}

fn ask_length(rt: &HostRuntime, rows: &str, text: &str) -> Result<()> {
    let x = DigestAlgorithm::from_text(rt.alloc(), text)?;
    let length = x.digest_hexlen().unwrap_or(0);
    let here = format!(in rt.alloc(); "hexlen {x:?} {length}")?;
    ask(rt, "DigestAlgorithm", rows, here.as_str())
}
