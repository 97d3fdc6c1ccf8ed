//! The program `oci_test_select`: golden tests of which manifest of an image index runs on a platform. It reads `choices.rows`, and prints
//! how many rows it has, and each whose result is another.
#![tactic(auto)]

use anyhow::{Context, Result};
use oci_descriptor::{Descriptor, Platform};
use oci_image::ImageIndex;
use oci_select::{chosen, platform_of_text};
use oci_text::{Digest, MediaType};
use std::alloc::Global;
use std::fs;
use std::process::ExitCode;

/// A digest as the image specification has one.
const DIGEST: &str = "sha256:e692418e4cbaf90ca69d05a66403747baa33ee08806650b51fab815ad7fc331f";

/// A row, `WANTED | PLATFORM .. | CHOSEN`; a manifest without a platform is `-`.
#[derive(Clone, Copy)]
struct Row<'a> {
    wanted: &'a str,
    platforms: &'a str,
    chosen: &'a str,
}

impl<'a> Row<'a> {
    fn of(line: &'a str) -> Option<Row<'a>> {
        let (wanted, rest) = line.split_once(" | ")?;
        let (platforms, chosen) = rest.split_once(" | ")?;
        Some(Row {
            wanted,
            platforms,
            chosen,
        })
    }
}

fn platform(alloc: Global, text: &str) -> Result<Platform> {
    Ok(platform_of_text(alloc, text)?.context("no platform")?)
}

fn manifest(alloc: Global, text: &str) -> Result<Descriptor> {
    let digest = Digest::from_str(alloc, DIGEST)?;
    let mut manifest = Descriptor::new(MediaType::ImageManifest, 0, digest);
    if text != "-" {
        let platform = platform(alloc, text)?;
        manifest.set_platform(Some(platform));
    }
    Ok(manifest)
}

fn index(alloc: Global, platforms: &str) -> Result<ImageIndex> {
    let mut manifests = Vec::new(alloc);
    for text in platforms.split(' ') {
        manifests.push(manifest(alloc, text)?)?;
    }
    let mut index = ImageIndex::try_default(alloc)?;
    index.set_manifests(manifests);
    Ok(index)
}

/// The place of the manifest that is chosen, as a row has it.
fn found(alloc: Global, row: &Row<'_>) -> Result<String> {
    let wanted = platform(alloc, row.wanted)?;
    let index = index(alloc, row.platforms)?;
    match chosen(alloc, &index, &wanted)? {
        Some(place) => Ok(format!(in alloc; "{place}")?),
        None => Ok(String::from_str(alloc, "none")?),
    }
}

/// Prints a row whose result is another.
fn check(rt: &HostRuntime, line: &str) -> Result<()> {
    let row = Row::of(line).context("a row")?;
    let found = found(rt.alloc(), &row)?;
    if found.as_str() != row.chosen {
        println!(rt; "{line}: found {found}")?;
    }
    Ok(())
}

fn run(rt: &HostRuntime) -> Result<()> {
    let rows = fs::read_to_string(rt, "choices.rows").context("choices.rows")?;
    let mut count = 0u64;
    for line in rows.as_str().trim().split('\n') {
        if !line.starts_with('#') {
            check(rt, line)?;
            count = count.saturating_add(1);
        }
    }
    println!(rt; "choices: {count} rows")?;
    Ok(())
}

fn main(rt: HostRuntime) -> ExitCode {
    match run(&rt) {
        Ok(()) => ExitCode::SUCCESS,
        Err(error) => {
            let _ = eprintln!(&rt; "{error:#}");
            ExitCode::FAILURE
        }
    }
}
