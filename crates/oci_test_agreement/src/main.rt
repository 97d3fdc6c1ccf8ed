//! The program `oci_test_agreement`: golden tests of what the documents of an image agree on, and the descriptors of one content. It prints
//! the name, level, section and words of each agreement, how many rows `agreement.rows` and `descriptors.rows` have, and each whose result
//! is another.
#![tactic(auto)]

use anyhow::{Context, Result};
use oci_agreement::descriptors::{Conflict, DescriptorAgreement, Mention, conflicting};
use oci_agreement::{AGREEMENTS, Broken, Description, Document, Image, Shown, broken_agreements};
use oci_rules::Level;
use serde_json::Value;
use std::alloc::Global;
use std::fs;
use std::process::ExitCode;

/// A row, line by line.
#[derive(Clone, Copy)]
struct Row<'a> {
    descriptor: Option<&'a str>,
    manifest: &'a str,
    config: Option<&'a str>,
}

impl<'a> Row<'a> {
    fn of(text: &'a str) -> Row<'a> {
        let mut row = Row {
            descriptor: None,
            manifest: "",
            config: None,
        };
        for line in text.split('\n') {
            match line.split_once(' ') {
                Some(("d", descriptor)) => row.descriptor = Some(descriptor),
                Some(("m", manifest)) => row.manifest = manifest,
                Some(("c", config)) => row.config = Some(config),
                _ => {}
            }
        }
        row
    }
}

fn level(level: Level) -> &'static str {
    match level {
        Level::Must => "must",
        Level::Stated => "stated",
        Level::Should => "should",
        Level::Host => "host",
    }
}

fn describe(rt: &HostRuntime, told: Description) -> Result<()> {
    let name = told.name;
    let level = level(told.level);
    let section = told.section;
    let wanted = told.wanted;
    println!(rt; "{name} | {level} | {section} | {wanted}")?;
    Ok(())
}

fn describe_all(rt: &HostRuntime) -> Result<()> {
    for agreement in &AGREEMENTS {
        describe(rt, agreement.description())?;
    }
    describe(rt, DescriptorAgreement::Sizes.description())?;
    describe(rt, DescriptorAgreement::Types.description())
}

/// What was expected or found, on one line.
fn shown(alloc: Global, shown: &Shown<'_>) -> Result<String> {
    match shown {
        Shown::Count(count) => Ok(format!(in alloc; "{count}")?),
        Shown::Text(text) => Ok(String::from_str(alloc, text)?),
        Shown::Texts(items) => texts(alloc, items),
    }
}

/// The strings of an array, with commas between them.
fn texts(alloc: Global, items: &Vec<Value>) -> Result<String> {
    let mut line = String::new(alloc);
    for item in items {
        line.push_str(item.as_str().unwrap_or("?"))?;
        line.push_str(",")?;
    }
    Ok(line)
}

/// Adds the line that is expected of a broken agreement.
fn add_line(alloc: Global, lines: &mut String, broken: &Broken<'_>) -> Result<()> {
    let name = broken.agreement.description().name;
    let document = match broken.document {
        Document::Manifest => "manifest",
        Document::Configuration => "configuration",
    };
    let pointer = broken.pointer.as_str();
    let expected = shown(alloc, &broken.expected)?;
    let found = shown(alloc, &broken.found)?;
    let line = format!(in alloc; "\n= {name} {document} {pointer} {expected} {found}")?;
    lines.push_str(line.as_str())?;
    Ok(())
}

/// The lines that are expected of a row.
fn found(alloc: Global, image: &Image<'_>) -> Result<String> {
    let mut lines = String::new(alloc);
    for broken in &broken_agreements(image, alloc)? {
        add_line(alloc, &mut lines, broken)?;
    }
    Ok(lines)
}

fn read(alloc: Global, text: &str) -> Result<Value> {
    Ok(Value::from_slice(alloc, text.as_bytes()).context("JSON")?)
}

fn read_some(alloc: Global, text: Option<&str>) -> Result<Option<Value>> {
    match text {
        Some(text) => Ok(Some(read(alloc, text)?)),
        None => Ok(None),
    }
}

/// The same, from the lines of a row.
fn found_of(alloc: Global, row: &Row<'_>) -> Result<String> {
    let descriptor = read_some(alloc, row.descriptor)?;
    let manifest = read(alloc, row.manifest)?;
    let config = read_some(alloc, row.config)?;
    let descriptor = descriptor.as_ref();
    let config = config.as_ref();
    let image = Image {
        descriptor,
        manifest: &manifest,
        config,
    };
    found(alloc, &image)
}

/// What a row expects: its lines that begin with `=`, each behind a newline.
fn expected(alloc: Global, text: &str) -> Result<String> {
    let mut lines = String::new(alloc);
    for line in text.split('\n') {
        if line.starts_with('=') {
            lines.push_str("\n")?;
            lines.push_str(line)?;
        }
    }
    Ok(lines)
}

/// Adds the lines that are expected of descriptors which do not agree.
fn add_conflicts(
    alloc: Global,
    lines: &mut String,
    agreement: DescriptorAgreement,
    mentions: &[Mention<'_>],
) -> Result<()> {
    let name = agreement.description().name;
    for conflict in &conflicting(agreement, mentions, alloc)? {
        let Conflict { place, first } = *conflict;
        let size = first.size;
        let media_type = first.media_type;
        let line = format!(in alloc; "\n= {name} {place} {size} {media_type}")?;
        lines.push_str(line.as_str())?;
    }
    Ok(())
}

/// The lines that are expected of a row of descriptors.
fn found_of_descriptors(alloc: Global, text: &str) -> Result<String> {
    let value = read(alloc, first_line(text))?;
    let mut mentions = Vec::new(alloc);
    if let Some(descriptors) = value.as_array() {
        for descriptor in descriptors {
            if let Some(mention) = Mention::of(descriptor) {
                mentions.push(mention)?;
            }
        }
    }
    let mut lines = String::new(alloc);
    let mentions = mentions.as_slice();
    add_conflicts(alloc, &mut lines, DescriptorAgreement::Sizes, mentions)?;
    add_conflicts(alloc, &mut lines, DescriptorAgreement::Types, mentions)?;
    Ok(lines)
}

fn first_line(text: &str) -> &str {
    match text.split_once('\n') {
        Some((line, _)) => line,
        None => text,
    }
}

/// Prints a row whose result is another.
fn compare(rt: &HostRuntime, text: &str, found: &str) -> Result<()> {
    let expected = expected(rt.alloc(), text)?;
    if found != expected.as_str() {
        println!(rt; "of {text}\nfound {found}")?;
    }
    Ok(())
}

/// Checks all rows of images, and prints how many there are.
fn check_images(rt: &HostRuntime, rows: &str) -> Result<()> {
    let mut count = 0u64;
    for text in rows.trim().split("\n\n") {
        if !text.starts_with('#') {
            let found = found_of(rt.alloc(), &Row::of(text))?;
            compare(rt, text, found.as_str())?;
            count = count.saturating_add(1);
        }
    }
    println!(rt; "agreement: {count} rows")?;
    Ok(())
}

/// The same of descriptors.
fn check_descriptors(rt: &HostRuntime, rows: &str) -> Result<()> {
    let mut count = 0u64;
    for text in rows.trim().split("\n\n") {
        if !text.starts_with('#') {
            let found = found_of_descriptors(rt.alloc(), text)?;
            compare(rt, text, found.as_str())?;
            count = count.saturating_add(1);
        }
    }
    println!(rt; "descriptors: {count} rows")?;
    Ok(())
}

fn run(rt: &HostRuntime) -> Result<()> {
    describe_all(rt)?;
    let images = fs::read_to_string(rt, "agreement.rows").context("agreement.rows")?;
    check_images(rt, images.as_str())?;
    let descriptors = fs::read_to_string(rt, "descriptors.rows").context("descriptors.rows")?;
    check_descriptors(rt, descriptors.as_str())
}

fn main(rt: HostRuntime) -> ExitCode {
    match run(&rt) {
        Ok(()) => ExitCode::SUCCESS,
        Err(error) => {
            let _ = eprintln!(&rt; "{error:#}");
            ExitCode::FAILURE
        }
    }
}
