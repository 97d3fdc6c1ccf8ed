//! Documents with a list of 100,000 items, and with a text of more than 64 KiB, by every way of reading and of writing. Their texts are
//! canonical, so each way gives them back; indented texts are compared with what the JSON library prints of the value.

use crate::checks::{check, repeated};
use oci_base::Result;
use oci_image::ImageConfiguration;
use oci_json::{from_reader, from_slice, normalize, to_string, to_string_pretty};
use oci_schema::{is_valid, violations};
use oci_schemas::OciRecords;
use oci_schemas::image::image_configuration;
use oci_test_support::{Harness, HarnessOutOfMemory, Input, Manner};
use serde_json::Value;
use std::alloc::{AllocError, Global};

/// A configuration with so many layers before a last one.
fn with_layers(alloc: Global, count: usize, last: &str) -> std::result::Result<String, AllocError> {
    let front = "{\"architecture\":\"arm\",\"os\":\"linux\",\"rootfs\":{\"diff_ids\":[";
    let mut text = repeated(alloc, front, "\"d\",", count, last)?;
    text.push_str("],\"type\":\"layers\"}}")?;
    Ok(text)
}

/// A configuration with an author of so many letters.
fn with_author(alloc: Global, count: usize) -> std::result::Result<String, AllocError> {
    let front = "{\"architecture\":\"arm\",\"author\":\"";
    let end = "\",\"os\":\"linux\",\"rootfs\":{\"diff_ids\":[],\"type\":\"layers\"}}";
    repeated(alloc, front, "a", count, end)
}

fn indented(alloc: Global, text: &str) -> Result<String> {
    Ok(Value::from_str(alloc, text)?.to_string_pretty(alloc)?)
}

/// Read of bytes, and written compact.
fn compact_of(alloc: Global, text: &str) -> Result<String> {
    let document: ImageConfiguration = from_slice(alloc, text.as_bytes())?;
    to_string(&document, alloc)
}

/// Read of a reader, and written indented.
fn pretty_of(alloc: Global, text: &str) -> Result<String> {
    let input = Input::new(text.as_bytes(), Manner::AMPLE);
    let document: ImageConfiguration = from_reader(alloc, input)?;
    to_string_pretty(&document, alloc)
}

fn displayed(alloc: Global, text: &str) -> Result<String> {
    let document: ImageConfiguration = from_slice(alloc, text.as_bytes())?;
    Ok(format!(in alloc; "{document}")?)
}

/// Counts an engine that wrote this to the harness's output.
fn check_written(harness: &mut Harness<'_>, engine: &str, done: Result<()>, expected: &str) {
    let kept = done.is_ok() && harness.output.is_done(expected.as_bytes());
    harness.count(engine, expected.len(), kept);
    harness.output.begin(Manner::AMPLE);
}

/// From a reader to a writer: by the record; and by its schema, with no document between.
fn streamed(harness: &mut Harness<'_>, text: &str, pretty: &str) {
    let (alloc, schema) = (harness.rt.alloc(), image_configuration());
    harness.output.begin(Manner::AMPLE);
    let output = &mut harness.output;
    let input = Input::new(text.as_bytes(), Manner::AMPLE);
    let done = normalize::<ImageConfiguration, _, _>(alloc, input, output);
    check_written(harness, "normalize", done, text);
    let output = &mut harness.output;
    let input = Input::new(text.as_bytes(), Manner::AMPLE);
    let done = oci_schema::bytes::normalize(&OciRecords, schema, alloc, input, output);
    check_written(harness, "normalize by schema", done, text);
    let output = &mut harness.output;
    let input = Input::new(text.as_bytes(), Manner::AMPLE);
    let done = oci_schema::bytes::normalize_pretty(&OciRecords, schema, alloc, input, output);
    check_written(harness, "normalize_pretty by schema", done, pretty);
}

/// Whether the text is valid, and where its violations are.
fn violated(alloc: Global, text: &str) -> Result<String> {
    let value = Value::from_str(alloc, text)?;
    let valid = is_valid(&OciRecords, image_configuration(), &value);
    let found = violations(&OciRecords, image_configuration(), &value, alloc)?;
    let mut line = format!(in alloc; "{valid}")?;
    for violation in &found {
        line.push(' ')?;
        line.push_str(violation.pointer.as_str())?;
    }
    Ok(line)
}

/// All ways.
fn check_ways(harness: &mut Harness<'_>, text: &str, pretty: &str) {
    let alloc = harness.rt.alloc();
    check(harness, "compact", compact_of(alloc, text), Ok(text));
    check(harness, "pretty", pretty_of(alloc, text), Ok(pretty));
    check(harness, "displayed", displayed(alloc, text), Ok(pretty));
    streamed(harness, text, pretty);
    check(harness, "violations", violated(alloc, text), Ok("true"));
}

fn check_text(harness: &mut Harness<'_>, text: &str) {
    match indented(harness.rt.alloc(), text) {
        Ok(pretty) => check_ways(harness, text, pretty.as_str()),
        Err(_) => harness.count("a value", text.len(), false),
    }
}

pub fn all(harness: &mut Harness<'_>) -> std::result::Result<(), HarnessOutOfMemory> {
    let alloc = harness.rt.alloc();
    let text = with_layers(alloc, 99_999, "\"d\"")?;
    check_text(harness, text.as_str());
    let text = with_author(alloc, 70_000)?;
    check_text(harness, text.as_str());
    // the last of many items is no string
    let text = with_layers(alloc, 99_999, "5")?;
    let found = violated(alloc, text.as_str());
    check(
        harness,
        "violations",
        found,
        Ok("false /rootfs/diff_ids/99999"),
    );
    harness.end("long documents", "calls");
    Ok(())
}
