//! The reading and writing calls that image documents have of their own.

use oci_doc_run::Kind;
use oci_json::write_text;
use oci_spec::image::{ArtifactManifest, ImageConfiguration, ImageIndex, ImageManifest, OciLayout};
use oci_spec::{OciSpecError, Result};
use oci_test_support::{Harness, Input, Manner, Output, Sample};
use std::alloc::Global;
use std::fmt::Display;
use std::io::Write;

/// A call that writes a document which was read from a stream.
enum Call {
    Text,
    Writer,
    PrettyText,
    PrettyWriter,
    Display,
}

/// The calls, and whether each writes the pretty text. The last one is of those documents alone that display it.
static CALLS: [(Call, &str, bool); 5] = [
    (Call::Text, "from_reader, to_string", false),
    (Call::Writer, "to_writer", false),
    (Call::PrettyText, "to_string_pretty", true),
    (Call::PrettyWriter, "to_writer_pretty", true),
    (Call::Display, "Display", true),
];

/// Whether documents of a kind have this call.
fn has_call(kind: Kind, call: &Call) -> bool {
    match kind {
        Kind::Manifest | Kind::Index | Kind::Config => true,
        Kind::Artifact | Kind::Layout => !matches!(call, Call::Display),
        _ => false,
    }
}

/// Writes a text that was answered.
fn keep(answer: Result<String>, output: &mut Output) -> Result<()> {
    write_text(answer?.as_bytes(), output)?;
    Ok(())
}

/// Writes what a document displays; memory that was refused is a formatting error.
fn display<T: Display>(document: &T, output: &mut Output) -> Result<()> {
    match write!(output, "{document}") {
        Ok(()) => Ok(()),
        Err(_) => Err(OciSpecError::Memory),
    }
}

/// Reads a document and writes it by a call.
macro_rules! written {
    ($document:ident: $record:ident, $alloc:expr, $call:expr, $input:expr, $output:expr, $display:expr) => {{
        let $document = $record::from_reader($alloc, $input)?;
        match $call {
            Call::Text => keep($document.to_string($alloc), $output),
            Call::Writer => $document.to_writer($alloc, $output),
            Call::PrettyText => keep($document.to_string_pretty($alloc), $output),
            Call::PrettyWriter => $document.to_writer_pretty($alloc, $output),
            Call::Display => $display,
        }
    }};
}

fn manifest(alloc: Global, call: &Call, input: Input<'_>, output: &mut Output) -> Result<()> {
    written!(it: ImageManifest, alloc, call, input, output, display(&it, output))
}

fn index(alloc: Global, call: &Call, input: Input<'_>, output: &mut Output) -> Result<()> {
    written!(it: ImageIndex, alloc, call, input, output, display(&it, output))
}

fn configuration(alloc: Global, call: &Call, input: Input<'_>, output: &mut Output) -> Result<()> {
    written!(it: ImageConfiguration, alloc, call, input, output, display(&it, output))
}

fn artifact(alloc: Global, call: &Call, input: Input<'_>, output: &mut Output) -> Result<()> {
    written!(it: ArtifactManifest, alloc, call, input, output, Ok(()))
}

fn layout(alloc: Global, call: &Call, input: Input<'_>, output: &mut Output) -> Result<()> {
    written!(it: OciLayout, alloc, call, input, output, Ok(()))
}

fn of_kind(
    alloc: Global,
    kind: Kind,
    call: &Call,
    input: Input<'_>,
    output: &mut Output,
) -> Result<()> {
    match kind {
        Kind::Manifest => manifest(alloc, call, input, output),
        Kind::Index => index(alloc, call, input, output),
        Kind::Config => configuration(alloc, call, input, output),
        Kind::Artifact => artifact(alloc, call, input, output),
        Kind::Layout => layout(alloc, call, input, output),
        _ => Ok(()),
    }
}

/// All such calls on one document, if it has any.
pub fn all(harness: &mut Harness<'_>, kind: Kind, sample: &Sample<'_>) {
    for (call, name, is_pretty) in &CALLS {
        if has_call(kind, call) {
            harness.output.begin(Manner::AMPLE);
            let input = Input::new(sample.text.as_bytes(), Manner::AMPLE);
            let answer = of_kind(harness.rt.alloc(), kind, call, input, &mut harness.output);
            harness.wrote(name, answer, sample.compact, *is_pretty);
        }
    }
    if has_call(kind, &Call::Text) {
        harness.end(sample.kind, "calls of its own");
    }
}
