//! What is said of layers that do not unpack to what the configuration says.
use crate::disagreements::{Texts, claims_of, rule_of};
use crate::layers::Layer;
use crate::output::Output;
use gzip::GzipError;
use oci_agreement::{Agreement, Description, Document as Place};
use oci_base::{OciSpecError, Result};
use oci_content::Checksum;
use oci_findings::shown::shown_at;
use oci_findings::{Cause, Finding, Report, Severity};
use oci_layers::LayerError;
use oci_layout::blob_path;
use oci_rules::Level;
use oci_schema::place::under_index;
use oci_text::Digest;
use std::alloc::Global;
use std::io::Write;

/// What is asked of the content of a layer in gzip's format.
const LAYER_ARCHIVE: Description = Description {
    name: "layer-archive",
    level: Level::Must,
    section: "image layer.md#gzip-media-types",
    wanted: "a gzip file",
};

/// Writes that the content of a layer is no gzip file. Fails as `Output::add`.
pub fn report_no_gzip<W: Write, E: Write>(
    layer: &Layer<'_>,
    error: &GzipError,
    texts: &Texts<'_>,
    output: &mut Output<'_, W, E>,
) -> Result<()> {
    let alloc = output.alloc;
    let rule = rule_of(LAYER_ARCHIVE);
    let found = format!(in alloc; "{error}")?;
    let mut findings = Vec::new(alloc);
    findings.push(Finding {
        pointer: String::new(alloc),
        cause: Cause::Rule(&rule, Some(found)),
        severity: Severity::Error,
    })?;
    let claims = claims_of(layer.said.digest, texts.walk, alloc)?;
    let report = Report::of_file(findings, &None, claims, alloc)?;
    let path = path_of(layer, alloc)?;
    output.add(path.as_str(), &report)
}

/// Writes that the archive of a layer has another DiffID than the configuration says. Fails as `Output::add`.
pub fn report_other_id<W: Write, E: Write>(
    layer: &Layer<'_>,
    sum: &Checksum,
    texts: &Texts<'_>,
    output: &mut Output<'_, W, E>,
) -> Result<()> {
    let alloc = output.alloc;
    let rule = rule_of(Description {
        wanted: "the digest of the layer at this place, when it is uncompressed",
        ..Agreement::DiffId.description()
    });
    let expected = sum.text(alloc)?;
    let found = match shown_at(layer.id, "", alloc)? {
        Some(found) => found,
        None => String::new(alloc),
    };
    let finding = Finding {
        pointer: under_index(alloc, "/rootfs/diff_ids", layer.place)?,
        cause: Cause::Rule(
            &rule,
            Some(format!(in alloc; "{found}, not \"{expected}\"")?),
        ),
        severity: Severity::Error,
    };
    texts.report(Place::Configuration, finding, output)
}

/// That the content of a layer could not be read once more, or that memory ran out.
pub fn unread(layer: &Layer<'_>, error: LayerError, alloc: Global) -> OciSpecError {
    match error {
        LayerError::Io(why) => match unread_text(layer, &why, alloc) {
            Ok(text) => OciSpecError::Other(text),
            Err(_) => OciSpecError::Memory,
        },
        _ => OciSpecError::Memory,
    }
}

fn unread_text(layer: &Layer<'_>, why: &std::io::Error, alloc: Global) -> Result<String> {
    let path = path_of(layer, alloc)?;
    Ok(format!(in alloc; "{path}: cannot be read: {why}")?)
}

fn path_of(layer: &Layer<'_>, alloc: Global) -> Result<String> {
    let digest = Digest::from_str(alloc, layer.said.digest)?;
    Ok(blob_path(alloc, &digest)?)
}
