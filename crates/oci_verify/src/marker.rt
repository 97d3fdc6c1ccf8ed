//! The file `oci-layout`, which marks a folder as an image layout.
ghost use Rattle.std.specs.Prelude.{◌≡◌, ◌↔◌, false, IfOk, IsTrue};
ghost use Rattle.serde_json.specs.View.{view};
ghost use Rattle.oci_shapes.specs.OciLayout.{oci_layout as oci_layout_shape};
ghost use Rattle.oci_layout.specs.Documents.{IsValid};
ghost use Rattle.oci_layout.specs.Marker.{IsMarker, IsMarkerIn, IsVersionOne};

use oci_findings::contents::reason_text;
use oci_findings::shown::{json_cause, shown_at, violation_findings};
use oci_findings::{Absence, Cause, Claims, FileFault, Finding, Report, Severity};
use oci_layout::Top;
use oci_schema::violations;
use oci_schemas::OciRecords;
use oci_schemas::image_manifest::oci_layout;
use serde_json::Value;
use std::alloc::{AllocError, Global};

/// Where the version is in the marker.
const VERSION: &str = "/imageLayoutVersion";

/// What is said of the marker, and whether it is right.
#[derive(Drop)]
pub struct Marked {
    /// What is wrong with it.
    pub report: Report<'static>,
    /// Whether it is a marker of version 1.0.0.
    pub is_right: bool,
}

/// What is wrong with the marker: that it is missing, that it is no document of its kind, or that its version is not 1.0.0 (image
/// specification, "Image Layout", "oci-layout file"). Fails if out of memory.
pub fn marker_report(marker: Top, alloc: Global) -> Result<Marked, AllocError>
    ensures { IfOk result (λ m. IsTrue m.is_right ↔ IsMarkerIn marker) }
{
    match marker {
        Top::Missing => wrong(FileFault::Missing(Absence::Wrong), alloc),
        Top::Unreadable(why) => wrong(FileFault::Unreadable(reason_text(&why, alloc)?), alloc),
        Top::TooLarge => wrong(FileFault::TooLarge, alloc),
        Top::Bytes(bytes) => {
            let Looked { found, is_right } = look_at(bytes.as_slice(), alloc)?;
            let text = Some(bytes);
            let report = Report::of_file(found, &text, Claims::none(alloc), alloc)?;
            Ok(Marked { report, is_right })
        }
    }
}

/// That no marker was read.
fn wrong(fault: FileFault, alloc: Global) -> Result<Marked, AllocError>
    ensures { IfOk result (λ m. m.is_right ≡ false) }
{
    let mut found = Vec::new(alloc);
    found.push(fault_of_file(fault, alloc))?;
    let report = Report::of_file(found, &None, Claims::none(alloc), alloc)?;
    Ok(Marked {
        report,
        is_right: false,
    })
}

/// A finding on a file as a whole.
pub fn fault_of_file(fault: FileFault, alloc: Global) -> Finding<'static> {
    Finding {
        pointer: String::new(alloc),
        cause: Cause::File(fault),
        severity: Severity::Error,
    }
}

/// What is wrong with the bytes of a marker, and whether they are one.
#[derive(Drop)]
struct Looked<'a> {
    found: Vec<Finding<'a>>,
    is_right: bool,
}

fn look_at<'a>(bytes: &[u8], alloc: Global) -> Result<Looked<'a>, AllocError>
    ensures { IfOk result (λ l. IsTrue l.is_right ↔ IsMarker bytes.now) }
{
    match Value::from_slice(alloc, bytes) {
        Ok(value) => look_at_value(&value, alloc),
        Err(fault) => {
            if fault.is_memory() {
                return Err(AllocError);
            }
            let mut found = Vec::new(alloc);
            found.push(Finding {
                pointer: String::new(alloc),
                cause: json_cause(&fault, bytes, alloc)?,
                severity: Severity::Error,
            })?;
            Ok(Looked {
                found,
                is_right: false,
            })
        }
    }
}

fn look_at_value<'a>(value: &Value, alloc: Global) -> Result<Looked<'a>, AllocError>
    ensures { IfOk result (λ l. IsTrue l.is_right ↔ (IsValid oci_layout_shape (view value.now) × IsVersionOne (view value.now))) }
{
    let listed = violations(&OciRecords, oci_layout(), value, alloc)?;
    let mut found = violation_findings(&listed, value, alloc)?;
    if !listed.is_empty() {
        return Ok(Looked {
            found,
            is_right: false,
        });
    }
    let is_right = is_version_one(value);
    if !is_right {
        found.push(version_finding(value, alloc)?)?;
    }
    Ok(Looked { found, is_right })
}

fn is_version_one(value: &Value) -> bool
    ensures { IsTrue result ↔ IsVersionOne (view value.now) }
{
    match value.get("imageLayoutVersion") {
        Some(version) => match version.as_str() {
            Some(text) => text == "1.0.0",
            None => false,
        },
        None => false,
    }
}

/// That the version is another one.
fn version_finding<'a>(value: &Value, alloc: Global) -> Result<Finding<'a>, AllocError> {
    let shown = shown_at(value, VERSION, alloc)?;
    Ok(Finding {
        pointer: String::from_str(alloc, VERSION)?,
        cause: Cause::File(FileFault::Version(shown)),
        severity: Severity::Error,
    })
}
