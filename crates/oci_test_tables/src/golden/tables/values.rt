//! The constants.

use anyhow::Result;
use oci_spec::distribution::Reference;
use oci_spec::image::Digest;
use oci_spec::runtime::{LinuxIdMapping, LinuxNamespaceType, MountBuilder, ZOSNamespaceType};
use oci_spec::{distribution, image, runtime};
use oci_test_support::rows::{ask, count, read, report};
use std::alloc::Global;
use std::fmt::Debug;

static TEXTS: [(&str, &str); 23] = [
    ("image::ANNOTATION_CREATED", image::ANNOTATION_CREATED),
    ("image::ANNOTATION_AUTHORS", image::ANNOTATION_AUTHORS),
    ("image::ANNOTATION_URL", image::ANNOTATION_URL),
    (
        "image::ANNOTATION_DOCUMENTATION",
        image::ANNOTATION_DOCUMENTATION,
    ),
    ("image::ANNOTATION_SOURCE", image::ANNOTATION_SOURCE),
    ("image::ANNOTATION_VERSION", image::ANNOTATION_VERSION),
    ("image::ANNOTATION_REVISION", image::ANNOTATION_REVISION),
    ("image::ANNOTATION_VENDOR", image::ANNOTATION_VENDOR),
    ("image::ANNOTATION_LICENSES", image::ANNOTATION_LICENSES),
    ("image::ANNOTATION_REF_NAME", image::ANNOTATION_REF_NAME),
    ("image::ANNOTATION_TITLE", image::ANNOTATION_TITLE),
    (
        "image::ANNOTATION_DESCRIPTION",
        image::ANNOTATION_DESCRIPTION,
    ),
    (
        "image::ANNOTATION_BASE_IMAGE_DIGEST",
        image::ANNOTATION_BASE_IMAGE_DIGEST,
    ),
    (
        "image::ANNOTATION_BASE_IMAGE_NAME",
        image::ANNOTATION_BASE_IMAGE_NAME,
    ),
    ("image::LABEL_VERSION", image::LABEL_VERSION),
    ("image::VERSION", image::VERSION),
    ("image::VERSION_DEV", image::VERSION_DEV),
    ("distribution::VERSION", distribution::VERSION),
    ("distribution::VERSION_DEV", distribution::VERSION_DEV),
    ("distribution::ERR_REGISTRY", distribution::ERR_REGISTRY),
    ("runtime::VERSION", runtime::VERSION),
    ("runtime::VERSION_DEV", runtime::VERSION_DEV),
    ("runtime::SECCOMP_FD_NAME", runtime::SECCOMP_FD_NAME),
];

static NUMBERS: [(&str, u32); 10] = [
    ("image::SCHEMA_VERSION", image::SCHEMA_VERSION),
    ("image::VERSION_MAJOR", image::VERSION_MAJOR),
    ("image::VERSION_MINOR", image::VERSION_MINOR),
    ("image::VERSION_PATCH", image::VERSION_PATCH),
    ("distribution::VERSION_MAJOR", distribution::VERSION_MAJOR),
    ("distribution::VERSION_MINOR", distribution::VERSION_MINOR),
    ("distribution::VERSION_PATCH", distribution::VERSION_PATCH),
    ("runtime::VERSION_MAJOR", runtime::VERSION_MAJOR),
    ("runtime::VERSION_MINOR", runtime::VERSION_MINOR),
    ("runtime::VERSION_PATCH", runtime::VERSION_PATCH),
];

/// All public constants, and the texts that calls make of constants.
pub fn constants(rt: &HostRuntime) -> Result<()> {
    listed(rt, "texts", &TEXTS)?;
    listed(rt, "numbers", &NUMBERS)?;
    versions(rt)?;
    made(rt)?;
    digests(rt)
}

/// Compares constants with their rows, `NAME VALUE`.
fn listed<T: Debug>(rt: &HostRuntime, kind: &str, all: &[(&str, T)]) -> Result<()> {
    let rows = read(rt, "constants")?;
    for (name, value) in all {
        let here = format!(in rt.alloc(); "{name} {value:?}")?;
        ask(rt, "constants", rows.as_str(), here.as_str())?;
    }
    count(rt, "constants", kind, all.len())
}

fn versions(rt: &HostRuntime) -> Result<()> {
    let rows = read(rt, "constants")?;
    let (rows, alloc) = (rows.as_str(), rt.alloc());
    text(rt, rows, "image::VERSION", image::version(alloc));
    text(
        rt,
        rows,
        "distribution::VERSION",
        distribution::version(alloc),
    );
    text(rt, rows, "runtime::VERSION", runtime::version(alloc));
    count(rt, "constants", "versions", 3)
}

/// Whole references, and what is refused in words.
fn made(rt: &HostRuntime) -> Result<()> {
    let rows = read(rt, "constants")?;
    let (rows, alloc) = (rows.as_str(), rt.alloc());
    text(rt, rows, "Reference:ubuntu", whole(alloc, "ubuntu"));
    text(
        rt,
        rows,
        "Reference:index.docker.io/ubuntu",
        whole(alloc, "index.docker.io/ubuntu"),
    );
    text(
        rt,
        rows,
        "LinuxNamespaceType:other",
        refused(alloc, LinuxNamespaceType::try_from(alloc, "other")),
    );
    text(
        rt,
        rows,
        "ZOSNamespaceType:other",
        refused(alloc, ZOSNamespaceType::try_from(alloc, "other")),
    );
    text(rt, rows, "MountBuilder", mount(alloc));
    count(rt, "constants", "made", 5)
}

/// Compares a text with its row, `NAME "TEXT"`.
fn text(rt: &HostRuntime, rows: &str, name: &str, made: oci_spec::Result<String>) {
    report(rt, name, ask_text(rt, rows, name, made));
}

fn ask_text(
    rt: &HostRuntime,
    rows: &str,
    name: &str,
    made: oci_spec::Result<String>,
) -> Result<()> {
    let made = made?;
    let text = made.as_str();
    let here = format!(in rt.alloc(); "{name} {text:?}")?;
    ask(rt, "constants", rows, here.as_str())
}

/// What a mount's builder says of mappings on one side alone.
fn mount(alloc: Global) -> oci_spec::Result<String> {
    let mappings = vec![in alloc; LinuxIdMapping::try_default(alloc)?]?;
    let builder = MountBuilder::default().uid_mappings(mappings);
    refused(alloc, builder.build(alloc))
}

/// A text for each error of a digest.
static NO_DIGESTS: [&str; 7] = [
    "abc",
    ":abc",
    "A:abc",
    "x:",
    "x:a/b",
    "sha256:ab",
    "sha256:gggggggggggggggggggggggggggggggggggggggggggggggggggggggggggggggg",
];

fn digests(rt: &HostRuntime) -> Result<()> {
    let rows = read(rt, "constants")?;
    for text in &NO_DIGESTS {
        let error = refused(rt.alloc(), Digest::from_str(rt.alloc(), text))?;
        let here = format!(in rt.alloc(); "Digest:{text} {error:?}")?;
        ask(rt, "constants", rows.as_str(), here.as_str())?;
    }
    count(rt, "constants", "digests", NO_DIGESTS.len())
}

fn whole(alloc: Global, text: &str) -> oci_spec::Result<String> {
    match Reference::from_str(alloc, text) {
        Ok(reference) => Ok(reference.whole()?),
        Err(fault) => Ok(format!(in alloc; "{fault}")?),
    }
}

/// What an error displays.
fn refused<T: Drop>(alloc: Global, made: oci_spec::Result<T>) -> oci_spec::Result<String> {
    match made {
        Ok(_) => Ok(String::from_str(alloc, "no error")?),
        Err(fault) => Ok(format!(in alloc; "{fault}")?),
    }
}
