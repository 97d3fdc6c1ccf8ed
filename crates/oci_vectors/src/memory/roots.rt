//! The calls on whole specifications: those without privileges, the default lists, versions, and a root that is made canonical.

use oci_spec::runtime::{
    Linux, LinuxDevice, Spec, cgroup_of, get_default_maskedpaths, get_default_mounts,
    get_default_namespaces, get_default_readonly_paths, get_rootless_mounts,
};
use oci_spec::{OciSpecError, Result, distribution, image, runtime};
use oci_test_support::{Answer, Harness, HarnessOutOfMemory};
use std::alloc::Global;
use std::cell::Cell;
use std::rc::Rc;

fn lists(harness: &mut Harness<'_>) {
    let alloc = harness.rt.alloc();
    harness.same(
        "get_default_namespaces",
        get_default_namespaces(alloc),
        get_default_namespaces(alloc),
    );
    harness.same(
        "get_default_maskedpaths",
        get_default_maskedpaths(alloc),
        get_default_maskedpaths(alloc),
    );
    harness.same(
        "get_default_readonly_paths",
        get_default_readonly_paths(alloc),
        get_default_readonly_paths(alloc),
    );
    harness.same(
        "get_default_mounts",
        get_default_mounts(alloc),
        get_default_mounts(alloc),
    );
    harness.same(
        "get_rootless_mounts",
        get_rootless_mounts(alloc),
        get_rootless_mounts(alloc),
    );
}

fn rule(alloc: Global) -> Result<runtime::LinuxDeviceCgroup> {
    cgroup_of(alloc, &LinuxDevice::try_default(alloc)?)
}

fn wholes(harness: &mut Harness<'_>) {
    let alloc = harness.rt.alloc();
    harness.same("cgroup_of", rule(alloc), rule(alloc));
    harness.same(
        "Linux::rootless",
        Linux::rootless(alloc, 1000, 100),
        Linux::rootless(alloc, 1000, 100),
    );
    harness.same(
        "Spec::rootless",
        Spec::rootless(alloc, 1000, 100),
        Spec::rootless(alloc, 1000, 100),
    );
    harness.answer("version", distribution::version(alloc), Ok("1.0.0"));
    harness.answer("version", image::version(alloc), Ok("1.0.1"));
    harness.answer("version", runtime::version(alloc), Ok("1.1.0"));
}

/// The default specification with a root of this path, or with none.
fn specification(alloc: Global, path: Option<&str>) -> Result<Spec> {
    let mut spec = Spec::try_default(alloc)?;
    let Some(path) = path else {
        spec.set_root(None);
        return Ok(spec);
    };
    let path = String::from_str(alloc, path)?;
    if let Some(root) = spec.root_mut() {
        root.set_path(path);
    }
    Ok(spec)
}

/// Counts a question, and answers it with its text and a mark.
fn marked(alloc: Global, questions: &Cell<u64>, asked: &str) -> Result<String> {
    questions.set(questions.get().saturating_add(1));
    Ok(format!(in alloc; "{asked}+")?)
}

/// The root's path after the call; after an error the specification is as before. A resolver that captures a reference is not covered by
/// the borrow checker, so it holds the counter's other owner.
fn made_canonical(alloc: Global, path: Option<&str>, questions: &Rc<Cell<u64>>) -> Result<String> {
    let mut spec = specification(alloc, path)?;
    let noted = Rc::clone(questions)?;
    let resolver = move |asked: &str| -> Result<String> { marked(alloc, &noted, asked) };
    match spec.canonicalize_rootfs(alloc, "/b", &resolver) {
        Ok(()) => path_of(alloc, spec),
        Err(refused) => unchanged(alloc, refused, spec, specification(alloc, path)),
    }
}

/// What a call refuses that left a document as it was before; a refusal without a text where it did not.
fn unchanged<T: PartialEq + Drop>(
    alloc: Global,
    refused: OciSpecError,
    document: T,
    before: Result<T>,
) -> Result<String> {
    if document == before? {
        Err(refused)
    } else {
        Err(OciSpecError::Other(String::new(alloc)))
    }
}

fn path_of(alloc: Global, spec: Spec) -> Result<String> {
    match spec.root() {
        Some(root) => Ok(root.path().clone()?),
        None => Ok(String::new(alloc)),
    }
}

/// A root of this path in the bundle `/b`: what it becomes shows what the resolver is asked, and it is asked so often.
fn resolved(
    harness: &mut Harness<'_>,
    path: Option<&str>,
    text: Answer<'_>,
    count: u64,
) -> std::result::Result<(), HarnessOutOfMemory> {
    let alloc = harness.rt.alloc();
    let questions = Rc::new(alloc, Cell::new(0u64))?;
    let made = made_canonical(alloc, path, &questions);
    let kept = matches!(made, Err(OciSpecError::Memory)) || questions.get() == count;
    harness.answer("canonicalize_rootfs", made, text);
    harness.count("resolver", 0, kept);
    Ok(())
}

/// All such calls.
pub fn all(harness: &mut Harness<'_>) -> std::result::Result<(), HarnessOutOfMemory> {
    lists(harness);
    wholes(harness);
    resolved(harness, Some("r"), Ok("/b+/r+"), 2)?;
    resolved(harness, Some("/r"), Ok("/r+"), 1)?;
    let unrooted = Err("no root path provided for canonicalization");
    resolved(harness, None, unrooted, 0)?;
    harness.end("specifications", "calls");
    Ok(())
}
