//! Mounts with mappings, and a root whose path is made canonical.

use crate::checks::{Answer, check, written};
use oci_base::{OciSpecError, Result};
use oci_linux::{LinuxIdMapping, LinuxIdMappingBuilder};
use oci_runtime_records::{Mount, MountBuilder, Root, canonicalize};
use oci_test_support::Harness;
use std::alloc::Global;

fn one_mapping(alloc: Global) -> Result<Vec<LinuxIdMapping>> {
    let mapping = LinuxIdMappingBuilder::default().size(1).build(alloc)?;
    Ok(vec![in alloc; mapping]?)
}

fn of_users(alloc: Global) -> Result<Mount> {
    MountBuilder::default()
        .uid_mappings(one_mapping(alloc)?)
        .build(alloc)
}

fn of_groups(alloc: Global) -> Result<Mount> {
    MountBuilder::default()
        .uid_mappings(Vec::new(alloc))
        .gid_mappings(one_mapping(alloc)?)
        .build(alloc)
}

fn of_both(alloc: Global) -> Result<Mount> {
    let users = one_mapping(alloc)?;
    MountBuilder::default()
        .uid_mappings(users)
        .gid_mappings(one_mapping(alloc)?)
        .build(alloc)
}

fn mappings(harness: &mut Harness<'_>) {
    let alloc = harness.rt.alloc();
    let refused = Err((
        "Other",
        "Mount.uidMappings and Mount.gidMappings must be specified together",
    ));
    check(
        harness,
        "of users",
        written(alloc, of_users(alloc)),
        refused,
    );
    check(
        harness,
        "of groups",
        written(alloc, of_groups(alloc)),
        refused,
    );
    let text =
        r#"{"destination":"","gidMappings":[{"containerID":0,"hostID":0,"size":1}],"uidMappings":[{"containerID":0,"hostID":0,"size":1}]}"#;
    check(harness, "of both", written(alloc, of_both(alloc)), Ok(text));
}

/// What a resolver answers.
#[derive(Clone, Copy)]
enum Resolver {
    /// What it is asked for.
    Same,
    /// What it is asked for, in brackets: so an answer shows all that was asked for, in order.
    Bracketed,
    /// The same, but nothing for the bundle `/b`.
    WithoutBundle,
    /// The bundle `/b`, and a refusal of all else.
    BundleAlone,
}

fn resolved(alloc: Global, resolver: Resolver, asked: &str) -> Result<String> {
    match resolver {
        Resolver::Same => Ok(String::from_str(alloc, asked)?),
        Resolver::WithoutBundle if asked == "/b" => Ok(String::new(alloc)),
        Resolver::BundleAlone if asked == "/b" => Ok(String::from_str(alloc, asked)?),
        Resolver::BundleAlone => Err(OciSpecError::Other(String::from_str(alloc, asked)?)),
        _ => Ok(format!(in alloc; "<{asked}>")?),
    }
}

/// A root of this path, or none.
fn rooted(alloc: Global, path: Option<&str>, readonly: Option<bool>) -> Result<Option<Root>> {
    let Some(path) = path else {
        return Ok(None);
    };
    let path = String::from_str(alloc, path)?;
    let mut root = Root::try_default(alloc)?;
    root.set_path(path).set_readonly(readonly);
    Ok(Some(root))
}

/// A resolver, a root's path and `readonly`, a bundle, and what becomes of the root.
type Row = (
    Resolver,
    Option<&'static str>,
    Option<bool>,
    &'static str,
    Answer<'static>,
);

static ROOTS: [Row; 8] = [
    (
        Resolver::Same,
        Some("rootfs"),
        None,
        "/b",
        Ok(r#"{"path":"/b/rootfs","readonly":false}"#),
    ),
    (
        Resolver::Bracketed,
        Some("rootfs"),
        None,
        "/b",
        Ok(r#"{"path":"<</b>/rootfs>","readonly":false}"#),
    ),
    (
        Resolver::Bracketed,
        Some("/r"),
        Some(true),
        "/b",
        Ok(r#"{"path":"</r>","readonly":true}"#),
    ),
    (
        Resolver::Same,
        Some("rootfs"),
        None,
        "/b/",
        Ok(r#"{"path":"/b/rootfs","readonly":false}"#),
    ),
    (
        Resolver::WithoutBundle,
        Some("rootfs"),
        None,
        "/b",
        Ok(r#"{"path":"<rootfs>","readonly":false}"#),
    ),
    (
        Resolver::BundleAlone,
        Some("rootfs"),
        None,
        "/b",
        Err(("Other", "/b/rootfs")),
    ),
    (
        Resolver::BundleAlone,
        Some("rootfs"),
        None,
        "/c",
        Err(("Other", "/c")),
    ),
    (
        Resolver::BundleAlone,
        None,
        None,
        "/b",
        Err(("Other", "no root path provided for canonicalization")),
    ),
];

fn text_of(alloc: Global, root: Option<Root>) -> Result<String> {
    match root {
        Some(root) => written(alloc, Ok(root)),
        None => Ok(String::from_str(alloc, "none")?),
    }
}

/// The text of what becomes of a root, or the refusal; another text where a root is refused and is not as it was before.
fn canonical(alloc: Global, row: &Row) -> Result<String> {
    let (how, path, readonly, bundle, _) = *row;
    let resolver = move |asked: &str| -> Result<String> { resolved(alloc, how, asked) };
    let mut root = rooted(alloc, path, readonly)?;
    let before = rooted(alloc, path, readonly)?;
    match canonicalize(&mut root, alloc, bundle, &resolver) {
        Err(refused) if root == before => Err(refused),
        _ => text_of(alloc, root),
    }
}

fn roots(harness: &mut Harness<'_>) {
    let alloc = harness.rt.alloc();
    for row in &ROOTS {
        check(harness, "root", canonical(alloc, row), row.4);
    }
}

pub fn all(harness: &mut Harness<'_>) {
    mappings(harness);
    roots(harness);
    harness.end("containers", "answers");
}
