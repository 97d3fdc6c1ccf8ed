//! References: limits of length, and the calls that take memory. The texts that are read are rows of commands in `oci_vectors`.

use crate::checks::{check, repeated};
use oci_base::Result;
use oci_image::{Descriptor, Digest, MediaType};
use oci_pin::pin;
use oci_reference::{ParseError, Reference};
use oci_test_support::{Harness, HarnessOutOfMemory};
use std::alloc::Global;

/// A front, how many times a part follows, and an end; and the length of the repository, or the refusal.
static LENGTHS: [(
    &str,
    &str,
    usize,
    &str,
    std::result::Result<usize, ParseError>,
); 12] = [
    ("", "a", 247, "", Ok(255)),
    ("", "a", 248, "", Err(ParseError::NameTooLong)),
    ("", "a", 100_000, "", Err(ParseError::NameTooLong)),
    (
        "",
        "a",
        248,
        "@md5:ffffffffffffffffffffffffffffffff",
        Err(ParseError::NameTooLong),
    ),
    ("r.io/", "a", 255, "", Ok(255)),
    ("r.io/", "a", 256, "", Err(ParseError::NameTooLong)),
    ("A/", "a", 300, "", Err(ParseError::NameContainsUppercase)),
    ("repo:", "a", 128, "", Ok(12)),
    (
        "repo:",
        "a",
        129,
        "",
        Err(ParseError::ReferenceInvalidFormat),
    ),
    ("repo@sha384:", "f", 96, "", Ok(12)),
    ("repo@sha512:", "0", 128, "", Ok(12)),
    (
        "repo@sha512:",
        "f",
        127,
        "",
        Err(ParseError::DigestInvalidLength),
    ),
];

fn repository_length(alloc: Global, text: &str) -> std::result::Result<usize, ParseError> {
    let reference = Reference::from_str(alloc, text)?;
    Ok(reference.repository().len())
}

fn lengths(harness: &mut Harness<'_>) -> std::result::Result<(), HarnessOutOfMemory> {
    let alloc = harness.rt.alloc();
    for (front, part, count, end, answer) in &LENGTHS {
        let text = repeated(alloc, front, part, *count, end)?;
        let found = repository_length(alloc, text.as_str());
        harness.count(front, *count, found == *answer);
    }
    harness.end("references", "lengths");
    Ok(())
}

/// The text of a reference, the registry that it names where it has a mirror, and the registry that is asked.
fn described(alloc: Global, reference: &Reference) -> Result<String> {
    let named = reference.namespace().unwrap_or("none");
    let asked = reference.resolve_registry();
    Ok(format!(in alloc; "{reference} of {named}, from {asked}")?)
}

fn copied(alloc: Global, reference: &Reference) -> Result<String> {
    described(alloc, &reference.clone()?)
}

fn with_digest(alloc: Global, reference: &Reference) -> Result<String> {
    let digest = String::from_str(alloc, "foo:bar")?;
    described(alloc, &reference.clone_with_digest(digest)?)
}

fn pinned(alloc: Global, reference: &Reference) -> Result<String> {
    let digest = Digest::from_str(alloc, "foo:bar")?;
    let manifest = Descriptor::new(MediaType::ImageManifest, 7023, digest);
    described(alloc, &pin(alloc, reference, &manifest)?)
}

/// A mirror is kept by a copy, by one with another digest and by one that is pinned to a manifest, and is not shown.
fn mirrored(harness: &mut Harness<'_>, reference: &Reference) {
    let alloc = harness.rt.alloc();
    let expected = "test.com/repo:tag of test.com, from docker.mirror.io";
    check(harness, "copy", copied(alloc, reference), Ok(expected));
    let expected = "test.com/repo@foo:bar of test.com, from docker.mirror.io";
    check(
        harness,
        "digest",
        with_digest(alloc, reference),
        Ok(expected),
    );
    check(harness, "pin", pinned(alloc, reference), Ok(expected));
}

pub fn all(harness: &mut Harness<'_>) -> std::result::Result<(), HarnessOutOfMemory> {
    let alloc = harness.rt.alloc();
    lengths(harness)?;
    let mirror = String::from_str(alloc, "docker.mirror.io")?;
    match Reference::from_str(alloc, "test.com/repo:tag") {
        Ok(mut reference) => {
            reference.set_mirror_registry(mirror);
            mirrored(harness, &reference);
        }
        Err(_) => harness.count("a reference", 0, false),
    }
    harness.end("references", "with a mirror");
    Ok(())
}
