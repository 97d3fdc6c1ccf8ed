//! The calls on texts: digests, extensible enums and references.

use crate::memory::references::is_answered;
use oci_spec::distribution::{ParseError, Reference};
use oci_spec::image::{Arch, Digest, DigestAlgorithm, MediaType, Os, Sha256Digest};
use oci_spec::runtime::LinuxNamespaceType;
use oci_spec::{OciSpecError, Result};
use oci_test_support::{Answer, Harness};
use std::alloc::Global;
use std::fmt::Display;

/// What is done with a text, before its text is taken again.
#[derive(Clone, Copy)]
enum Call {
    Digest,
    OwnedDigest,
    DigestCopy,
    Sha256,
    Sha256Copy,
    IntoDigest,
    Algorithm,
    MediaType,
    System,
    Architecture,
    Namespace,
    Reference,
    OwnedReference,
    ReferenceCopy,
    OtherDigest,
    IntoString,
    Display,
}

const DIGITS: &str = "b5b2b2c507a0944348e0303114d8d93aaaa081732b86451d9bce1f432a537bc7";

/// A call, its text, and the text that is read again or reported.
static CALLS: [(Call, &str, Answer<'_>); 30] = [
    (Call::Digest, "foo:bar", Ok("foo:bar")),
    (Call::Digest, "blah+", Err("missing ':' in digest")),
    (Call::Digest, ":", Err("Empty algorithm component")),
    (
        Call::Digest,
        "FooBar:123abc",
        Err("Invalid algorithm component: FooBar"),
    ),
    (Call::Digest, "blah:", Err("Empty algorithm value")),
    (
        Call::Digest,
        "sha384:x",
        Err("Invalid digest length 1 expected 96"),
    ),
    (
        Call::Digest,
        "sha256:123456*78",
        Err("Invalid encoded value 123456*78"),
    ),
    (Call::OwnedDigest, "foo:bar", Ok("foo:bar")),
    (Call::OwnedDigest, "blah+", Err("missing ':' in digest")),
    (Call::DigestCopy, "foo:bar", Ok("foo:bar")),
    (Call::Sha256, DIGITS, Ok(DIGITS)),
    (
        Call::Sha256,
        "x",
        Err("Invalid digest length 1 expected 64"),
    ),
    (Call::Sha256Copy, DIGITS, Ok(DIGITS)),
    (
        Call::IntoDigest,
        DIGITS,
        Ok("sha256:b5b2b2c507a0944348e0303114d8d93aaaa081732b86451d9bce1f432a537bc7"),
    ),
    (Call::Algorithm, "sha256", Ok("sha256")),
    (Call::Algorithm, "foo", Ok("foo")),
    (
        Call::MediaType,
        "application/vnd.oci.descriptor",
        Ok("application/vnd.oci.descriptor"),
    ),
    (Call::MediaType, "m", Ok("m")),
    (Call::System, "linux", Ok("linux")),
    (Call::System, "s", Ok("s")),
    (Call::Architecture, "armbe", Ok("armbe")),
    (Call::Architecture, "a", Ok("a")),
    (Call::Namespace, "mnt", Ok("mnt")),
    (
        Call::Namespace,
        "x",
        Err("unknown namespace x, could not convert"),
    ),
    (
        Call::Reference,
        "busybox",
        Ok("docker.io/library/busybox:latest"),
    ),
    (
        Call::OwnedReference,
        "busybox",
        Ok("docker.io/library/busybox:latest"),
    ),
    (
        Call::ReferenceCopy,
        "busybox",
        Ok("docker.io/library/busybox:latest"),
    ),
    (
        Call::OtherDigest,
        "busybox:1",
        Ok("docker.io/library/busybox@foo:bar"),
    ),
    (Call::IntoString, "r.io/a:1", Ok("r.io/a:1")),
    (Call::Display, "r.io/a:1", Ok("r.io/a:1")),
];

/// The text of what was made.
fn shown<T: Display + Drop>(alloc: Global, made: Result<T>) -> Result<String> {
    Ok(made?.to_string(alloc)?)
}

fn copied(alloc: Global, text: &str) -> Result<String> {
    Ok(String::from_str(alloc, text)?)
}

fn of_digest(alloc: Global, call: Call, text: &str) -> Result<String> {
    match call {
        Call::Digest => shown(alloc, Digest::from_str(alloc, text)),
        Call::OwnedDigest => shown(alloc, Digest::try_from(copied(alloc, text)?)),
        Call::DigestCopy => shown(alloc, Digest::from_str(alloc, text)?.clone()),
        Call::Sha256 => shown(alloc, Sha256Digest::from_str(alloc, text)),
        Call::Sha256Copy => shown(alloc, Sha256Digest::from_str(alloc, text)?.clone()),
        Call::IntoDigest => shown(alloc, Sha256Digest::from_str(alloc, text)?.into_digest()),
        _ => of_name(alloc, call, text),
    }
}

fn of_name(alloc: Global, call: Call, text: &str) -> Result<String> {
    match call {
        Call::Algorithm => shown(alloc, DigestAlgorithm::from_text(alloc, text)?.clone(alloc)),
        Call::MediaType => MediaType::from_text(alloc, text)?
            .clone(alloc)?
            .into_string(alloc),
        Call::System => shown(alloc, Os::from_text(alloc, text)?.clone(alloc)),
        Call::Architecture => shown(alloc, Arch::from_text(alloc, text)?.clone(alloc)),
        Call::Namespace => shown(alloc, LinuxNamespaceType::try_from(alloc, text)),
        _ => of_reference(alloc, call, text),
    }
}

/// A reference that was accepted, or `Memory`; another refusal, here without a text, is none of the answers that are wanted.
fn accepted(
    alloc: Global,
    answer: std::result::Result<Reference, ParseError>,
) -> Result<Reference> {
    match answer {
        Ok(reference) => Ok(reference),
        Err(ParseError::Memory) => Err(OciSpecError::Memory),
        Err(_) => Err(OciSpecError::Other(String::new(alloc))),
    }
}

fn reference(alloc: Global, call: Call, text: &str) -> Result<Reference> {
    match call {
        Call::OwnedReference => accepted(alloc, Reference::try_from(copied(alloc, text)?)),
        _ => accepted(alloc, Reference::from_str(alloc, text)),
    }
}

fn of_reference(alloc: Global, call: Call, text: &str) -> Result<String> {
    let reference = reference(alloc, call, text)?;
    match call {
        Call::ReferenceCopy => reference.clone()?.whole(),
        Call::OtherDigest => reference
            .clone_with_digest(copied(alloc, "foo:bar")?)?
            .whole(),
        Call::IntoString => reference.into_string(),
        Call::Display => Ok(reference.to_string(alloc)?),
        _ => reference.whole(),
    }
}

/// References that are rejected, whichever allocation fails: a text that is not accepted allocates nothing.
static REFUSED: [(&str, ParseError); 13] = [
    ("", ParseError::NameEmpty),
    ("foo_bar.com:80/x", ParseError::ReferenceInvalidFormat),
    ("Uppercase/lowercase:tag", ParseError::NameContainsUppercase),
    ("Localhost/x", ParseError::NameContainsUppercase),
    ("Uppercase:tag", ParseError::ReferenceInvalidFormat),
    (":justtag", ParseError::ReferenceInvalidFormat),
    (
        "aaaaaaaaaaaaaaaaaaaaaaaaaaaaaaaaaaaaaaaaaaaaaaaaaaaaaaaaaaaaaaaaaaaaaaaaaaaaaaaaaaaaaaaaaaaaaaaaaaaaaaaaaaaaaaaaaaaaaaaaaaaaaaaaaaaaaaaaaaaaaaaaaaaaaaaaaaaaaaaaaaaaaaaaaaaaaaaaaaaaaaaaaaaaaaaaaaaaaaaaaaaaaaaaaaaaaaaaaaaaaaaaaaaaaaaaaaaaaaaaaaaaaaaa",
        ParseError::NameTooLong,
    ),
    (
        "r.io/aaaaaaaaaaaaaaaaaaaaaaaaaaaaaaaaaaaaaaaaaaaaaaaaaaaaaaaaaaaaaaaaaaaaaaaaaaaaaaaaaaaaaaaaaaaaaaaaaaaaaaaaaaaaaaaaaaaaaaaaaaaaaaaaaaaaaaaaaaaaaaaaaaaaaaaaaaaaaaaaaaaaaaaaaaaaaaaaaaaaaaaaaaaaaaaaaaaaaaaaaaaaaaaaaaaaaaaaaaaaaaaaaaaaaaaaaaaaaaaaaaaaaaaaaaaaaaaa",
        ParseError::NameTooLong,
    ),
    (
        "repo:aaaaaaaaaaaaaaaaaaaaaaaaaaaaaaaaaaaaaaaaaaaaaaaaaaaaaaaaaaaaaaaaaaaaaaaaaaaaaaaaaaaaaaaaaaaaaaaaaaaaaaaaaaaaaaaaaaaaaaaaaaaaaaaaa",
        ParseError::ReferenceInvalidFormat,
    ),
    (
        "repo@sha256:fffffffffffffffffffffffffffffff",
        ParseError::ReferenceInvalidFormat,
    ),
    (
        "repo@sha256:ffffffffffffffffffffffffffffffff",
        ParseError::DigestInvalidLength,
    ),
    (
        "repo@md5:ffffffffffffffffffffffffffffffff",
        ParseError::DigestUnsupported,
    ),
    (
        "repo@SHA256:ffffffffffffffffffffffffffffffffffffffffffffffffffffffffffffffff",
        ParseError::DigestUnsupported,
    ),
];

/// All calls on texts.
pub fn all(harness: &mut Harness<'_>) {
    let alloc = harness.rt.alloc();
    for (call, text, expected) in &CALLS {
        harness.answer(text, of_digest(alloc, *call, text), *expected);
    }
    harness.end("texts", "calls");
    for (text, expected) in &REFUSED {
        let kept = is_answered(alloc, text, Some(*expected));
        harness.count(text, 0, kept);
    }
    harness.end("references", "refused");
}
