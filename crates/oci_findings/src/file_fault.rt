//! What is wrong with a file of an image layout, beside the document in it.
ghost use Rattle.std.specs.Prelude.{◌≡◌, ◌++◌, codes, IfOk, OnOk, string_bytes};
ghost use Rattle.std.specs.Fmt.{decimal};
ghost use Rattle.oci_content.specs.Content.{checksum_text};
ghost use Rattle.oci_findings.specs.Files.{absence_words, count_words, embedded_words, file_words, file_rule, found_words, member_words, reason_words};

use crate::finding::{joined, with_found};
use oci_content::{Checksum, Embedded};
use oci_layout::OtherMember;
use std::alloc::{AllocError, Global};

/// Why a content may be missing.
#[derive(Clone, Copy, Debug, PartialEq, Eq)]
pub enum Absence {
    /// It may not.
    Wrong,
    /// It is the subject of a manifest (image specification, "Image Manifest", `subject`).
    Subject,
    /// It is a nondistributable layer that has URLs (image specification, "Non-Distributable Layers").
    Elsewhere,
}

/// What is wrong with a file of an image layout, beside the document in it.
#[derive(Drop)]
pub enum FileFault {
    /// Nothing is there.
    Missing(Absence),
    /// What is there cannot be read, or is no regular file, and what the system says.
    Unreadable(Option<String>),
    /// It is larger than a document may be, and is not read.
    TooLarge,
    /// Its descriptor says that it has so many bytes, and it has so many, which are fewer, or it has more.
    Size(u64, Option<u64>),
    /// Its descriptor says this digest, and its content has another.
    Digest(String, Checksum),
    /// Its digest is by an algorithm that is not known.
    Unjudged,
    /// Its descriptor says this media type, and the document itself says another, which is shown.
    MediaType(&'static str, Option<String>),
    /// Clients may take the document for one of another kind, by this member.
    Ambiguous(OtherMember),
    /// A descriptor in the document holds a content itself, of which this was found.
    Held(Embedded),
    /// The layout is of another version, which is shown.
    Version(Option<String>),
    /// The folder cannot be listed to its end, and why.
    Unlisted(Option<String>),
    /// Its media type is of no kind that is known, so it is not looked into.
    Unread,
    /// No descriptor that is reached refers to it.
    Unreferenced,
}

impl FileFault {
    /// The name of the rule that is broken.
    pub fn rule(&self) -> &'static str
        ensures { result.now ≡ file_rule self.now }
    {
        match self {
            FileFault::Missing(_) => "missing",
            FileFault::Unreadable(_) => "unreadable",
            FileFault::TooLarge => "too-large",
            FileFault::Size(_, _) => "size",
            FileFault::Digest(_, _) => "digest",
            FileFault::Unjudged => "unjudged",
            FileFault::MediaType(_, _) => "media-type",
            FileFault::Ambiguous(_) => "ambiguous",
            FileFault::Held(_) => "embedded",
            FileFault::Version(_) => "layout-version",
            FileFault::Unlisted(_) => "unlisted",
            FileFault::Unread => "unread",
            FileFault::Unreferenced => "unreferenced",
        }
    }

    /// What is wrong, in a sentence.
    pub fn message(&self, alloc: Global) -> Result<String, AllocError>
        ensures { IfOk result (λ t. string_bytes t ≡ file_words self.now) }
    {
        match self {
            FileFault::Missing(absence) => String::from_str(alloc, missing_text(*absence)),
            FileFault::Unreadable(why) => reasoned("cannot be read", why, alloc),
            FileFault::TooLarge => String::from_str(alloc, "too large to be read as a document"),
            FileFault::Size(claimed, found) => size_message(*claimed, *found, alloc),
            FileFault::Digest(claimed, found) => digest_message(claimed.as_str(), found, alloc),
            FileFault::Unjudged => {
                String::from_str(alloc, "expected a digest by sha256, sha384 or sha512")
            }
            FileFault::MediaType(said, found) => type_message(said, found, alloc),
            FileFault::Ambiguous(member) => joined("expected ", member_text(*member), alloc),
            FileFault::Held(embedded) => joined("expected ", embedded_text(*embedded), alloc),
            FileFault::Version(found) => type_message("1.0.0", found, alloc),
            FileFault::Unlisted(why) => reasoned("cannot be listed to its end", why, alloc),
            FileFault::Unread => {
                String::from_str(
                    alloc,
                    "not looked into, since its media type is of no kind that is known",
                )
            }
            FileFault::Unreferenced => String::from_str(
                alloc,
                "nothing that is reached refers to it",
            ),
        }
    }
}

/// A text, and behind it the reason, if there is one.
fn reasoned(text: &str, why: &Option<String>, alloc: Global) -> Result<String, AllocError>
    ensures { IfOk result (λ t. string_bytes t ≡ text.now ++ reason_words why.now) }
{
    match why {
        Some(why) => {
            let text = joined(text, ": ", alloc)?;
            joined(text.as_str(), why.as_str(), alloc)
        }
        None => String::from_str(alloc, text),
    }
}

fn missing_text(absence: Absence) -> &'static str
    ensures { result.now ≡ absence_words absence }
{
    match absence {
        Absence::Wrong => "missing",
        Absence::Subject => "missing, as a subject may be",
        Absence::Elsewhere => "missing, a nondistributable layer that has URLs",
    }
}

fn size_message(claimed: u64, found: Option<u64>, alloc: Global) -> Result<String, AllocError>
    ensures { IfOk result (λ t. string_bytes t ≡ codes "expected " ++ (decimal claimed ++ (codes " bytes, found " ++ count_words found))) }
{
    let claimed = claimed.to_string(alloc)?;
    let count = count_text(found, alloc)?;
    counted(claimed.as_str(), count.as_str(), alloc)
}

fn counted(claimed: &str, count: &str, alloc: Global) -> Result<String, AllocError>
    ensures { IfOk result (λ t. string_bytes t ≡ codes "expected " ++ (claimed.now ++ (codes " bytes, found " ++ count.now))) }
{
    let mut text = String::new(alloc);
    push_counted(&mut text, claimed, count)?;
    Ok(text)
}

fn push_counted(text: &mut String, claimed: &str, count: &str) -> Result<(), AllocError>
    ensures { OnOk result (string_bytes text.new ≡ string_bytes text.old ++ (codes "expected " ++ (claimed.now ++ (codes " bytes, found " ++ count.now)))) }
{
    text.push_str("expected ")?;
    text.push_str(claimed)?;
    push_count(text, count)
}

fn push_count(text: &mut String, count: &str) -> Result<(), AllocError>
    ensures { OnOk result (string_bytes text.new ≡ string_bytes text.old ++ (codes " bytes, found " ++ count.now)) }
{
    text.push_str(" bytes, found ")?;
    text.push_str(count)
}

fn count_text(found: Option<u64>, alloc: Global) -> Result<String, AllocError>
    ensures { IfOk result (λ t. string_bytes t ≡ count_words found) }
{
    match found {
        Some(found) => found.to_string(alloc),
        None => String::from_str(alloc, "more"),
    }
}

fn digest_message(claimed: &str, found: &Checksum, alloc: Global) -> Result<String, AllocError>
    ensures { IfOk result (λ t. string_bytes t ≡ codes "expected " ++ (claimed.now ++ (codes ", found " ++ checksum_text found.now))) }
{
    let found = found.text(alloc)?;
    compared(claimed, found.as_str(), alloc)
}

fn compared(expected: &str, found: &str, alloc: Global) -> Result<String, AllocError>
    ensures { IfOk result (λ t. string_bytes t ≡ codes "expected " ++ (expected.now ++ (codes ", found " ++ found.now))) }
{
    let mut text = String::new(alloc);
    push_compared(&mut text, expected, found)?;
    Ok(text)
}

fn push_compared(text: &mut String, expected: &str, found: &str) -> Result<(), AllocError>
    ensures { OnOk result (string_bytes text.new ≡ string_bytes text.old ++ (codes "expected " ++ (expected.now ++ (codes ", found " ++ found.now)))) }
{
    text.push_str("expected ")?;
    text.push_str(expected)?;
    text.push_str(", found ")?;
    text.push_str(found)
}

fn type_message(said: &str, found: &Option<String>, alloc: Global) -> Result<String, AllocError>
    ensures { IfOk result (λ t. string_bytes t ≡ (codes "expected " ++ said.now) ++ found_words found.now) }
{
    let text = joined("expected ", said, alloc)?;
    with_found(text, found)
}

/// The document that is expected in place of one with this member, and why.
fn member_text(member: OtherMember) -> &'static str
    ensures { result.now ≡ member_words member }
{
    match member {
        OtherMember::Manifests =>
            "a manifest without `manifests`; clients may take it for an index",
        OtherMember::Config => "an index without `config`; clients may take it for a manifest",
        OtherMember::Layers => "an index without `layers`; clients may take it for a manifest",
        OtherMember::FsLayers => {
            "a document without `fsLayers`; clients may take it for a manifest of schema 1"
        }
    }
}

/// What is expected of a content that a descriptor holds itself.
fn embedded_text(embedded: Embedded) -> &'static str
    ensures { result.now ≡ embedded_words embedded }
{
    match embedded {
        Embedded::NotBase64 => "a base64 string",
        Embedded::Absent | Embedded::Content(_) => "the content that its descriptor says",
    }
}
