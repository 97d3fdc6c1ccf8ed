//! The command `pin` with a digest that is not that of a descriptor's file.
ghost use Rattle.std.specs.Prelude.{◌≡◌, ◌⊎◌, ◌≤◌, ◌+◌, ◌++◌, ◌∷◌, [], ℕ, List, None, option_map, option_and_then, codes, true, false, IfOk, IfSome, string_bytes};
ghost use Rattle.std.specs.Io.KnownBytes.{Appends};
ghost use Rattle.serde_json.specs.Find.{as_array, at, get};
ghost use Rattle.serde_json.specs.View.{items_view, view};
ghost use Rattle.oci_base.specs.Digest.{IsDigestText};
ghost use Rattle.oci_content.specs.Content.{digest_text};
ghost use Rattle.oci_content.specs.declared.algorithm.Algorithm.TheVariants.{Sha256};
ghost use Rattle.oci_reference.specs.Accepted.{Accepted};
ghost use Rattle.oci_reference.specs.Parts.{Parts};
ghost use Rattle.oci_reference.specs.Replaced.{pinned};
ghost use Rattle.oci_reference.specs.Whole.{whole};
ghost use Rattle.oci_commands.specs.Done.{IsStatus};
ghost use Rattle.oci_commands.specs.Pins.{IsTaggedAt, IsTaggedBelow, IsTagged, ref_name, digest_of, IsTarget, PinsTo, HasNoTarget, HoldsOf, OnSought};
ghost use Rattle.oci_commands.specs.Refused.{IsNoReference, IsNoDigest};

use crate::asked::Target;
use crate::files::Files;
use crate::lost::has_name_twice;
use crate::texts::{complain_of, is_digest, is_wrong, refused};
use oci_base::Result;
use oci_content::Algorithm;
use oci_doc_run::Refusal;
use oci_json::write_text;
use oci_reference::Reference;
use oci_schemas::Kind;
use serde_json::Value;
use std::alloc::Global;
use std::io::Write;

/// The annotation by which a descriptor of an index has a name (image specification, "Pre-Defined Annotation Keys").
const REF_NAME: &str = "org.opencontainers.image.ref.name";

/// A digest that was looked for.
#[derive(Drop)]
pub enum Sought {
    /// It is this one.
    Found(String),
    /// There is none.
    Wrong,
    /// A file could not be read.
    Unread,
}

/// Writes the reference with the digest that is asked for. Returns 0 if that was done, 1 if the text is no reference or there is no such
/// digest, and 3 if a file could not be read; a line on standard error says why.
#[tactic(auto, using(crate::proofs::Targets::pins_to))]
pub fn pin_to<S: Files, W: Write, E: Write>(
    text: &str,
    target: &Target<'_>,
    alloc: Global,
    store: &mut S,
    writer: &mut W,
    errors: &mut E,
) -> Result<u8>
    ensures status { IfOk result IsStatus }
    ensures done { IfOk result (λ s. s ≡ 0 → PinsTo (S.holds store.old) text.now target.now (W.contents writer.old) (W.contents writer.new)) }
    ensures wrong { IfOk result (λ s. s ≡ 1 → IsNoReference text.now ⊎ HasNoTarget (S.holds store.old) target.now) }
{
    match look_for(target, alloc, store, errors)? {
        Sought::Found(digest) => {
            let done = pin_text(text, digest, alloc, writer, errors)?;
            if done {
                return Ok(0);
            }
            Ok(1)
        }
        Sought::Wrong => Ok(1),
        Sought::Unread => Ok(3),
    }
}

/// Writes the reference with this digest, and returns whether that was done. If the text is no reference, a line on standard error says
/// why.
fn pin_text<W: Write, E: Write>(
    text: &str,
    digest: String,
    alloc: Global,
    writer: &mut W,
    errors: &mut E,
) -> Result<bool>
    ensures right { IfOk result (λ b. b ≡ true → (parts : Parts) × Accepted text.now parts × Appends (W.contents writer.old) (W.contents writer.new) (whole (pinned parts (string_bytes digest)) ++ 10 ∷ [])) }
    ensures wrong { IfOk result (λ b. b ≡ false → IsNoReference text.now) }
{
    match Reference::from_str(alloc, text) {
        Ok(reference) => {
            let line = pinned_line(&reference, digest)?;
            write_text(line.as_bytes(), writer)?;
            Ok(true)
        }
        Err(error) => refused(Refusal::Reference(error), text, alloc, errors),
    }
}

/// The line of a reference with this digest.
fn pinned_line(reference: &Reference, digest: String) -> Result<String>
    ensures { IfOk result (λ t. string_bytes t ≡ whole (pinned reference.now (string_bytes digest)) ++ 10 ∷ []) }
{
    let mut line = reference.clone_with_digest(digest)?.into_string()?;
    line.push_str("\n")?;
    Ok(line)
}

/// Looks for the digest that is asked for.
fn look_for<S: Files, E: Write>(
    target: &Target<'_>,
    alloc: Global,
    store: &mut S,
    errors: &mut E,
) -> Result<Sought>
    ensures { IfOk result (OnSought (IsTarget (S.holds store.old) target.now) (HasNoTarget (S.holds store.old) target.now)) }
{
    match target {
        Target::Given(text) => given(text, alloc, errors),
        Target::Manifest(file) => of_file(file, alloc, store, errors),
        Target::Tagged(file, tag) => by_name(file, tag, alloc, store, errors),
    }
}

/// The text as a digest.
fn given<E: Write>(text: &str, alloc: Global, errors: &mut E) -> Result<Sought>
    ensures { IfOk result (OnSought (λ d. IsDigestText text.now × (d ≡ text.now)) (IsNoDigest text.now)) }
{
    if !is_digest(text, alloc, errors)? {
        return Ok(Sought::Wrong);
    }
    Ok(Sought::Found(String::from_str(alloc, text)?))
}

/// The digest of the bytes of a file.
fn of_file<S: Files, E: Write>(
    file: &str,
    alloc: Global,
    store: &mut S,
    errors: &mut E,
) -> Result<Sought>
    ensures { IfOk result (OnSought (λ d. IfSome (S.holds store.old file.now) (λ bytes. d ≡ digest_text Sha256 bytes)) ⊥) }
{
    match store.checksum(Algorithm::Sha256, file) {
        Ok(checksum) => Ok(Sought::Found(checksum.text(alloc)?)),
        Err(fault) => {
            complain_of(file, &fault, alloc, errors);
            Ok(Sought::Unread)
        }
    }
}

/// The digest of the descriptor that has this name in the index in a file.
fn by_name<S: Files, E: Write>(
    file: &str,
    tag: &str,
    alloc: Global,
    store: &mut S,
    errors: &mut E,
) -> Result<Sought>
    ensures { IfOk result (OnSought (λ d. IfSome (S.holds store.old file.now) (IsTagged tag.now d)) (IfSome (S.holds store.old file.now) (λ bytes. (digest : List ℕ) → ¬ IsTagged tag.now digest bytes))) }
{
    match store.read(alloc, file) {
        Ok(bytes) => by_name_in(file, tag, bytes.as_slice(), alloc, errors),
        Err(fault) => {
            complain_of(file, &fault, alloc, errors);
            Ok(Sought::Unread)
        }
    }
}

/// The same in the bytes of an index.
fn by_name_in<E: Write>(
    file: &str,
    tag: &str,
    bytes: &[u8],
    alloc: Global,
    errors: &mut E,
) -> Result<Sought>
    ensures { IfOk result (OnSought (λ d. IsTagged tag.now d bytes.now) ((digest : List ℕ) → ¬ IsTagged tag.now digest bytes.now)) }
{
    if is_wrong(Some(Kind::Index), file, bytes, alloc, errors)? {
        return Ok(Sought::Wrong);
    }
    if has_name_twice(file, bytes, alloc, errors)? {
        return Ok(Sought::Wrong);
    }
    let index = Value::from_slice(alloc, bytes)?;
    match digest_named(&index, tag) {
        Named::One(digest) => Ok(Sought::Found(String::from_str(alloc, digest)?)),
        Named::Several => {
            say_of_name(
                file,
                tag,
                "several descriptors have the name",
                alloc,
                errors,
            )?;
            Ok(Sought::Wrong)
        }
        Named::Nothing => {
            say_of_name(file, tag, "no descriptor has the name", alloc, errors)?;
            Ok(Sought::Wrong)
        }
    }
}

fn say_of_name<E: Write>(
    file: &str,
    tag: &str,
    fault: &str,
    alloc: Global,
    errors: &mut E,
) -> Result<()> {
    let text = format!(in alloc; "{fault} {tag}")?;
    complain_of(file, &text, alloc, errors);
    Ok(())
}

/// The descriptors that have a name.
#[derive(Clone, Copy)]
pub enum Named<'a> {
    /// There is none.
    Nothing,
    /// There is one, with this digest.
    One(&'a str),
    /// There are several.
    Several,
}

/// The digest of the descriptor of an index that has this name, if it is the only one.
fn digest_named<'a>(index: &'a Value, tag: &str) -> Named<'a>
    ensures { HoldsOf (IsTaggedAt (view index.now) tag.now) result }
{
    let mut found = Named::Nothing;
    for place in 0..count_of(index) {
        found = with_place(found, index, place, tag);
    }
    found
}

/// How many descriptors an index has.
fn count_of(index: &Value) -> usize
    ensures { (place : ℕ) → result ≤ place → option_and_then (at place) (get (codes "manifests") (view index.now)) ≡ None }
{
    match manifests_of(index) {
        Some(manifests) => manifests.len(),
        None => 0,
    }
}

/// The descriptors of an index.
fn manifests_of(index: &Value) -> Option<&Vec<Value>>
    ensures { option_map (λ v. items_view v.now.items) result ≡ option_and_then as_array (get (codes "manifests") (view index.now)) }
{
    index.get("manifests")?.as_array()
}

/// What is found with the descriptor at one place more.
fn with_place<'a>(found: Named<'a>, index: &'a Value, place: usize, tag: &str) -> Named<'a>
    requires { HoldsOf (IsTaggedBelow (view index.now) tag.now place) found }
    ensures { HoldsOf (IsTaggedBelow (view index.now) tag.now (place + 1)) result }
{
    match named_at(index, place, tag) {
        None => found,
        Some(digest) => match found {
            Named::Nothing => Named::One(digest),
            Named::One(_) => Named::Several,
            Named::Several => Named::Several,
        },
    }
}

/// The digest of the descriptor at a place of an index, if it has this name.
fn named_at<'a>(index: &'a Value, place: usize, tag: &str) -> Option<&'a str>
    ensures some { IfSome result (λ d. IsTaggedAt (view index.now) tag.now place d.now) }
    ensures none { result ≡ None → (digest : List ℕ) → ¬ IsTaggedAt (view index.now) tag.now place digest }
{
    let manifest = manifest_at(index, place)?;
    if ref_name_of(manifest)? != tag {
        return None;
    }
    digest_of(manifest)
}

/// The descriptor at a place of an index.
fn manifest_at(index: &Value, place: usize) -> Option<&Value>
    ensures { option_map (λ v. view v.now) result ≡ option_and_then (at place) (get (codes "manifests") (view index.now)) }
{
    index.get("manifests")?.get(place)
}

/// The name of a descriptor in an index.
fn ref_name_of(manifest: &Value) -> Option<&str>
    ensures { option_map (λ s. s.now) result ≡ ref_name (view manifest.now) }
{
    manifest.get("annotations")?.get(REF_NAME)?.as_str()
}

/// The digest of a descriptor.
fn digest_of(manifest: &Value) -> Option<&str>
    ensures { option_map (λ s. s.now) result ≡ digest_of (view manifest.now) }
{
    manifest.get("digest")?.as_str()
}
