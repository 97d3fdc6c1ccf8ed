//! What descriptors of one content say of it.
ghost use Rattle.std.specs.Prelude.{◌≡◌, ◌↔◌, ◌++◌, [], ℕ, List, map, option_map, codes, IfOk, OnOk};
ghost use Rattle.serde_json.specs.View.{view};
ghost use Rattle.oci_rules.specs.Parts.{natural_at};
ghost use Rattle.oci_agreement.specs.Described.{described_descriptors, description_of};
ghost use Rattle.oci_agreement.specs.Descriptors as descriptors;
ghost use Rattle.oci_agreement.specs.Descriptors.{mention_of, mention_in, conflict_of, conflict_at, conflicts, with_one, AllAgree};
ghost use Rattle.oci_agreement.specs.Firsts.{said_in, IsFirst};

use crate::agreement::Description;
use crate::parts::text_at;
use oci_rules::Level;
use serde_json::Value;
use std::alloc::{AllocError, Global};
use std::collections::BTreeMap;

/// What descriptors with one digest agree on.
#[derive(Clone, Copy, Debug, PartialEq, Eq)]
pub enum DescriptorAgreement {
    /// They say one size.
    Sizes,
    /// They say one media type.
    Types,
}

impl DescriptorAgreement {
    /// Its name, its level, and where it is stated.
    pub fn description(self) -> Description
        ensures { description_of result ≡ described_descriptors self }
    {
        match self {
            DescriptorAgreement::Sizes => Description {
                name: "descriptor-sizes-same",
                level: Level::Stated,
                section: "image descriptor.md#properties",
                wanted: "the size that another descriptor says of this digest",
            },
            DescriptorAgreement::Types => Description {
                name: "descriptor-types-same",
                level: Level::Host,
                section: "image media-types.md#media-type-conflicts",
                wanted: "the media type that another descriptor says of this digest",
            },
        }
    }
}

/// What a descriptor says of its content.
#[derive(Clone, Copy, Debug, PartialEq, Eq)]
pub struct Mention<'a> {
    pub digest: &'a str,
    pub media_type: &'a str,
    pub size: u64,
}

impl<'a> Mention<'a> {
    /// What a descriptor says, where it says all of it.
    pub fn of(descriptor: &'a Value) -> Option<Mention<'a>>
        ensures { option_map mention_of result ≡ mention_in (view descriptor.now) }
    {
        let digest = text_at(descriptor, "digest")?;
        let media_type = text_at(descriptor, "mediaType")?;
        let size = size_of(descriptor)?;
        Some(Mention {
            digest,
            media_type,
            size,
        })
    }
}

fn size_of(descriptor: &Value) -> Option<u64>
    ensures { result ≡ natural_at (codes "size") (view descriptor.now) }
{
    match descriptor.get("size") {
        Some(size) => size.as_u64(),
        None => None,
    }
}

/// A descriptor that says something else than the first one with its digest.
#[derive(Clone, Copy, Debug, PartialEq, Eq)]
pub struct Conflict<'a> {
    /// Its place among the descriptors.
    pub place: usize,
    /// What the first one says.
    pub first: Mention<'a>,
}

/// The descriptors that say something else than the first one with their digest, in order. None is listed exactly where all descriptors
/// with one digest agree. Fails if out of memory.
pub fn conflicting<'a>(
    agreement: DescriptorAgreement,
    mentions: &[Mention<'a>],
    alloc: Global,
) -> Result<Vec<Conflict<'a>>, AllocError>
    ensures all { IfOk result (λ v. map conflict_of v.items ≡ conflicts agreement (map mention_of mentions.now) 0 (map mention_of mentions.now)) }
    ensures none { IfOk result (λ v. (v.items ≡ []) ↔ AllAgree agreement (map mention_of mentions.now)) }
{
    let first = first_of_each(mentions, alloc)?;
    let mut found = Vec::new(alloc);
    add_conflicts(agreement, mentions, &first, &mut found)?;
    Ok(found)
}

/// The first one with each digest.
fn first_of_each<'a>(
    mentions: &[Mention<'a>],
    alloc: Global,
) -> Result<BTreeMap<String, Mention<'a>>, AllocError>
    ensures { IfOk result (λ m. IsFirst m (map mention_of mentions.now)) }
{
    let mut first = BTreeMap::new(alloc);
    for mention in mentions {
        add_first(mention, &mut first, alloc)?;
    }
    Ok(first)
}

/// Adds one, unless its digest is there.
fn add_first<'a>(
    mention: &Mention<'a>,
    first: &mut BTreeMap<String, Mention<'a>>,
    alloc: Global,
) -> Result<(), AllocError>
    ensures { OnOk result ((q : List ℕ) → said_in first.new q ≡ with_one (mention_of mention.now) q (said_in first.old q)) }
{
    if first.contains_key(mention.digest) {
        return Ok(());
    }
    let digest = String::from_str(alloc, mention.digest)?;
    drop(first.insert(digest, *mention)?);
    Ok(())
}

fn add_conflicts<'a>(
    agreement: DescriptorAgreement,
    mentions: &[Mention<'a>],
    first: &BTreeMap<String, Mention<'a>>,
    found: &mut Vec<Conflict<'a>>,
) -> Result<(), AllocError>
    ensures { OnOk result ((all : List descriptors.Mention) → IsFirst first.now all
        → map conflict_of found.new.items ≡ map conflict_of found.old.items ++ conflicts agreement all 0 (map mention_of mentions.now)) }
{
    for (place, mention) in mentions.iter().enumerate() {
        let said = first.get(mention.digest).copied();
        add_conflict(agreement, place, said, mention, found)?;
    }
    Ok(())
}

/// Adds one that says something else than the first one with its digest.
fn add_conflict<'a>(
    agreement: DescriptorAgreement,
    place: usize,
    first: Option<Mention<'a>>,
    mention: &Mention<'a>,
    found: &mut Vec<Conflict<'a>>,
) -> Result<(), AllocError>
    ensures { OnOk result (map conflict_of found.new.items ≡ map conflict_of found.old.items ++ conflict_at agreement place (option_map mention_of first.entry) (mention_of mention.now)) }
{
    match first {
        Some(first) => {
            if !is_same(agreement, &first, mention) {
                found.push(Conflict { place, first })?;
            }
            Ok(())
        }
        None => Ok(()),
    }
}

fn is_same(agreement: DescriptorAgreement, one: &Mention<'_>, other: &Mention<'_>) -> bool
    ensures { result ≡ descriptors.is_same agreement (mention_of one.now) (mention_of other.now) }
{
    match agreement {
        DescriptorAgreement::Sizes => one.size == other.size,
        DescriptorAgreement::Types => one.media_type == other.media_type,
    }
}
