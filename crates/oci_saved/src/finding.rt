//! What is said of an archive that `docker save` wrote, for people.
ghost use Rattle.std.specs.Prelude.{◌≡◌, ◌++◌, ◌∷◌, [], map, IfOk, OnOk};
ghost use Rattle.oci_findings.specs.Findings.{rule_name};
ghost use Rattle.oci_saved.specs.Rules.{item_rule_name, saved_rule_name};

use crate::document::Unread;
use crate::fault::{ItemFault, SavedFault};
use crate::files::Judged;
use oci_content::Verdict;
use oci_findings::{Cause, Finding, Severity};
use oci_rules::{Level, Platforms, Rule, Test};
use oci_schema::Violation;
use std::alloc::{AllocError, Global};

/// Where the format is described.
const SECTION: &str = "docker save";

static MANIFEST: Rule<'static> = Rule {
    name: "saved-manifest",
    level: Level::Stated,
    section: SECTION,
    wanted: "an array of images, each with a path in Config, and with strings in RepoTags and Layers",
    platforms: Platforms::Every,
    place: &[],
    test: Test::NotEmpty,
};

static CONFIG: Rule<'static> = Rule {
    name: "saved-config",
    level: Level::Stated,
    section: SECTION,
    wanted: "an image configuration that is named after its SHA-256 digest",
    platforms: Platforms::Every,
    place: &[],
    test: Test::NotEmpty,
};

static COUNT: Rule<'static> = Rule {
    name: "saved-layers-count",
    level: Level::Stated,
    section: SECTION,
    wanted: "a layer for each DiffID of the configuration",
    platforms: Platforms::Every,
    place: &[],
    test: Test::NotEmpty,
};

static LAYER: Rule<'static> = Rule {
    name: "saved-layer",
    level: Level::Stated,
    section: SECTION,
    wanted: "a layer whose digest is the DiffID at this place",
    platforms: Platforms::Every,
    place: &[],
    test: Test::NotEmpty,
};

/// A finding on `manifest.json` for each violation, in their order, with the place in `manifest.json` that it is about. Fails if out of memory.
pub fn saved_findings(
    faults: &[SavedFault],
    alloc: Global,
) -> Result<Vec<Finding<'static>>, AllocError>
    ensures { IfOk result (λ v. map (λ f. rule_name f.cause) v.items ≡ map saved_rule_name faults.now) }
{
    let mut found = Vec::new(alloc);
    'each: for fault in faults {
        let finding = finding_of(fault, alloc)?;
        found.push(finding)?;
    }
    Ok(found)
}

fn finding_of(fault: &SavedFault, alloc: Global) -> Result<Finding<'static>, AllocError>
    ensures { IfOk result (λ f. rule_name f.cause ≡ saved_rule_name fault.now) }
{
    let pointer = pointer_of(fault, alloc)?;
    let found = found_text(fault, alloc)?;
    Ok(Finding {
        pointer,
        cause: Cause::Rule(rule_of(fault), Some(found)),
        severity: Severity::Error,
    })
}

fn rule_of(fault: &SavedFault) -> &'static Rule<'static>
    ensures { result.now.name.now ≡ saved_rule_name fault.now }
{
    match fault {
        SavedFault::Manifest(_) | SavedFault::NoArray => &MANIFEST,
        SavedFault::Item(_, fault) => item_rule(fault),
    }
}

fn item_rule(fault: &ItemFault) -> &'static Rule<'static>
    ensures { result.now.name.now ≡ item_rule_name fault.now }
{
    match fault {
        ItemFault::NoItem => &MANIFEST,
        ItemFault::Config(_) | ItemFault::Name(_) | ItemFault::Schema(_) => &CONFIG,
        ItemFault::Count(_, _) => &COUNT,
        ItemFault::Layer(_, _) => &LAYER,
    }
}

/// Where a violation is in `manifest.json`, as a JSON pointer.
fn pointer_of(fault: &SavedFault, alloc: Global) -> Result<String, AllocError> {
    match fault {
        SavedFault::Manifest(_) | SavedFault::NoArray => Ok(String::new(alloc)),
        SavedFault::Item(at, fault) => item_pointer(*at, fault, alloc),
    }
}

fn item_pointer(at: usize, fault: &ItemFault, alloc: Global) -> Result<String, AllocError> {
    match fault {
        ItemFault::NoItem => format!(in alloc; "/{at}"),
        ItemFault::Config(_) | ItemFault::Name(_) | ItemFault::Schema(_) => {
            format!(in alloc; "/{at}/Config")
        }
        ItemFault::Count(_, _) => format!(in alloc; "/{at}/Layers"),
        ItemFault::Layer(place, _) => format!(in alloc; "/{at}/Layers/{place}"),
    }
}

/// What was found.
fn found_text(fault: &SavedFault, alloc: Global) -> Result<String, AllocError> {
    match fault {
        SavedFault::Manifest(why) => unread_text(why, alloc),
        SavedFault::NoArray => String::from_str(alloc, "no array"),
        SavedFault::Item(_, fault) => item_text(fault, alloc),
    }
}

fn item_text(fault: &ItemFault, alloc: Global) -> Result<String, AllocError> {
    match fault {
        ItemFault::NoItem => String::from_str(alloc, "another value"),
        ItemFault::Config(why) => unread_text(why, alloc),
        ItemFault::Name(name) => format!(in alloc; "the digest of {name}"),
        ItemFault::Schema(violations) => violation_text(violations, alloc),
        ItemFault::Count(layers, ids) => { format!(in alloc; "{layers} layers and {ids} DiffIDs") }
        ItemFault::Layer(_, judged) => judged_text(judged, alloc),
    }
}

/// The first violation.
fn violation_text(violations: &Vec<Violation>, alloc: Global) -> Result<String, AllocError> {
    match violations.first() {
        Some(violation) => violation.to_string(alloc),
        None => String::from_str(alloc, "no configuration"),
    }
}

fn unread_text(why: &Unread, alloc: Global) -> Result<String, AllocError> {
    match why {
        Unread::Missing => String::from_str(alloc, "no file"),
        Unread::Unreadable(why) => format!(in alloc; "a file that cannot be read: {why}"),
        Unread::TooLarge => String::from_str(alloc, "a file of more than 4 MiB"),
        Unread::NoJson => String::from_str(alloc, "a file that is not JSON"),
    }
}

fn judged_text(judged: &Judged, alloc: Global) -> Result<String, AllocError> {
    match judged {
        Judged::Missing => String::from_str(alloc, "no file"),
        Judged::Unreadable(why) => format!(in alloc; "a file that cannot be read: {why}"),
        Judged::Content(verdict) => verdict_text(verdict, alloc),
    }
}

fn verdict_text(verdict: &Verdict, alloc: Global) -> Result<String, AllocError> {
    match verdict {
        Verdict::Same => String::from_str(alloc, "that digest"),
        Verdict::OtherDigest(sum) => sum.text(alloc),
        Verdict::Shorter(_) | Verdict::Longer => {
            String::from_str(alloc, "a file of another size than the archive says")
        }
        Verdict::Unjudged => String::from_str(alloc, "a DiffID by an unknown algorithm"),
    }
}
