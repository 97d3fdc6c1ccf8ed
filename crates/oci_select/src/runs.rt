//! The platforms that run on a platform, best first.
ghost use Rattle.std.specs.Prelude.{◌≡◌, ◌++◌, map, IfOk, OnOk};
ghost use Rattle.oci_select.specs.Normal.{lower, named};
ghost use Rattle.oci_select.specs.Runs.{amd64_variants, arm_variants, arm_of_arm64, behind, of_variants, on_amd64, arms, others_on, runs_on};
ghost use Rattle.oci_select.specs.Told.{texts, told};

use crate::normal::{Alias, PlatformNames, is_name, meaning};
use std::alloc::{AllocError, Global};

static AMD64_VARIANTS: [&str; 4] = ["v4", "v3", "v2", ""];

static ARM_VARIANTS: [&str; 5] = ["v9", "v8", "v7", "v6", "v5"];

static ARM_OF_ARM64: [Alias; 4] = [
    Alias {
        name: "",
        meaning: "v8",
    },
    Alias {
        name: "5",
        meaning: "v5",
    },
    Alias {
        name: "6",
        meaning: "v6",
    },
    Alias {
        name: "7",
        meaning: "v7",
    },
];

/// What follows a variant in a list.
fn behind<'v>(variants: &'v [&'static str], variant: &str) -> &'v [&'static str]
    ensures { texts result.now ≡ behind (texts variants.now) (lower variant.now) }
{
    for i in 0..variants.len() {
        if is_name(variant, variants[i]) {
            return &variants[i + 1..];
        }
    }
    &[]
}

/// The variants of amd64 that run on this one too.
#[tactic(auto, unfolding(crate::specs::Runs::amd64_variants))]
fn behind_amd64(variant: &str) -> &'static [&'static str]
    ensures { texts result.now ≡ behind amd64_variants (lower variant.now) }
{
    behind(&AMD64_VARIANTS, variant)
}

/// The variants of arm that run on this one too.
#[tactic(auto, unfolding(crate::specs::Runs::arm_variants))]
fn behind_arm(variant: &str) -> &'static [&'static str]
    ensures { texts result.now ≡ behind arm_variants (lower variant.now) }
{
    behind(&ARM_VARIANTS, variant)
}

/// The variant of arm that runs on one of arm64.
#[tactic(auto, using(crate::proofs::Tables::told_or), unfolding(crate::specs::Runs::arm_of_arm64))]
fn arm_of_arm64(variant: &str) -> &str
    ensures { lower result.now ≡ named arm_of_arm64 (lower variant.now) }
{
    meaning(variant, &ARM_OF_ARM64).unwrap_or(variant)
}

/// Adds the platforms of a system and an architecture with each of these variants. Fails if out of memory.
fn add_variants<'a>(
    list: &mut Vec<PlatformNames<'a>>,
    os: &'a str,
    architecture: &'a str,
    variants: &[&'static str],
) -> Result<(), AllocError>
    ensures { OnOk result (map told list.new.items ≡ map told list.old.items ++ of_variants (lower os.now) (lower architecture.now) (texts variants.now)) }
{
    for variant in variants {
        list.push(PlatformNames {
            os,
            architecture,
            variant,
        })?;
    }
    Ok(())
}

/// Adds an arm of this variant, and those that run on it too. Fails if out of memory.
fn add_arms<'a>(
    list: &mut Vec<PlatformNames<'a>>,
    os: &'a str,
    variant: &'a str,
) -> Result<(), AllocError>
    ensures { OnOk result (map told list.new.items ≡ map told list.old.items ++ arms (lower os.now) (lower variant.now)) }
{
    let architecture = "arm";
    list.push(PlatformNames {
        os,
        architecture,
        variant,
    })?;
    add_variants(list, os, architecture, behind_arm(variant))
}

/// Adds what runs on an amd64 beside its own platform. Fails if out of memory.
fn add_for_amd64<'a>(
    list: &mut Vec<PlatformNames<'a>>,
    os: &'a str,
    variant: &'a str,
) -> Result<(), AllocError>
    ensures { OnOk result (map told list.new.items ≡ map told list.old.items ++ on_amd64 (lower os.now) (lower variant.now)) }
{
    add_variants(list, os, "amd64", behind_amd64(variant))?;
    add_variants(list, os, "386", &[""])
}

/// Adds what runs on a platform beside its own. Fails if out of memory.
fn add_others<'a>(
    list: &mut Vec<PlatformNames<'a>>,
    names: PlatformNames<'a>,
) -> Result<(), AllocError>
    ensures { OnOk result (map told list.new.items ≡ map told list.old.items ++ others_on (told names.entry)) }
{
    if is_name(names.architecture, "amd64") {
        add_for_amd64(list, names.os, names.variant)
    } else if is_name(names.architecture, "arm64") {
        add_arms(list, names.os, arm_of_arm64(names.variant))
    } else if is_name(names.architecture, "arm") {
        add_variants(list, names.os, "arm", behind_arm(names.variant))
    } else {
        Ok(())
    }
}

/// The platforms that run on one, best first. Fails if out of memory.
pub(crate) fn runs_on<'a>(
    alloc: Global,
    names: PlatformNames<'a>,
) -> Result<Vec<PlatformNames<'a>>, AllocError>
    ensures { IfOk result (λ v. map told v.items ≡ runs_on (told names.entry)) }
{
    let mut list = Vec::new(alloc);
    list.push(names)?;
    add_others(&mut list, names)?;
    Ok(list)
}
