//! The names of rules that the command line may give.
use crate::rules::Specifications;
use clap::ArgMatches;
use oci_agreement::AGREEMENTS;
use oci_base::escaped;
use oci_commands::nearest::{add_names, add_rules, nearest};
use oci_rules::Rule;
use std::alloc::{AllocError, Global};

/// The rule on compressed layers, beside their DiffIDs.
const LAYERS: &str = "layer-archive";

/// What can be ignored beside rules of the specifications and of a policy.
const OTHERS: [&str; 3] = ["schema", "unknown", "repeated"];

/// What is wrong with the names of rules that are given with `--ignore` and `--only`, if anything is. Fails if out of memory.
pub fn fault_in(
    given: &ArgMatches<'_>,
    policy: &[Rule<'_>],
    alloc: Global,
) -> Result<Option<String>, AllocError> {
    if given.get_strs("ignore").is_none() && given.get_strs("only").is_none() {
        return Ok(None);
    }
    let mut known = names_of(policy, alloc)?;
    if let Some(fault) = fault_of(given, "only", &known, alloc)? {
        return Ok(Some(fault));
    }
    for name in OTHERS {
        known.push(name)?;
    }
    fault_of(given, "ignore", &known, alloc)
}

/// The first of the names in the file of a folder, `only` and `ignore`, that is no rule's, with the member. Fails if out of memory.
pub fn unknown_name<'n>(
    only: &[&'n str],
    ignore: &[&'n str],
    policy: &[Rule<'_>],
    alloc: Global,
) -> Result<Option<(&'static str, &'n str)>, AllocError> {
    if only.is_empty() && ignore.is_empty() {
        return Ok(None);
    }
    let known = names_of(policy, alloc)?;
    for name in only {
        if !is_in(&known, name) {
            return Ok(Some(("only", *name)));
        }
    }
    for name in ignore {
        if !is_in(&known, name) && !is_in(&OTHERS, name) {
            return Ok(Some(("ignore", *name)));
        }
    }
    Ok(None)
}

/// Whether it is one of these names.
fn is_in(names: &[&str], name: &str) -> bool {
    for other in names {
        if *other == name {
            return true;
        }
    }
    false
}

/// The same of an option, of which these names are known.
fn fault_of(
    given: &ArgMatches<'_>,
    option: &str,
    known: &Vec<&str>,
    alloc: Global,
) -> Result<Option<String>, AllocError> {
    let Some(names) = given.get_strs(option) else {
        return Ok(None);
    };
    for name in names {
        if !known.contains(name) {
            return Ok(Some(fault_text(option, name, known, alloc)?));
        }
    }
    Ok(None)
}

/// The names of all rules of the specifications, also of those on documents that belong together, and of those of a policy.
fn names_of<'a>(policy: &'a [Rule<'_>], alloc: Global) -> Result<Vec<&'a str>, AllocError> {
    let mut names = Vec::new(alloc);
    add_rules(&Specifications, &mut names, alloc)?;
    add_names(policy, &mut names)?;
    for agreement in AGREEMENTS {
        names.push(agreement.description().name)?;
    }
    names.push(LAYERS)?;
    Ok(names)
}

/// What is wrong with a name that is not known, in clap's words.
fn fault_text(
    option: &str,
    name: &str,
    known: &Vec<&str>,
    alloc: Global,
) -> Result<String, AllocError> {
    let shown = escaped(name, alloc)?;
    let why = reason_for(option, name);
    match nearest(name, known, alloc)? {
        Some(near) => format!(in alloc;
            "invalid value '{shown}' for '--{option} <RULE>': {why}\n\n  tip: a similar value exists: '{near}'"
        ),
        None => format!(in alloc; "invalid value '{shown}' for '--{option} <RULE>': {why}"),
    }
}

/// Why a name cannot be given with an option.
fn reason_for(option: &str, name: &str) -> &'static str {
    match (option, name) {
        ("ignore", "json" | "kind") =>
            "what is no JSON, or of no kind that is known, is not checked",
        ("only", "json" | "kind" | "schema" | "unknown" | "repeated") => {
            "it is no rule of a specification or policy"
        }
        _ => "no rule has this name",
    }
}
