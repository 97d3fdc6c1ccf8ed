//! What `check` is asked by the command line and the file of a folder.
use crate::colors::has_colors;
use crate::config::{Config, refuse_name};
use crate::files::SystemFiles;
use crate::folders::Documents;
use crate::line::{kind_in, lack_in, level_in, names_in, platform_in, style_in, unknown_in};
use crate::names::{fault_in, unknown_name};
use crate::words::Words;
use crate::{out_of_memory, policy_of, run_over, tell_usage};
use clap::ArgMatches;
use oci_commands::{Asked, Book, Check, Style, Unknown};
use oci_policies::{Bump, Policy};
use oci_rules::{Level, Rule};
use std::alloc::{AllocError, Global};

/// Whether no option has a value that is not UTF-8.
pub fn has_files_alone(given: &ArgMatches<'_>, words: &Words) -> bool {
    for option in ["policy", "ignore", "only"] {
        if let Some(values) = given.get_strs(option) {
            for value in values {
                if words.is_foreign(value) {
                    return false;
                }
            }
        }
    }
    true
}

/// Checks documents as they are asked to be, and returns the exit status.
pub fn check(rt: &HostRuntime, arena: &Bump, given: &ArgMatches<'_>, words: &Words) -> u8 {
    match asked_of(rt, arena, given) {
        Ok(asked) => check_files(rt, arena, given, asked, words),
        Err(status) => status,
    }
}

/// Checks the files that are named, and those in the folders that are.
fn check_files<'a>(
    rt: &HostRuntime,
    arena: &'a Bump,
    given: &ArgMatches<'_>,
    mut asked: Check<'a>,
    words: &Words,
) -> u8 {
    let names = given.get_strs("FILE").unwrap_or(&["-"]);
    let found = match Documents::of(rt, names, words) {
        Ok(found) => found,
        Err(_) => return out_of_memory(rt),
    };
    match found.names(arena, rt.alloc()) {
        Ok(files) => {
            asked.style = style_in(given, has_colors(rt, given));
            asked.files = files;
            let mut store = SystemFiles::without(rt, found.unreadable.as_slice());
            run_over(rt, &mut store, &Asked::Check(asked))
        }
        Err(_) => out_of_memory(rt),
    }
}

/// What is asked of documents, of no files yet and in no colors. The error is the exit status after what is wrong was said.
pub fn asked_of<'a>(
    rt: &HostRuntime,
    arena: &'a Bump,
    given: &ArgMatches<'_>,
) -> Result<Check<'a>, u8> {
    let config = if given.get_flag("no-config") {
        Config::none()
    } else {
        Config::find(rt, arena)?
    };
    let file = given.get_str("policy").or(config.policy);
    if let Some(lack) = lack_in(given, config.rules || file.is_some()) {
        tell_usage(rt, lack);
        return Err(2);
    }
    let policy = policy_of(rt, file, arena)?;
    refuse_names(rt, given, &config, rules_in(policy))?;
    match merged(given, &config, policy, arena, rt.alloc()) {
        Ok(asked) => Ok(asked),
        Err(_) => Err(out_of_memory(rt)),
    }
}

/// The rules of a policy, if there is one.
fn rules_in<'a>(policy: Option<Policy<'a>>) -> &'a [Rule<'a>] {
    match policy {
        Some(policy) => policy.rules(),
        None => &[],
    }
}

/// The same with the kinds of documents that they are for.
fn books_in<'a>(
    policy: Option<Policy<'a>>,
    arena: &'a Bump,
    alloc: Global,
) -> Result<&'a [Book<'a>], AllocError> {
    let Some(policy) = policy else {
        return Ok(&[]);
    };
    let mut books = Vec::new(alloc);
    for it in policy.books() {
        books.push(Book {
            kinds: it.kinds,
            rules: it.rules,
        })?;
    }
    Ok(arena.try_alloc_slice_copy(books.as_slice())?)
}

/// Says it if a rule is named that there is none of. The error is the exit status.
fn refuse_names(
    rt: &HostRuntime,
    given: &ArgMatches<'_>,
    config: &Config<'_>,
    policy: &[Rule<'_>],
) -> Result<(), u8> {
    match fault_in(given, policy, rt.alloc()) {
        Ok(None) => {}
        Ok(Some(fault)) => {
            tell_usage(rt, fault.as_str());
            return Err(2);
        }
        Err(_) => return Err(out_of_memory(rt)),
    }
    match unknown_name(config.only, config.ignore, policy, rt.alloc()) {
        Ok(None) => Ok(()),
        Ok(Some((member, name))) => Err(refuse_name(rt, config, member, name)),
        Err(_) => Err(out_of_memory(rt)),
    }
}

/// What is asked of no files and in no colours yet: what the command line says, or else the file of the folder.
fn merged<'a>(
    given: &ArgMatches<'_>,
    config: &Config<'a>,
    policy: Option<Policy<'a>>,
    arena: &'a Bump,
    alloc: Global,
) -> Result<Check<'a>, AllocError> {
    let level = level_in(given).or(config.level);
    let unknown = unknown_in(given).or(config.unknown);
    Ok(Check {
        kind: kind_in(given),
        rules: given.get_flag("rules") || config.rules,
        policy: books_in(policy, arena, alloc)?,
        level: level.unwrap_or(Level::Should),
        platform: platform_in(given),
        unknown: unknown.unwrap_or(Unknown::Allow),
        skip_unknown: given.get_flag("skip-unknown") || config.skip_unknown,
        strict: given.get_flag("strict") || config.strict,
        ignore: names_in(given, "ignore", config.ignore, arena, alloc)?,
        only: names_in(given, "only", config.only, arena, alloc)?,
        style: Style::Text,
        quiet: given.get_flag("quiet"),
        files: &[],
    })
}
