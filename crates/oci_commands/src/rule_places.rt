//! Where rules are asked, and on which platforms.
ghost use Rattle.std.specs.Prelude.{◌≡◌, ◌++◌, map, codes, if◌then◌else◌, IfOk, OnOk, string_bytes};
ghost use Rattle.oci_findings.specs.Wording.{marked};
ghost use Rattle.oci_rules.specs.Rules.{Place};
ghost use Rattle.oci_rules.specs.Tables.{place_of, place_step, platform_of, platforms_of, rule_of};
ghost use Rattle.oci_commands.specs.RuleTexts.{each_once, path_text, place_line as place_line_of, place_text as place_text_of, platform_word, platforms_text};

use crate::books::add_new;
use oci_rules::{Platforms, Rule, RuntimePlatform, Step};
use std::alloc::{AllocError, Global};

/// All platforms.
static PLATFORMS: [RuntimePlatform; 6] = [
    RuntimePlatform::Linux,
    RuntimePlatform::Windows,
    RuntimePlatform::Solaris,
    RuntimePlatform::Vm,
    RuntimePlatform::Zos,
    RuntimePlatform::FreeBsd,
];

/// The place of a rule, with a slash before each step: `*` is each item of an array, `{}` each member of an object, and `{name}` the
/// name of each. That of the whole document is empty.
pub fn place_text(rule: &Rule<'_>, alloc: Global) -> Result<String, AllocError>
    ensures { IfOk result (λ t. string_bytes t ≡ place_text_of (place_of rule.now.place.now)) }
{
    let mut text = String::new(alloc);
    for step in rule.place {
        push_step(&mut text, step)?;
    }
    Ok(text)
}

fn push_step(text: &mut String, step: &Step<'_>) -> Result<(), AllocError>
    ensures { OnOk result ((p : Place) → string_bytes text.new ++ place_text_of p ≡ string_bytes text.old ++ place_text_of (place_step step.now p)) }
{
    match step {
        Step::Member(name) => {
            text.push_str("/")?;
            text.push_str(name)
        }
        Step::EachItem => text.push_str("/*"),
        Step::EachMember => text.push_str("/{}"),
        Step::EachName => text.push_str("/{name}"),
        Step::When(_) => Ok(()),
    }
}

/// The line of a rule's place, and of the platforms that it is for, unless it is for all of them.
pub fn place_line(rule: &Rule<'_>, alloc: Global) -> Result<String, AllocError>
    ensures { IfOk result (λ t. string_bytes t ≡ place_line_of (rule_of rule.now)) }
{
    let place = place_text(rule, alloc)?;
    let path = path_of(place.as_str());
    let platforms = platforms_shown(&rule.platforms, alloc)?;
    format!(in alloc; "    at {path}{platforms}\n")
}

fn path_of(place: &str) -> &str
    ensures { result.now ≡ path_text place.now }
{
    if place.is_empty() { "/" } else { place }
}

/// The platforms that are named in a line; nothing if they are all.
fn platforms_shown(platforms: &Platforms<'_>, alloc: Global) -> Result<String, AllocError>
    ensures { IfOk result (λ t. string_bytes t ≡ platforms_text (platforms_of platforms.now)) }
{
    match platforms {
        Platforms::These(some) if some.len() < PLATFORMS.len() => listed_platforms(some, alloc),
        _ => Ok(String::new(alloc)),
    }
}

fn listed_platforms(platforms: &[RuntimePlatform], alloc: Global) -> Result<String, AllocError>
    ensures { IfOk result (λ t. string_bytes t ≡ marked (codes " on ") (map platform_word (map platform_of platforms.now))) }
{
    let mut text = String::new(alloc);
    let mut first = true;
    for platform in platforms {
        text.push_str(mark_before(first))?;
        text.push_str(word_of(*platform))?;
        first = false;
    }
    Ok(text)
}

/// What is before the first platform, or before another one.
fn mark_before(first: bool) -> &'static str
    ensures { result.now ≡ if first then codes " on " else codes ", " }
{
    if first { " on " } else { ", " }
}

/// The word for a platform.
fn word_of(platform: RuntimePlatform) -> &'static str
    ensures { result.now ≡ platform_word (platform_of platform) }
{
    platform.word()
}

/// Adds the words for platforms, as far as they are new.
pub fn add_platforms(
    words: &mut Vec<String>,
    platforms: &Platforms<'_>,
    alloc: Global,
) -> Result<(), AllocError>
    ensures { OnOk result (map string_bytes words.new.items ≡ each_once (map string_bytes words.old.items) (map platform_word (platforms_of platforms.now))) }
{
    match platforms {
        Platforms::Every => add_words(words, &PLATFORMS, alloc),
        Platforms::These(some) => add_words(words, some, alloc),
    }
}

fn add_words(
    words: &mut Vec<String>,
    platforms: &[RuntimePlatform],
    alloc: Global,
) -> Result<(), AllocError>
    ensures { OnOk result (map string_bytes words.new.items ≡ each_once (map string_bytes words.old.items) (map platform_word (map platform_of platforms.now))) }
{
    for platform in platforms {
        let word = String::from_str(alloc, word_of(*platform))?;
        add_new(words, word)?;
    }
    Ok(())
}
