//! The places of a policy: JSON Pointers with steps to each item and member.
ghost use Rattle.std.specs.Prelude.{◌≡◌, ◌==◌, option_map, IfOk};
ghost use Rattle.std.specs.List.{slice_split};
ghost use Rattle.oci_rules.specs.Tables.{texts_of};
ghost use Rattle.oci_policies.specs.Places as places;
ghost use Rattle.oci_policies.specs.Steps.{step_view, steps_view};
ghost use Rattle.oci_policies.specs.Values.{Reads, all};
ghost use Rattle.toml.specs.View.{view};

use crate::error::{Fault, expected};
use crate::values::text;
use bumpalo::Bump;
use bumpalo::collections::into_bump_slice;
use oci_rules::Step;
use std::alloc::{AllocError, Global};
use toml::Value;

/// The texts between slashes.
fn between_slashes<'t>(text: &'t str, alloc: Global) -> Result<Vec<&'t str>, AllocError>
    ensures { IfOk result (λ v. texts_of v.items ≡ slice_split (λ b. b == 47) text.now) }
{
    let parts: Vec<&str> = text.split('/').collect(alloc)?;
    Ok(parts)
}

/// The text after the slash with which it begins.
fn behind_slash(text: &str) -> Option<&str>
    ensures { option_map (λ t. t.now) result ≡ places.behind_slash text.now }
{
    text.strip_prefix('/')
}

/// The parts of a pointer.
fn parts<'t>(key: &'static str, text: &'t str, alloc: Global) -> Result<Vec<&'t str>, Fault>
    ensures { Reads (λ v. texts_of v.items) result (places.parts_of text.now) }
{
    if text.is_empty() {
        return Ok(Vec::new(alloc));
    }
    match behind_slash(text) {
        Some(rest) => Ok(between_slashes(rest, alloc)?),
        None => Err(expected(key, "a place, as `/process/args/*`")),
    }
}

fn has_tilde(part: &str) -> bool
    ensures { result ≡ places.has_tilde part.now }
{
    part.as_bytes().contains(&b'~')
}

/// The name of a member that a part of a pointer is, if it is one.
fn member_name(part: &str) -> Option<&str>
    ensures { option_map (λ t. t.now) result ≡ places.name_of part.now }
{
    if has_tilde(part) || part == "*" || part == "{}" || part == "{name}" {
        None
    } else {
        Some(part)
    }
}

/// The name of a member, in the arena.
fn name<'a>(arena: &'a Bump, key: &'static str, part: &str) -> Result<&'a str, Fault>
    ensures { Reads (λ t. t.now) result (places.name_of part.now) }
{
    match member_name(part) {
        Some(name) => Ok(arena.try_alloc_str(name)?),
        None => Err(expected(key, "the names of members, with no `~`")),
    }
}

#[tactic(auto, unfolding(crate::specs::Places::step_of, crate::specs::Steps::step_view))]
fn step<'a>(arena: &'a Bump, key: &'static str, part: &str) -> Result<Step<'a>, Fault>
    ensures { Reads step_view result (places.step_of part.now) }
{
    match part {
        "*" => Ok(Step::EachItem),
        "{}" => Ok(Step::EachMember),
        "{name}" => Ok(Step::EachName),
        _ => Ok(Step::Member(name(arena, key, part)?)),
    }
}

/// A way of names.
pub(crate) fn way<'a>(
    arena: &'a Bump,
    key: &'static str,
    value: &Value,
    alloc: Global,
) -> Result<&'a [&'a str], Fault>
    ensures { Reads (λ ts. texts_of ts.now) result (places.way_in (view value.now)) }
{
    let parts = parts(key, text(key, value)?, alloc)?;
    names(arena, key, &parts)
}

#[tactic(auto, using(crate::proofs::Lists::behind_nothing, crate::proofs::Lists::behind_more))]
fn names<'a>(arena: &'a Bump, key: &'static str, parts: &Vec<&str>) -> Result<&'a [&'a str], Fault>
    ensures { Reads (λ ts. texts_of ts.now) result (all places.name_of (texts_of parts.now.items)) }
{
    let mut names = Vec::new(arena);
    for part in parts {
        names.push(name(arena, key, part)?)?;
    }
    Ok(into_bump_slice(names))
}

/// The steps of a place, from its text.
pub(crate) fn steps_of<'a>(
    arena: &'a Bump,
    key: &'static str,
    text: &str,
    alloc: Global,
) -> Result<Vec<Step<'a>>, Fault>
    ensures { Reads (λ v. steps_view v.items) result (places.steps_of text.now) }
{
    let parts = parts(key, text, alloc)?;
    each_step(arena, key, &parts, alloc)
}

#[tactic(auto, using(crate::proofs::Lists::behind_nothing, crate::proofs::Lists::behind_more))]
fn each_step<'a>(
    arena: &'a Bump,
    key: &'static str,
    parts: &Vec<&str>,
    alloc: Global,
) -> Result<Vec<Step<'a>>, Fault>
    ensures { Reads (λ v. steps_view v.items) result (all places.step_of (texts_of parts.now.items)) }
{
    let mut steps = Vec::new(alloc);
    for part in parts {
        steps.push(step(arena, key, part)?)?;
    }
    Ok(steps)
}

/// The steps of a place.
pub(crate) fn steps<'a>(
    arena: &'a Bump,
    key: &'static str,
    value: &Value,
    alloc: Global,
) -> Result<Vec<Step<'a>>, Fault>
    ensures { Reads (λ v. steps_view v.items) result (places.steps_in (view value.now)) }
{
    steps_of(arena, key, text(key, value)?, alloc)
}
