//! What breaks rules in a value.
ghost use Rattle.std.specs.Prelude.{◌≡◌, ◌↔◌, ◌∷◌, ◌++◌, [], map, IfOk, OnOk};
ghost use Rattle.std.specs.List.{Contains};
ghost use Rattle.serde_json.specs.View.{view, items_view, members_view};
ghost use Rattle.oci_schema.specs.EachPart.{of_each, of_each_member};
ghost use Rattle.oci_schema.specs.Places as places;
ghost use Rattle.oci_rules.specs.Breaks.{Told, Breaks, KeepsAll};
ghost use Rattle.oci_rules.specs.Platforms.{is_for as is_among, is_platform};
ghost use Rattle.oci_rules.specs.Listed.{all_broken, when, shown_at, told_of, of_each_name, told_at, told_by};
ghost use Rattle.oci_rules.specs.Tables.{told, rule_of, test_of, place_of, platform_of, platforms_of};

use crate::conditions::holds;
use crate::items::{add_items_broken, push};
use crate::parts::present;
use crate::passes::passes;
use crate::rule::{Broken, Platforms, Rule, RuntimePlatform, Step, Test};
use oci_schema::place::Place;
use serde_json::{Map, Value};
use std::alloc::{AllocError, Global};

/// A rule, and the document of which it is asked.
#[derive(Clone, Copy)]
struct Asked<'a, 'd> {
    rule: &'a Rule<'a>,
    document: &'d Value,
}

/// What breaks the rules for the platform in the value, rule by rule and part by part. Fails if out of memory, or if a regular expression
/// of a rule takes too much of it.
pub fn broken<'a>(
    rules: &'a [Rule<'a>],
    platform: RuntimePlatform,
    value: &Value,
    alloc: Global,
) -> Result<Vec<Broken<'a>>, AllocError>
    ensures all { IfOk result (λ v. map told v.items ≡ all_broken (map rule_of rules.now) (platform_of platform) (view value.now)) }
    ensures listed { IfOk result (λ v. (x : Told) → Contains (map told v.items) x ↔ Breaks (map rule_of rules.now) (platform_of platform) (view value.now) x) }
    ensures none { IfOk result (λ v. (v.items ≡ []) ↔ KeepsAll (map rule_of rules.now) (platform_of platform) (view value.now)) }
{
    let mut found = Vec::new(alloc);
    add_rules(rules, platform, value, &mut found, alloc)?;
    Ok(found)
}

fn add_rules<'a>(
    rules: &'a [Rule<'a>],
    platform: RuntimePlatform,
    value: &Value,
    found: &mut Vec<Broken<'a>>,
    alloc: Global,
) -> Result<(), AllocError>
    ensures { OnOk result (map told found.new.items ≡ map told found.old.items ++ all_broken (map rule_of rules.now) (platform_of platform) (view value.now)) }
{
    for rule in rules {
        add_rule(rule, platform, value, found, alloc)?;
    }
    Ok(())
}

fn add_rule<'a>(
    rule: &'a Rule<'a>,
    platform: RuntimePlatform,
    value: &Value,
    found: &mut Vec<Broken<'a>>,
    alloc: Global,
) -> Result<(), AllocError>
    ensures { OnOk result (map told found.new.items ≡ map told found.old.items ++ when (is_among (platform_of platform) (platforms_of rule.now.platforms)) (told_of (rule_of rule.now) (view value.now))) }
{
    if is_for(platform, &rule.platforms) {
        let asked = Asked {
            rule,
            document: value,
        };
        add_at(rule.place, asked, value, &Place::Root, found, alloc)
    } else {
        Ok(())
    }
}

/// Whether the platform is one of those of a rule.
#[tactic(auto, using(crate::proofs::AllPlatforms::each_is_one))]
fn is_for(platform: RuntimePlatform, platforms: &Platforms<'_>) -> bool
    ensures { result ≡ is_among (platform_of platform) (platforms_of platforms.now) }
{
    match platforms {
        Platforms::Every => true,
        Platforms::These(listed) => is_listed(platform, listed),
    }
}

/// Whether the platform is one of these.
fn is_listed(platform: RuntimePlatform, platforms: &[RuntimePlatform]) -> bool
    ensures { result ≡ is_among (platform_of platform) (map platform_of platforms.now) }
{
    for other in platforms {
        if is_same(platform, *other) {
            return true;
        }
    }
    false
}

fn is_same(platform: RuntimePlatform, other: RuntimePlatform) -> bool
    ensures { result ≡ is_platform (platform_of platform) (platform_of other) }
{
    match (platform, other) {
        (RuntimePlatform::Linux, RuntimePlatform::Linux)
        | (RuntimePlatform::Windows, RuntimePlatform::Windows)
        | (RuntimePlatform::Solaris, RuntimePlatform::Solaris)
        | (RuntimePlatform::Vm, RuntimePlatform::Vm)
        | (RuntimePlatform::Zos, RuntimePlatform::Zos)
        | (RuntimePlatform::FreeBsd, RuntimePlatform::FreeBsd) => true,
        _ => false,
    }
}

/// Adds that the part does not pass, at the place that is shown of it.
fn add_shown<'a>(
    rule: &'a Rule<'a>,
    at: &Place<'_>,
    found: &mut Vec<Broken<'a>>,
    alloc: Global,
) -> Result<(), AllocError>
    ensures { OnOk result (map told found.new.items ≡ map told found.old.items ++ (rule_of rule.now, shown_at (test_of rule.now.test) (places.pointer at.now)) ∷ []) }
{
    match &rule.test {
        Test::There(name)
        | Test::Absent(name)
        | Test::NotNull(name)
        | Test::BooleanMember(name)
        | Test::AtMost(name, _)
        | Test::VersionsInOrder(name, _) => {
            let place = Place::Member(&*at, name);
            push(rule, &place, found, alloc)
        }
        _ => push(rule, at, found, alloc),
    }
}

/// Adds what the part breaks.
fn add_part<'a>(
    rule: &'a Rule<'a>,
    part: &Value,
    at: &Place<'_>,
    found: &mut Vec<Broken<'a>>,
    alloc: Global,
) -> Result<(), AllocError>
    ensures { OnOk result (map told found.new.items ≡ map told found.old.items ++ told_by (test_of rule.now.test) (rule_of rule.now) (places.pointer at.now) (view part.now)) }
{
    if !passes(&rule.test, part, alloc)? {
        add_shown(rule, at, found, alloc)?;
    }
    add_items_broken(rule, part, at, found, alloc)
}

/// Adds what breaks the rule in the parts of the document that the steps lead to from the value at this place.
#[cycle(walk)]
fn add_at<'a>(
    steps: &'a [Step<'a>],
    asked: Asked<'a, '_>,
    value: &Value,
    at: &Place<'_>,
    found: &mut Vec<Broken<'a>>,
    alloc: Global,
) -> Result<(), AllocError>
    ensures { OnOk result (map told found.new.items ≡ map told found.old.items ++ told_at (view asked.entry.document.now) (place_of steps.now) (told_by (test_of asked.entry.rule.now.test) (rule_of asked.entry.rule.now)) (places.pointer at.now) (view value.now)) }
{
    let Some((step, rest)) = steps.split_first() else {
        return add_part(asked.rule, value, at, found, alloc);
    };
    match step {
        Step::Member(name) => match present(value, name) {
            Some(member) => {
                let place = Place::Member(&*at, name);
                add_at(rest, asked, member, &place, found, alloc)
            }
            None => Ok(()),
        },
        Step::EachItem => match value.as_array() {
            Some(items) => add_items(rest, asked, items, at, found, alloc),
            None => Ok(()),
        },
        Step::EachMember => match value.as_object() {
            Some(members) => add_members(rest, asked, members, at, found, alloc),
            None => Ok(()),
        },
        Step::EachName => match value.as_object() {
            Some(members) => add_names(rest, asked, members, at, found, alloc),
            None => Ok(()),
        },
        Step::When(condition) => {
            if holds(asked.document, condition, value) {
                add_at(rest, asked, value, at, found, alloc)
            } else {
                Ok(())
            }
        }
    }
}

#[cycle(walk)]
fn add_items<'a>(
    steps: &'a [Step<'a>],
    asked: Asked<'a, '_>,
    items: &Vec<Value>,
    at: &Place<'_>,
    found: &mut Vec<Broken<'a>>,
    alloc: Global,
) -> Result<(), AllocError>
    ensures { OnOk result (map told found.new.items ≡ map told found.old.items ++ of_each (told_at (view asked.entry.document.now) (place_of steps.now) (told_by (test_of asked.entry.rule.now.test) (rule_of asked.entry.rule.now))) (places.pointer at.now) 0 (items_view items.now.items)) }
{
    for (index, item) in items.iter().enumerate() {
        let place = Place::Item(&*at, index);
        add_at(steps, asked, item, &place, found, alloc)?;
    }
    Ok(())
}

#[cycle(walk)]
fn add_members<'a>(
    steps: &'a [Step<'a>],
    asked: Asked<'a, '_>,
    members: &Map<String, Value>,
    at: &Place<'_>,
    found: &mut Vec<Broken<'a>>,
    alloc: Global,
) -> Result<(), AllocError>
    ensures { OnOk result (map told found.new.items ≡ map told found.old.items ++ of_each_member (told_at (view asked.entry.document.now) (place_of steps.now) (told_by (test_of asked.entry.rule.now.test) (rule_of asked.entry.rule.now))) (places.pointer at.now) (members_view members.now.entries)) }
{
    for (name, member) in members.iter() {
        let place = Place::Member(&*at, name.as_str());
        add_at(steps, asked, member, &place, found, alloc)?;
    }
    Ok(())
}

#[cycle(walk)]
fn add_names<'a>(
    steps: &'a [Step<'a>],
    asked: Asked<'a, '_>,
    members: &Map<String, Value>,
    at: &Place<'_>,
    found: &mut Vec<Broken<'a>>,
    alloc: Global,
) -> Result<(), AllocError>
    ensures { OnOk result (map told found.new.items ≡ map told found.old.items ++ of_each_name (told_at (view asked.entry.document.now) (place_of steps.now) (told_by (test_of asked.entry.rule.now.test) (rule_of asked.entry.rule.now))) (places.pointer at.now) (members_view members.now.entries)) }
{
    for (name, _) in members.iter() {
        let place = Place::Member(&*at, name.as_str());
        let text = Value::String(String::from_str(alloc, name.as_str())?);
        add_at(steps, asked, &text, &place, found, alloc)?;
    }
    Ok(())
}
