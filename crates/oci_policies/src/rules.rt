//! The rules of a policy, table by table.
ghost use Rattle.std.specs.Prelude.{◌≡◌, ◌++◌, [], map, codes, IfOk, OnOk, IfErr, Some, None};
ghost use Rattle.oci_rules.specs.Tables.{texts_of, level_of, platform_of, platforms_of, place_of, test_of};
ghost use Rattle.oci_rules.specs.Platforms.{every};
ghost use Rattle.oci_policies.specs.declared.error.Fault.TheVariants.{Memory};
ghost use Rattle.oci_policies.specs.Policies as policies;
ghost use Rattle.oci_policies.specs.Policies.{rule_at, rule_placed};
ghost use Rattle.oci_policies.specs.Places.{steps_in};
ghost use Rattle.oci_policies.specs.Steps.{step_view, steps_view, head_view, worded, book_view};
ghost use Rattle.oci_policies.specs.Values.{Reads, both, each, list_in, some_in, under as under_in, under_or};
ghost use Rattle.toml.specs.Data.{as_str};
ghost use Rattle.toml.specs.View.{view, items_view, table_view};

use crate::book::{Book, kinds_or};
use crate::conditions::condition;
use crate::error::{Fault, expected};
use crate::kinds::test;
use crate::places::{steps, steps_of};
use crate::values::{found, kept_under, sole_other, some_items, text, under};
use bumpalo::Bump;
use bumpalo::collections::into_bump_slice;
use oci_rules::{Level, Platforms, Rule, RuntimePlatform, Step, Test};
use oci_schemas::Kind;
use std::alloc::Global;
use toml::{Table, Value};

static RULE_NAMES: [&str; 9] = [
    "name",
    "kind",
    "level",
    "source",
    "message",
    "platforms",
    "at",
    "when",
    "then",
];

fn rule_names() -> &'static [&'static str]
    ensures { texts_of result.now ≡ policies.rule_names }
{
    &RULE_NAMES
}

fn level(table: &Table) -> Result<Level, Fault>
    ensures { Reads level_of result (under_in policies.level_in (codes "level") (table_view table.now)) }
{
    match Level::from_word(text("level", under(table, "level")?)?) {
        Some(level) => Ok(level),
        None => Err(expected("level", "`must`, `stated`, `should` or `host`")),
    }
}

fn platform(value: &Value) -> Result<RuntimePlatform, Fault>
    ensures { Reads platform_of result (policies.platform_in (view value.now)) }
{
    match RuntimePlatform::from_word(text("platforms", value)?) {
        Some(platform) => Ok(platform),
        None => Err(expected(
            "platforms",
            "`linux`, `windows`, `solaris`, `vm`, `zos` or `freebsd`",
        )),
    }
}

fn listed_platforms<'a>(arena: &'a Bump, value: &Value) -> Result<&'a [RuntimePlatform], Fault>
    ensures { Reads (λ ps. map platform_of ps.now) result (some_in policies.platform_in (view value.now)) }
{
    let items = some_items("platforms", "an array of strings", value)?;
    each_platform(arena, items)
}

#[tactic(auto, using(crate::proofs::Lists::behind_nothing, crate::proofs::Lists::behind_more))]
fn each_platform<'a>(arena: &'a Bump, items: &Vec<Value>) -> Result<&'a [RuntimePlatform], Fault>
    ensures { Reads (λ ps. map platform_of ps.now) result (each policies.platform_in (items_view items.now.items)) }
{
    let mut found = Vec::new(arena);
    for item in items {
        found.push(platform(item)?)?;
    }
    Ok(into_bump_slice(found))
}

/// The platforms that a rule is for: all, if it names none.
fn platforms<'a>(arena: &'a Bump, table: &Table) -> Result<Platforms<'a>, Fault>
    ensures { Reads platforms_of result (under_or every (some_in policies.platform_in) (codes "platforms") (table_view table.now)) }
{
    match found(table, "platforms") {
        Some(value) => Ok(Platforms::These(listed_platforms(arena, value)?)),
        None => Ok(Platforms::Every),
    }
}

fn test_in<'a>(arena: &'a Bump, table: &Table, alloc: Global) -> Result<Test<'a>, Fault>
    ensures { Reads test_of result (policies.test_in (table_view table.now)) }
{
    let (key, value) = sole_other(rule_names(), table, alloc)?;
    test(arena, key, value, alloc)
}

/// What a rule says, for which platforms, and what it tests.
#[tactic(auto, using(crate::proofs::Both::first_missing, crate::proofs::Both::second_missing, crate::proofs::Both::both_there, crate::proofs::Both::mapped_missing))]
fn tested<'a>(
    arena: &'a Bump,
    table: &Table,
    alloc: Global,
) -> Result<(&'a str, (Platforms<'a>, Test<'a>)), Fault>
    ensures { Reads (λ p. (p.0.now, (platforms_of p.1.0, test_of p.1.1))) result (both (under_in as_str (codes "message") (table_view table.now)) (both (under_or every (some_in policies.platform_in) (codes "platforms") (table_view table.now)) (policies.test_in (table_view table.now)))) }
{
    let wanted = kept_under(arena, "message", table)?;
    let platforms = platforms(arena, table)?;
    let test = test_in(arena, table, alloc)?;
    Ok((wanted, (platforms, test)))
}

/// What the rules of a table have alike: a rule that looks nowhere yet.
#[tactic(auto, using(crate::proofs::Both::first_missing, crate::proofs::Both::second_missing, crate::proofs::Both::both_there, crate::proofs::Both::mapped_missing))]
fn head<'a>(arena: &'a Bump, table: &Table, alloc: Global) -> Result<Rule<'a>, Fault>
    ensures { Reads head_view result (policies.head_of (table_view table.now)) }
{
    let name = kept_under(arena, "name", table)?;
    let level = level(table)?;
    let section = kept_under(arena, "source", table)?;
    let (wanted, (platforms, test)) = tested(arena, table, alloc)?;
    Ok(Rule {
        name,
        level,
        section,
        wanted,
        platforms,
        place: &[],
        test,
    })
}

fn listed_places<'a>(
    arena: &'a Bump,
    value: &Value,
    alloc: Global,
) -> Result<Vec<Vec<Step<'a>>>, Fault>
    ensures { Reads (λ v. map (λ s. steps_view s.items) v.items) result (some_in steps_in (view value.now)) }
{
    let items = some_items("at", "a place or an array of places", value)?;
    each_place(arena, items, alloc)
}

#[tactic(auto, using(crate::proofs::Lists::behind_nothing, crate::proofs::Lists::behind_more))]
fn each_place<'a>(
    arena: &'a Bump,
    items: &Vec<Value>,
    alloc: Global,
) -> Result<Vec<Vec<Step<'a>>>, Fault>
    ensures { Reads (λ v. map (λ s. steps_view s.items) v.items) result (each steps_in (items_view items.now.items)) }
{
    let mut found = Vec::new(alloc);
    for item in items {
        found.push(steps(arena, "at", item, alloc)?)?;
    }
    Ok(found)
}

/// The places of a table.
fn places<'a>(arena: &'a Bump, value: &Value, alloc: Global) -> Result<Vec<Vec<Step<'a>>>, Fault>
    ensures { Reads (λ v. map (λ s. steps_view s.items) v.items) result (policies.places_in (view value.now)) }
{
    match value.as_str() {
        Some(text) => {
            let mut found = Vec::new(alloc);
            found.push(steps_of(arena, "at", text, alloc)?)?;
            Ok(found)
        }
        None => listed_places(arena, value, alloc),
    }
}

fn conditions<'a>(arena: &'a Bump, value: &Value, alloc: Global) -> Result<Vec<Step<'a>>, Fault>
    ensures { Reads (λ v. steps_view v.items) result (list_in policies.step_if (view value.now)) }
{
    match value.as_array() {
        Some(items) => each_condition(arena, items, alloc),
        None => Err(expected("when", "an array of tables")),
    }
}

/// A condition, as a step.
#[tactic(auto, unfolding(crate::specs::Steps::step_view))]
fn step_if<'a>(arena: &'a Bump, value: &Value, alloc: Global) -> Result<Step<'a>, Fault>
    ensures { Reads step_view result (policies.step_if (view value.now)) }
{
    Ok(Step::When(condition(arena, value, alloc)?))
}

#[tactic(auto, using(crate::proofs::Lists::behind_nothing, crate::proofs::Lists::behind_more))]
fn each_condition<'a>(
    arena: &'a Bump,
    items: &Vec<Value>,
    alloc: Global,
) -> Result<Vec<Step<'a>>, Fault>
    ensures { Reads (λ v. steps_view v.items) result (each policies.step_if (items_view items.now.items)) }
{
    let mut found = Vec::new(alloc);
    for item in items {
        found.push(step_if(arena, item, alloc)?)?;
    }
    Ok(found)
}

fn when<'a>(arena: &'a Bump, table: &Table, alloc: Global) -> Result<Vec<Step<'a>>, Fault>
    ensures { Reads (λ v. steps_view v.items) result (under_or [] (list_in policies.step_if) (codes "when") (table_view table.now)) }
{
    match found(table, "when") {
        Some(value) => conditions(arena, value, alloc),
        None => Ok(Vec::new(alloc)),
    }
}

fn then<'a>(arena: &'a Bump, table: &Table, alloc: Global) -> Result<Vec<Step<'a>>, Fault>
    ensures { Reads (λ v. steps_view v.items) result (under_or [] steps_in (codes "then") (table_view table.now)) }
{
    match found(table, "then") {
        Some(value) => steps(arena, "then", value, alloc),
        None => Ok(Vec::new(alloc)),
    }
}

/// What comes behind each place.
#[tactic(auto, using(crate::proofs::Both::first_missing, crate::proofs::Both::second_missing, crate::proofs::Both::both_there, crate::proofs::Both::mapped_missing))]
fn rest<'a>(arena: &'a Bump, table: &Table, alloc: Global) -> Result<Vec<Step<'a>>, Fault>
    ensures { Reads (λ v. steps_view v.items) result (policies.rest_of (table_view table.now)) }
{
    let mut steps = when(arena, table, alloc)?;
    let then = then(arena, table, alloc)?;
    append(&mut steps, &then)?;
    Ok(steps)
}

fn append<'a>(steps: &mut Vec<Step<'a>>, more: &Vec<Step<'a>>) -> Result<(), Fault>
    ensures ok { OnOk result (steps.new.items ≡ steps.old.items ++ more.now.items) }
    ensures memory { IfErr result (λ e. e ≡ Memory) }
{
    steps.extend_from_slice(more.as_slice())?;
    Ok(())
}

/// The steps of one place and of what comes behind it, in the arena.
fn joined<'a>(
    arena: &'a Bump,
    place: &Vec<Step<'a>>,
    rest: &Vec<Step<'a>>,
) -> Result<&'a [Step<'a>], Fault>
    ensures ok { IfOk result (λ s. s.now ≡ place.now.items ++ rest.now.items) }
    ensures memory { IfErr result (λ e. e ≡ Memory) }
{
    let mut steps = Vec::from_slice(arena, place.as_slice())?;
    steps.extend_from_slice(rest.as_slice())?;
    Ok(into_bump_slice(steps))
}

/// The rule with this place.
#[tactic(auto, unfolding(crate::specs::Policies::rule_placed))]
fn placed<'a>(head: &Rule<'a>, place: &'a [Step<'a>]) -> Rule<'a>
    ensures { worded result ≡ rule_placed (head_view head.now) (place_of place.now) }
{
    Rule {
        name: head.name,
        level: head.level,
        section: head.section,
        wanted: head.wanted,
        platforms: head.platforms,
        place,
        test: head.test,
    }
}

/// The rule that looks at a place and at what comes behind it.
#[tactic(auto, using(crate::proofs::Lists::place_joined))]
fn at_place<'a>(
    arena: &'a Bump,
    head: &Rule<'a>,
    place: &Vec<Step<'a>>,
    rest: &Vec<Step<'a>>,
) -> Result<Rule<'a>, Fault>
    ensures ok { IfOk result (λ r. worded r ≡ rule_at (head_view head.now) (steps_view place.now.items ++ steps_view rest.now.items)) }
    ensures memory { IfErr result (λ e. e ≡ Memory) }
{
    let steps = joined(arena, place, rest)?;
    Ok(placed(head, steps))
}

/// Adds a rule for each place.
fn add_places<'a>(
    arena: &'a Bump,
    head: &Rule<'a>,
    places: &Vec<Vec<Step<'a>>>,
    rest: &Vec<Step<'a>>,
    found: &mut Vec<Rule<'a>, &'a Bump>,
) -> Result<(), Fault>
    ensures ok { OnOk result (map worded found.new.items ≡ map worded found.old.items ++ map (λ s. rule_at (head_view head.now) (s ++ steps_view rest.now.items)) (map (λ s. steps_view s.items) places.now.items)) }
    ensures memory { IfErr result (λ e. e ≡ Memory) }
{
    for place in places {
        found.push(at_place(arena, head, place, rest)?)?;
    }
    Ok(())
}

/// The rules of a table.
#[tactic(auto, using(crate::proofs::Both::first_missing, crate::proofs::Both::second_missing, crate::proofs::Both::both_there, crate::proofs::Both::mapped_missing))]
fn table_rules<'a>(arena: &'a Bump, table: &Table, alloc: Global) -> Result<&'a [Rule<'a>], Fault>
    ensures { Reads (λ rs. map worded rs.now) result (policies.rules_of (table_view table.now)) }
{
    let head = head(arena, table, alloc)?;
    let places = places(arena, under(table, "at")?, alloc)?;
    let rest = rest(arena, table, alloc)?;
    let mut found = Vec::new(arena);
    add_places(arena, &head, &places, &rest, &mut found)?;
    Ok(into_bump_slice(found))
}

/// The rules of a table with its kinds, which are these where it names none.
#[tactic(auto, using(crate::proofs::Both::first_missing, crate::proofs::Both::second_missing, crate::proofs::Both::both_there))]
pub(crate) fn book<'a>(
    arena: &'a Bump,
    kinds: &'a [Kind],
    value: &Value,
    alloc: Global,
) -> Result<Book<'a>, Fault>
    ensures { Reads book_view result (policies.book_in kinds.now (view value.now)) }
{
    let Some(table) = value.as_table() else {
        return Err(expected("rule", "an array of tables"));
    };
    let kinds = kinds_or(arena, kinds, table)?;
    let rules = table_rules(arena, table, alloc)?;
    Ok(Book { kinds, rules })
}
