//! The books of rules, for programs: an object a line for each rule of a kind of documents.
ghost use Rattle.std.specs.Prelude.{◌≡◌, ◌++◌, [], map, option_map, IfOk, OnOk, string_bytes};
ghost use Rattle.std.specs.List.{flat_map};
ghost use Rattle.json.specs.Token.{string};
ghost use Rattle.oci_base.specs.Names.{is_listed as is_listed_in};
ghost use Rattle.oci_rules.specs.Tables.{rule_of};
ghost use Rattle.oci_commands.specs.RuleTexts.{AreAllRuleObjects, AreRuleObjects, IsRuleObject, chosen, each_once, place_text as place_text_of, platform_word, texts_member as member_of_texts, words_tokens};

use crate::books::add_new;
use crate::objects::{begun, ended, text_member};
use crate::rule_lists::{chosen_rules, rules_named};
use crate::rule_places::{add_platforms, place_text};
use json::Writer;
use oci_findings::RuleBooks;
use oci_rules::Rule;
use oci_schemas::{KINDS, Kind};
use std::alloc::{AllocError, Global};

/// The rules of all kinds of documents, or those of a name: an object a line for each kind and name.
pub fn objects_of_rules<B: RuleBooks>(
    books: &B,
    name: Option<&str>,
    alloc: Global,
) -> Result<String, AllocError>
    ensures { IfOk result (λ t. AreAllRuleObjects (B.rules books.now) (option_map (λ n. n.now) name.entry) (string_bytes t)) }
{
    let mut text = String::new(alloc);
    for kind in &KINDS {
        let of_kind = objects_of_kind(books, *kind, name, alloc)?;
        text.push_str(of_kind.as_str())?;
    }
    Ok(text)
}

/// The rules of a kind of documents, or those of a name: an object a line for each name.
pub fn objects_of_kind<B: RuleBooks>(
    books: &B,
    kind: Kind,
    name: Option<&str>,
    alloc: Global,
) -> Result<String, AllocError>
    ensures { IfOk result (λ t. AreRuleObjects kind (chosen (option_map (λ n. n.now) name.entry) (B.rules books.now kind)) (string_bytes t)) }
{
    let rules = chosen_rules(books, kind, name, alloc)?;
    objects_of(kind, &rules, alloc)
}

fn objects_of(
    kind: Kind,
    rules: &Vec<&'static Rule<'static>>,
    alloc: Global,
) -> Result<String, AllocError>
    ensures { IfOk result (λ t. AreRuleObjects kind (map (λ r. rule_of r.now) rules.now.items) (string_bytes t)) }
{
    let mut text = String::new(alloc);
    let mut names = Vec::new(alloc);
    for rule in rules {
        if !is_listed(&names, rule.name) {
            names.push(rule.name)?;
            let line = object_of(kind, rule, rules, alloc)?;
            text.push_str(line.as_str())?;
        }
    }
    Ok(text)
}

/// Whether a name is one of these.
fn is_listed(names: &Vec<&str>, name: &str) -> bool
    ensures { result ≡ is_listed_in (map (λ n. n.now) names.now.items) name.now }
{
    for it in names {
        if name == *it {
            return true;
        }
    }
    false
}

/// The line of a rule, with the places and the platforms of all rules of its name.
fn object_of(
    kind: Kind,
    rule: &Rule<'_>,
    rules: &Vec<&'static Rule<'static>>,
    alloc: Global,
) -> Result<String, AllocError>
    ensures { IfOk result (λ t. IsRuleObject kind (map (λ r. rule_of r.now) rules.now.items) (rule_of rule.now) (string_bytes t)) }
{
    let same = rules_named(rules, rule.name, alloc)?;
    let places = places_of(&same, alloc)?;
    let platforms = platforms_of(&same, alloc)?;
    let mut out = begun(alloc)?;
    put_words(&mut out, kind.word(), rule.level.word(), rule)?;
    texts_member(&mut out, "places", &places)?;
    texts_member(&mut out, "platforms", &platforms)?;
    ended(out, alloc)
}

/// Adds the name of a rule, these words for its kind of documents and its level, its section, and what it wants.
fn put_words(out: &mut Writer, kind: &str, level: &str, rule: &Rule<'_>) -> Result<(), AllocError>
    ensures before { OnOk result (out.new.before ≡ out.old.before) }
    ensures tokens { OnOk result (out.new.tokens ≡ out.old.tokens ++ words_tokens (rule_of rule.now) kind.now level.now rule.now.wanted.now) }
{
    text_member(out, "name", rule.name)?;
    text_member(out, "kind", kind)?;
    text_member(out, "level", level)?;
    text_member(out, "section", rule.section)?;
    text_member(out, "wanted", rule.wanted)
}

/// Adds a member that is an array of strings.
fn texts_member(out: &mut Writer, name: &str, texts: &Vec<String>) -> Result<(), AllocError>
    ensures before { OnOk result (out.new.before ≡ out.old.before) }
    ensures tokens { OnOk result (out.new.tokens ≡ out.old.tokens ++ member_of_texts name.now (map string_bytes texts.now.items)) }
{
    out.key(name)?;
    out.begin_array()?;
    put_texts(out, texts)?;
    out.end_array()
}

fn put_texts(out: &mut Writer, texts: &Vec<String>) -> Result<(), AllocError>
    ensures before { OnOk result (out.new.before ≡ out.old.before) }
    ensures tokens { OnOk result (out.new.tokens ≡ out.old.tokens ++ map string (map string_bytes texts.now.items)) }
{
    for text in texts {
        out.string(text.as_str())?;
    }
    Ok(())
}

/// The places of rules, each once.
fn places_of(rules: &Vec<&'static Rule<'static>>, alloc: Global) -> Result<Vec<String>, AllocError>
    ensures { IfOk result (λ v. map string_bytes v.items ≡ each_once [] (map (λ q. place_text_of q.place) (map (λ r. rule_of r.now) rules.now.items))) }
{
    let mut places = Vec::new(alloc);
    for rule in rules {
        let place = place_text(rule, alloc)?;
        add_new(&mut places, place)?;
    }
    Ok(places)
}

/// The words for the platforms of rules, each once.

fn platforms_of(
    rules: &Vec<&'static Rule<'static>>,
    alloc: Global,
) -> Result<Vec<String>, AllocError>
    ensures { IfOk result (λ v. map string_bytes v.items ≡ each_once [] (flat_map (λ q. map platform_word q.platforms) (map (λ r. rule_of r.now) rules.now.items))) }
{
    let mut words = Vec::new(alloc);
    for rule in rules {
        add_platforms(&mut words, &rule.platforms, alloc)?;
    }
    Ok(words)
}
