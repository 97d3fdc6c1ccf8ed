//! The rules of a name, for people: each thing that they want, with the places at which it is asked.
ghost use Rattle.std.specs.Prelude.{◌≡◌, ◌++◌, ◌∷◌, [], None, true, false, map, IfOk, IfSome, OnOk, string_bytes};
ghost use Rattle.std.specs.List.{AllZip, concat};
ghost use Rattle.oci_rules.specs.Tables.{rule_of};
ghost use Rattle.oci_commands.specs.Books.{is_rule as is_rule_of};
ghost use Rattle.oci_commands.specs.RuleTexts.{IsTold, IsToldOf, IsToldOfKind, each_once, lines_behind as lines_behind_row, named, told_pair, told_text};

use crate::books::{add_new, is_rule, row_of};
use crate::rule_lists::chosen_rules;
use crate::rule_places::place_line;
use oci_findings::RuleBooks;
use oci_rules::Rule;
use oci_schemas::{KINDS, Kind};
use std::alloc::{AllocError, Global};

/// What is printed of a rule: its row, and the line of its place.
#[derive(Drop)]
struct Told {
    row: String,
    line: String,
}

/// The rules of a name, for each kind of documents a title, each row once, and behind it the lines of its places; none if there is no
/// such rule. Fails if out of memory.
pub fn rules_of_name<B: RuleBooks>(
    books: &B,
    name: &str,
    alloc: Global,
) -> Result<Option<String>, AllocError>
    ensures some { IfOk result (λ o. IfSome o (λ t. (is_rule_of (B.rules books.now) name.now ≡ true) × IsToldOf (B.rules books.now) name.now (string_bytes t))) }
    ensures none { IfOk result (λ o. o ≡ None → is_rule_of (B.rules books.now) name.now ≡ false) }
{
    if !is_rule(books, name, alloc)? {
        return Ok(None);
    }
    let text = told_of_name(books, name, alloc)?;
    Ok(Some(text))
}

fn told_of_name<B: RuleBooks>(books: &B, name: &str, alloc: Global) -> Result<String, AllocError>
    ensures { IfOk result (λ t. IsToldOf (B.rules books.now) name.now (string_bytes t)) }
{
    let mut text = String::new(alloc);
    for kind in &KINDS {
        let told = told_of_kind(books, name, *kind, alloc)?;
        text.push_str(told.as_str())?;
    }
    Ok(text)
}

fn told_of_kind<B: RuleBooks>(
    books: &B,
    name: &str,
    kind: Kind,
    alloc: Global,
) -> Result<String, AllocError>
    ensures { IfOk result (λ t. IsToldOfKind (named name.now (B.rules books.now kind)) (string_bytes t)) }
{
    let rules = chosen_rules(books, kind, Some(name), alloc)?;
    told_of(kind.title(), &rules, alloc)
}

fn told_of(
    title: &str,
    rules: &Vec<&'static Rule<'static>>,
    alloc: Global,
) -> Result<String, AllocError>
    ensures { IfOk result (λ t. IsToldOfKind (map (λ r. rule_of r.now) rules.now.items) (string_bytes t)) }
{
    if rules.is_empty() {
        return Ok(String::new(alloc));
    }
    let tolds = tolds_of(rules, alloc)?;
    text_of(title, &tolds, alloc)
}

fn tolds_of(rules: &Vec<&'static Rule<'static>>, alloc: Global) -> Result<Vec<Told>, AllocError>
    ensures { IfOk result (λ v. AllZip IsTold (map (λ r. rule_of r.now) rules.now.items) (map told_pair v.items)) }
{
    let mut tolds = Vec::new(alloc);
    for rule in rules {
        let told = told_of_rule(rule, alloc)?;
        tolds.push(told)?;
    }
    Ok(tolds)
}

fn told_of_rule(rule: &Rule<'_>, alloc: Global) -> Result<Told, AllocError>
    ensures { IfOk result (λ t. IsTold (rule_of rule.now) (told_pair t)) }
{
    let row = row_of(rule, alloc)?;
    let line = place_line(rule, alloc)?;
    Ok(Told { row, line })
}

/// A title, and each row once, with its lines.
fn text_of(title: &str, tolds: &Vec<Told>, alloc: Global) -> Result<String, AllocError>
    ensures { IfOk result (λ t. string_bytes t ≡ title.now ++ 10 ∷ told_text (map told_pair tolds.now.items)) }
{
    let rows = rows_of(tolds, alloc)?;
    let mut text = String::from_str(alloc, title)?;
    text.push_str("\n")?;
    for row in &rows {
        push_told(&mut text, row.as_str(), tolds, alloc)?;
    }
    Ok(text)
}

/// The rows, each once.
fn rows_of(tolds: &Vec<Told>, alloc: Global) -> Result<Vec<String>, AllocError>
    ensures { IfOk result (λ v. map string_bytes v.items ≡ each_once [] (map (λ t. t.0) (map told_pair tolds.now.items))) }
{
    let mut rows = Vec::new(alloc);
    for told in tolds {
        let row = String::from_str(alloc, told.row.as_str())?;
        add_new(&mut rows, row)?;
    }
    Ok(rows)
}

/// Adds a row and its lines.
fn push_told(
    text: &mut String,
    row: &str,
    tolds: &Vec<Told>,
    alloc: Global,
) -> Result<(), AllocError>
    ensures { OnOk result (string_bytes text.new ≡ string_bytes text.old ++ (row.now ++ concat (lines_behind_row row.now (map told_pair tolds.now.items)))) }
{
    text.push_str(row)?;
    let lines = lines_behind(row, tolds, alloc)?;
    push_all(text, &lines)
}

/// The lines with this row, each once.
fn lines_behind(row: &str, tolds: &Vec<Told>, alloc: Global) -> Result<Vec<String>, AllocError>
    ensures { IfOk result (λ v. map string_bytes v.items ≡ lines_behind_row row.now (map told_pair tolds.now.items)) }
{
    let mut lines = Vec::new(alloc);
    for told in tolds {
        if told.row.as_str() == row {
            let line = String::from_str(alloc, told.line.as_str())?;
            add_new(&mut lines, line)?;
        }
    }
    Ok(lines)
}

fn push_all(text: &mut String, lines: &Vec<String>) -> Result<(), AllocError>
    ensures { OnOk result (string_bytes text.new ≡ string_bytes text.old ++ concat (map string_bytes lines.now.items)) }
{
    for line in lines {
        text.push_str(line.as_str())?;
    }
    Ok(())
}
