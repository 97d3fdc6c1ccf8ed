//! The books of rules, for people.
ghost use Rattle.std.specs.Prelude.{◌≡◌, ◌++◌, ◌∷◌, List, ℕ, map, IfOk, OnOk, string_bytes};
ghost use Rattle.std.specs.List.{flat_map};
ghost use Rattle.oci_base.specs.Names.{is_listed};
ghost use Rattle.oci_rules.specs.Tables.{rule_of};
ghost use Rattle.oci_commands.specs.Books.{AreAllRules, has_rule as has_rule_of, is_rule as is_rule_of, IsSection, Rows, with_section};
ghost use Rattle.oci_commands.specs.RuleTexts.{IsRow, with_new};

use oci_findings::RuleBooks;
use oci_rules::Rule;
use oci_schemas::{KINDS, Kind};
use std::alloc::{AllocError, Global};

/// What the rules hold to.
pub trait Versions {
    /// The specifications of the rules, with their versions, on one line.
    fn versions(&self) -> &'static str;
}

/// The rules of a kind of documents: a line for each thing that one wants, with the rule's name, level and section.
pub fn rules_of_kind<B: RuleBooks>(
    books: &B,
    kind: Kind,
    alloc: Global,
) -> Result<String, AllocError>
    ensures { IfOk result (λ t. IsSection (B.rules books.now kind) (string_bytes t)) }
{
    let mut rows = Vec::new(alloc);
    let found = books.books_of(kind, alloc)?;
    for book in &found {
        add_rows(&mut rows, book, alloc)?;
    }
    section_of(kind.title(), &rows, alloc)
}

/// Adds the row of each rule of a book, unless it is there.
fn add_rows(rows: &mut Vec<String>, book: &[Rule<'_>], alloc: Global) -> Result<(), AllocError>
    ensures { OnOk result (Rows (map rule_of book.now) (map string_bytes rows.old.items) (map string_bytes rows.new.items)) }
{
    for rule in book {
        let row = row_of(rule, alloc)?;
        add_new(rows, row)?;
    }
    Ok(())
}

/// Adds a row, unless it is there.
pub(crate) fn add_new(rows: &mut Vec<String>, row: String) -> Result<(), AllocError>
    ensures { OnOk result (map string_bytes rows.new.items ≡ with_new (string_bytes row) (map string_bytes rows.old.items)) }
{
    if !has_text(rows, row.as_str()) {
        rows.push(row)?;
    }
    Ok(())
}

/// Whether a text is one of these.
fn has_text(texts: &Vec<String>, text: &str) -> bool
    ensures { result ≡ is_listed (map string_bytes texts.now.items) text.now }
{
    for it in texts {
        if text == it.as_str() {
            return true;
        }
    }
    false
}

/// The title, and the rows one behind the other.
fn section_of(title: &str, rows: &Vec<String>, alloc: Global) -> Result<String, AllocError>
    ensures { IfOk result (λ t. string_bytes t ≡ title.now ++ 10 ∷ flat_map string_bytes rows.now.items) }
{
    let mut text = String::from_str(alloc, title)?;
    text.push_str("\n")?;
    for row in rows {
        text.push_str(row.as_str())?;
    }
    Ok(text)
}

/// The rules of all kinds, and in the last line the versions of the specifications that they hold to.
pub fn all_rules<B: RuleBooks + Versions>(books: &B, alloc: Global) -> Result<String, AllocError>
    ensures { IfOk result (λ t. AreAllRules (B.rules books.now) (string_bytes t)) }
{
    let mut text = String::new(alloc);
    for kind in &KINDS {
        push_rules(&mut text, books, *kind, alloc)?;
    }
    let versions = books.versions();
    let last = format!(in alloc; "{versions}\n")?;
    text.push_str(last.as_str())?;
    Ok(text)
}

/// Adds the rules of a kind, and an empty line.
fn push_rules<B: RuleBooks>(
    text: &mut String,
    books: &B,
    kind: Kind,
    alloc: Global,
) -> Result<(), AllocError>
    ensures { OnOk result ((section : List ℕ) × IsSection (B.rules books.now kind) section × (string_bytes text.new ≡ with_section (string_bytes text.old) section)) }
{
    let rules = rules_of_kind(books, kind, alloc)?;
    let rules = format!(in alloc; "{rules}\n")?;
    text.push_str(rules.as_str())?;
    Ok(())
}

/// The row of a rule: its name, its level and section, and what it wants.
pub(crate) fn row_of(rule: &Rule<'_>, alloc: Global) -> Result<String, AllocError>
    ensures { IfOk result (λ t. IsRow (rule_of rule.now) (string_bytes t)) }
{
    let (name, wanted) = (rule.name, rule.wanted);
    let (level, section) = (rule.level.word(), rule.section);
    format!(in alloc; "  {name} [{level}: {section}]: {wanted}\n")
}

/// Whether a rule for some kind of documents has this name.
pub fn is_rule<B: RuleBooks>(books: &B, name: &str, alloc: Global) -> Result<bool, AllocError>
    ensures { IfOk result (λ b. b ≡ is_rule_of (B.rules books.now) name.now) }
{
    for kind in &KINDS {
        if is_rule_for(books, *kind, name, alloc)? {
            return Ok(true);
        }
    }
    Ok(false)
}

/// Whether a rule for a kind of documents has this name.
fn is_rule_for<B: RuleBooks>(
    books: &B,
    kind: Kind,
    name: &str,
    alloc: Global,
) -> Result<bool, AllocError>
    ensures { IfOk result (λ b. b ≡ has_rule_of name.now (B.rules books.now kind)) }
{
    let found = books.books_of(kind, alloc)?;
    for book in &found {
        if has_rule(book, name) {
            return Ok(true);
        }
    }
    Ok(false)
}

fn has_rule(book: &[Rule<'_>], name: &str) -> bool
    ensures { result ≡ has_rule_of name.now (map rule_of book.now) }
{
    for rule in book {
        if rule.name == name {
            return true;
        }
    }
    false
}
