//! The rules of a kind of documents, as a list.
ghost use Rattle.std.specs.Prelude.{◌≡◌, ◌++◌, map, option_map, IfOk, OnOk};
ghost use Rattle.oci_rules.specs.Tables.{rule_of};
ghost use Rattle.oci_commands.specs.RuleTexts.{chosen, named};

use oci_findings::RuleBooks;
use oci_rules::Rule;
use oci_schemas::Kind;
use std::alloc::{AllocError, Global};

/// The rules of a kind of documents in the order of its books, all or those of a name. Fails if out of memory.
pub fn chosen_rules<B: RuleBooks>(
    books: &B,
    kind: Kind,
    name: Option<&str>,
    alloc: Global,
) -> Result<Vec<&'static Rule<'static>>, AllocError>
    ensures { IfOk result (λ v. map (λ r. rule_of r.now) v.items ≡ chosen (option_map (λ n. n.now) name.entry) (B.rules books.now kind)) }
{
    let rules = rules_of(books, kind, alloc)?;
    match name {
        Some(name) => rules_named(&rules, name, alloc),
        None => Ok(rules),
    }
}

fn rules_of<B: RuleBooks>(
    books: &B,
    kind: Kind,
    alloc: Global,
) -> Result<Vec<&'static Rule<'static>>, AllocError>
    ensures { IfOk result (λ v. map (λ r. rule_of r.now) v.items ≡ B.rules books.now kind) }
{
    let mut rules = Vec::new(alloc);
    let found = books.books_of(kind, alloc)?;
    for book in &found {
        add_rules(&mut rules, book)?;
    }
    Ok(rules)
}

/// Adds the rules of a book.
fn add_rules(
    rules: &mut Vec<&'static Rule<'static>>,
    book: &'static [Rule<'static>],
) -> Result<(), AllocError>
    ensures { OnOk result (map (λ r. rule_of r.now) rules.new.items ≡ map (λ r. rule_of r.now) rules.old.items ++ map rule_of book.now) }
{
    for rule in book {
        rules.push(rule)?;
    }
    Ok(())
}

/// Those of the rules that have this name. Fails if out of memory.
pub fn rules_named(
    rules: &Vec<&'static Rule<'static>>,
    name: &str,
    alloc: Global,
) -> Result<Vec<&'static Rule<'static>>, AllocError>
    ensures { IfOk result (λ v. map (λ r. rule_of r.now) v.items ≡ named name.now (map (λ r. rule_of r.now) rules.now.items)) }
{
    let mut found = Vec::new(alloc);
    for rule in rules {
        if rule.name == name {
            found.push(*rule)?;
        }
    }
    Ok(found)
}
