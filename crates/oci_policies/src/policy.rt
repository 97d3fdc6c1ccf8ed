//! Policies from TOML files.
ghost use Rattle.std.specs.Prelude.{◌≡◌, ◌↔◌, List, map, IfOk, IfErr, Some, None};
ghost use Rattle.oci_policies.specs.declared.error.Fault.TheVariants as reading;
ghost use Rattle.oci_policies.specs.declared.error.PolicyError.TheVariants.{Memory};
ghost use Rattle.oci_policies.specs.Policies.{IsPolicy, IsTooBig, policy_in, parts_of, book_in};
ghost use Rattle.oci_policies.specs.Steps.{worded, book_view};
ghost use Rattle.oci_policies.specs.Values.{Reads, each};
ghost use Rattle.toml.specs.Errors.{IsMemory};
ghost use Rattle.toml.specs.View.{items_view, table_view};
ghost use Rattle.oci_rules.specs.Tables.{texts_of};
ghost use Rattle.oci_policies.specs.Policies as policies;

use crate::book::{Book, every_kind, kinds_or};
use crate::error::{Fault, PolicyError, Reason};
use crate::rules::book;
use crate::values::{only, some_items, under};
use bumpalo::Bump;
use bumpalo::collections::into_bump_slice;
use oci_rules::Rule;
use oci_schemas::Kind;
use std::alloc::{AllocError, Global};
use toml::{Table, Value};

static DOCUMENT_NAMES: [&str; 2] = ["rule", "kind"];

/// A policy: rules of one's own. Its rules lie in an arena, which outlives it.
#[derive(Clone, Copy)]
pub struct Policy<'a> {
    rules: &'a [Rule<'a>],
    books: &'a [Book<'a>],
}

impl<'a> Policy<'a> {
    /// Reads a policy from the text of a TOML file (docs/POLICIES.md). Its rules are kept in the arena.
    ///
    /// Fails with `Toml` if the text is no TOML document, with `Rule` if the document is no policy, as one without rules, with `TooBig` if
    /// a regular expression would take too much memory, and with `Memory` if out of memory. The line of a `Rule` and of a `TooBig` is
    /// that of the rule's header, `[[rule]]`, or of a member of the document itself, where each has a line of its own.
    pub fn from_toml(text: &str, arena: &'a Bump, alloc: Global) -> Result<Policy<'a>, PolicyError>
        ensures ok { IfOk result (λ p. IsPolicy text.now (map book_view p.books.now)) }
        ensures rules { IfOk result (λ p. map worded p.rules.now ≡ policies.all_rules (map book_view p.books.now)) }
        ensures refused { IfErr result (λ e. ¬ (e ≡ Memory) → ¬ IsTooBig e → (books : List policies.Book) → ¬ IsPolicy text.now books) }
    {
        match toml::table_from_str(alloc, text) {
            Ok(table) => read(text, &table, arena, alloc),
            Err(error) => Err(unread(text, error)),
        }
    }

    /// The tables of rules in the order of the file, with the kinds of documents that each is for.
    pub fn books(&self) -> &'a [Book<'a>]
        ensures { result.now ≡ self.now.books.now }
    {
        self.books
    }

    /// The rules of all tables, in the order of the file, whatever kinds of documents they are for.
    pub fn rules(&self) -> &'a [Rule<'a>]
        ensures { result.now ≡ self.now.rules.now }
    {
        self.rules
    }
}

fn document_names() -> &'static [&'static str]
    ensures { texts_of result.now ≡ policies.document_names }
{
    &DOCUMENT_NAMES
}

/// The policy of a document.
fn read<'a>(
    text: &str,
    table: &Table,
    arena: &'a Bump,
    alloc: Global,
) -> Result<Policy<'a>, PolicyError>
    ensures ok { IfOk result (λ p. policy_in (table_view table.now) ≡ Some (map book_view p.books.now)) }
    ensures rules { IfOk result (λ p. map worded p.rules.now ≡ policies.all_rules (map book_view p.books.now)) }
    ensures refused { IfErr result (λ e. ¬ (e ≡ Memory) → ¬ IsTooBig e → policy_in (table_view table.now) ≡ None) }
{
    let books = read_books(text, table, arena, alloc)?;
    let rules = all_rules(books, arena)?;
    Ok(Policy { rules, books })
}

/// The books of a document.
fn read_books<'a>(
    text: &str,
    table: &Table,
    arena: &'a Bump,
    alloc: Global,
) -> Result<&'a [Book<'a>], PolicyError>
    ensures ok { IfOk result (λ bs. policy_in (table_view table.now) ≡ Some (map book_view bs.now)) }
    ensures refused { IfErr result (λ e. ¬ (e ≡ Memory) → ¬ IsTooBig e → policy_in (table_view table.now) ≡ None) }
{
    match parts(arena, table, alloc) {
        Ok((kinds, items)) => books(text, kinds, items, arena, alloc),
        Err(fault) => {
            let line = line_of_fault(text, &fault);
            Err(located(fault, line))
        }
    }
}

/// The kinds of a document, and the array of its rules' tables, of which there is one at least.
#[tactic(auto, using(crate::proofs::Both::first_missing, crate::proofs::Both::second_missing, crate::proofs::Both::both_there))]
fn parts<'a, 't>(
    arena: &'a Bump,
    table: &'t Table,
    alloc: Global,
) -> Result<(&'a [Kind], &'t Vec<Value>), Fault>
    ensures { Reads (λ x. (x.0.now, items_view x.1.now.items)) result (parts_of (table_view table.now)) }
{
    only(document_names(), table, alloc)?;
    let kinds = kinds_or(arena, every_kind(), table)?;
    let items = some_items("rule", "an array of tables", under(table, "rule")?)?;
    Ok((kinds, items))
}

/// The books of the tables.
#[tactic(auto, using(crate::proofs::Lists::behind_nothing, crate::proofs::Lists::behind_more))]
fn books<'a>(
    text: &str,
    kinds: &'a [Kind],
    items: &Vec<Value>,
    arena: &'a Bump,
    alloc: Global,
) -> Result<&'a [Book<'a>], PolicyError>
    ensures ok { IfOk result (λ bs. each (book_in kinds.now) (items_view items.now.items) ≡ Some (map book_view bs.now)) }
    ensures refused { IfErr result (λ e. ¬ (e ≡ Memory) → ¬ IsTooBig e → each (book_in kinds.now) (items_view items.now.items) ≡ None) }
{
    let mut found = Vec::new(arena);
    for (index, item) in items.iter().enumerate() {
        match book(arena, kinds, item, alloc) {
            Ok(book) => found.push(book)?,
            Err(fault) => return Err(located(fault, line_of(text, index))),
        }
    }
    Ok(into_bump_slice(found))
}

/// The rules of all books.
fn all_rules<'a>(books: &'a [Book<'a>], arena: &'a Bump) -> Result<&'a [Rule<'a>], AllocError>
    ensures { IfOk result (λ rs. map worded rs.now ≡ policies.all_rules (map book_view books.now)) }
{
    let mut found = Vec::new(arena);
    for book in books {
        found.extend_from_slice(book.rules)?;
    }
    Ok(into_bump_slice(found))
}

/// The error for what is wrong in the part that begins in this line.
fn located(fault: Fault, line: usize) -> PolicyError
    ensures memory { (result ≡ Memory) ↔ (fault ≡ reading.Memory) }
    ensures too_big { fault ≡ reading.TooBig → IsTooBig result }
{
    match fault {
        Fault::Memory => PolicyError::Memory,
        Fault::TooBig => PolicyError::TooBig { line },
        Fault::Refused(reason) => PolicyError::Rule { line, reason },
    }
}

/// The line of what is wrong with the members of the document itself.
fn line_of_fault(text: &str, fault: &Fault) -> usize {
    match fault {
        Fault::Refused(reason) => line_of_key(text, key_of(reason)),
        Fault::Memory | Fault::TooBig => 1,
    }
}

/// The member that a reason is about; empty if there is none in the text.
fn key_of<'a>(reason: &'a Reason) -> &'a str {
    match reason {
        Reason::Unknown(name) => name.as_str(),
        Reason::Expected { key, expected: _ } => key,
        Reason::Empty(key) => key,
        _ => "",
    }
}

/// The line in which the member of the document begins, or its header stands, as far as it has a line of its own; else the first.
fn line_of_key(text: &str, key: &str) -> usize {
    let mut line = 0usize;
    let mut in_table = false;
    for it in text.split('\n') {
        line = line.saturating_add(1);
        let start = it.trim_start();
        let is_header = start.starts_with('[');
        in_table = in_table || is_header;
        if (is_header || !in_table) && !key.is_empty() && names(start, key) {
            return line;
        }
    }
    1
}

/// Whether a line begins with this key, or is a header that does.
fn names(line: &str, key: &str) -> bool {
    let name = line.trim_start_matches('[').trim_start();
    let name = name.trim_start_matches('"').trim_start_matches('\'');
    match name.strip_prefix(key) {
        Some(rest) => !begins_bare(rest),
        None => false,
    }
}

/// Whether a text begins with a character of a bare key (TOML 1.0, "Keys").
fn begins_bare(text: &str) -> bool {
    match text.as_bytes().first() {
        Some(byte) => byte.is_ascii_alphanumeric() || *byte == b'_' || *byte == b'-',
        None => false,
    }
}

/// The line of the header of the table at this index, as far as each has a line of its own.
fn line_of(text: &str, index: usize) -> usize {
    let mut line = 0usize;
    let mut headers = 0usize;
    let mut found = 1usize;
    for it in text.split('\n') {
        line = line.saturating_add(1);
        if headers <= index && it.trim_start().trim_start_matches('[').starts_with("rule") {
            headers = headers.saturating_add(1);
            found = line;
        }
    }
    found
}

/// The error for a text that is no TOML document.
fn unread(text: &str, error: toml::de::Error) -> PolicyError
    ensures { (result ≡ Memory) ↔ IsMemory error }
{
    if error.is_memory() {
        return PolicyError::Memory;
    }
    let start = match error.span() {
        Some(span) => span.start,
        None => 0,
    };
    PolicyError::Toml {
        line: line_at(text, start),
        error,
    }
}

/// The line in which the byte at this index stands.
fn line_at(text: &str, index: usize) -> usize {
    let mut line = 1usize;
    for byte in text.as_bytes().iter().take(index) {
        if *byte == b'\n' {
            line = line.saturating_add(1);
        }
    }
    line
}
