//! The rules that a document breaks.
ghost use Rattle.std.specs.Prelude.{◌≡◌, ◌≤◌, ◌<◌, ◌++◌, ◌↔◌, ℕ, List, map, length, None, IfOk, IfErr, OnOk, IsSomeAnd};
ghost use Rattle.serde_json.specs.View.{view};
ghost use Rattle.oci_json.specs.Engines.{IsNoJson};
ghost use Rattle.oci_schemas.specs.declared.kind.Kind.{Kind};
ghost use Rattle.oci_rule_books.specs.Kinds as books;
ghost use Rattle.oci_rules.specs.Breaks.{KeepsAll};
ghost use Rattle.oci_rules.specs.Listed.{all_broken};
ghost use Rattle.oci_rules.specs.Tables.{rule_of, level_of as level_for, platform_of as platform_for};
ghost use Rattle.oci_ffi.specs.Buffers.{Fills, Overflows, Untouched};
ghost use Rattle.oci_ffi.specs.Fields.{ListsBroken};
ghost use Rattle.oci_ffi.specs.Kinds.{kind_numbered};
ghost use Rattle.oci_ffi.specs.Rules.{Counts, Lists, level_numbered, rules_up_to};

use crate::buffer::put;
use crate::fields::list_broken;
use crate::input::status_of;
use crate::kind::kind_of;
use crate::level::{is_within, level_of};
use crate::platform::{FREEBSD, platform_of};
use crate::status::{
    BUFFER_TOO_SMALL, DONE, INVALID_JSON, OUT_OF_MEMORY, UNKNOWN_KIND, UNKNOWN_LEVEL,
    UNKNOWN_PLATFORM,
};
use oci_json::value_from_slice;
use oci_rule_books::rules_of;
use oci_rules::{Level, Rule, RuntimePlatform, broken};
use oci_schemas::Kind;
use serde_json::Value;
use std::alloc::{AllocError, Global};

/// The rules that are asked for.
#[derive(Clone, Copy)]
struct Asked {
    /// The kind of documents.
    kind: Kind,
    /// The last of the levels.
    last: Level,
    /// The number of the platform.
    platform: u32,
}

/// What of a document breaks rules.
#[derive(Drop)]
struct Findings {
    /// The fields of each part.
    fields: Vec<u8>,
    /// How many there are.
    count: usize,
}

/// Adds the rules of the levels up to one.
fn add_rules(
    last: Level,
    book: &'static [Rule<'static>],
    rules: &mut Vec<Rule<'static>>,
) -> Result<(), AllocError>
    ensures { OnOk result (map rule_of rules.new.items ≡ map rule_of rules.old.items ++ rules_up_to (level_for last) (map rule_of book.now)) }
{
    for rule in book {
        if is_within(rule.level, last) {
            rules.push(*rule)?;
        }
    }
    Ok(())
}

/// The rules of a kind of documents, of the levels up to one.
#[tactic(auto, using(crate::proofs::Chosen::up_to_joined))]
fn rules_for(kind: Kind, last: Level, alloc: Global) -> Result<Vec<Rule<'static>>, AllocError>
    ensures { IfOk result (λ v. map rule_of v.items ≡ rules_up_to (level_for last) (books.rules_of kind)) }
{
    let books = rules_of(kind, alloc)?;
    let mut rules = Vec::new(alloc);
    for book in &books {
        add_rules(last, book, &mut rules)?;
    }
    Ok(rules)
}

/// What of the value breaks the rules.
#[tactic(auto, using(crate::proofs::Reported::all_counted, crate::proofs::Chosen::none_listed))]
fn found_in(
    kind: Kind,
    last: Level,
    platform: RuntimePlatform,
    value: &Value,
    alloc: Global,
) -> Result<Findings, AllocError>
    ensures counted { IfOk result (λ r. r.count ≡ length (all_broken (rules_up_to (level_for last) (books.rules_of kind)) (platform_for platform) (view value.now))) }
    ensures listed { IfOk result (λ r. ListsBroken (rules_up_to (level_for last) (books.rules_of kind)) (platform_for platform) (view value.now) r.fields.items) }
    ensures none { IfOk result (λ r. (r.count ≡ 0) ↔ KeepsAll (rules_up_to (level_for last) (books.rules_of kind)) (platform_for platform) (view value.now)) }
{
    let rules = rules_for(kind, last, alloc)?;
    let found = broken(rules.as_slice(), platform, value, alloc)?;
    let fields = list_broken(&found, alloc)?;
    let count = found.len();
    Ok(Findings { fields, count })
}

/// What of the document breaks the rules that are asked for.
///
/// # Errors
///
/// The status that the C function returns.
fn found_in_text(asked: Asked, document: &[u8], alloc: Global) -> Result<Findings, u32>
    ensures listed { IfOk result (λ r. Lists asked.kind (level_for asked.last) asked.platform document.now r.fields.items) }
    ensures counted { IfOk result (λ r. Counts asked.kind (level_for asked.last) asked.platform document.now r.count) }
    ensures json { IfErr result (λ s. s ≡ INVALID_JSON → IsNoJson document.now) }
    ensures platform { IfErr result (λ s. s ≡ UNKNOWN_PLATFORM → FREEBSD < asked.platform) }
    ensures known { IfErr result (λ s. ¬ (s ≡ UNKNOWN_KIND) × ¬ (s ≡ UNKNOWN_LEVEL)) }
    ensures status { IfErr result (λ s. (BUFFER_TOO_SMALL < s) × (s ≤ UNKNOWN_PLATFORM)) }
{
    let value = match value_from_slice(alloc, document) {
        Ok(value) => value,
        Err(error) => return Err(status_of(&error)),
    };
    let Some(on) = platform_of(asked.platform, &value) else {
        return Err(UNKNOWN_PLATFORM);
    };
    match found_in(asked.kind, asked.last, on, &value, alloc) {
        Ok(found) => Ok(found),
        Err(_) => Err(OUT_OF_MEMORY),
    }
}

/// Writes what of the document breaks the rules that are asked for, as `ciderglen_broken_rules` does.
fn report(
    alloc: Global,
    asked: Asked,
    document: &[u8],
    buffer: &mut [u8],
    output_len: &mut usize,
    count: &mut usize,
) -> u32
    ensures done { result ≡ DONE → (list : List ℕ) × Fills buffer.old buffer.new output_len.new list × Lists asked.kind (level_for asked.last) asked.platform document.now list }
    ensures small { result ≡ BUFFER_TOO_SMALL → (list : List ℕ) × Overflows buffer.old buffer.new output_len.new list × Lists asked.kind (level_for asked.last) asked.platform document.now list }
    ensures counted { result ≤ BUFFER_TOO_SMALL → Counts asked.kind (level_for asked.last) asked.platform document.now count.new }
    ensures json { result ≡ INVALID_JSON → IsNoJson document.now }
    ensures platform { result ≡ UNKNOWN_PLATFORM → FREEBSD < asked.platform }
    ensures untouched { BUFFER_TOO_SMALL < result → Untouched buffer.old buffer.new output_len.new × (count.new ≡ 0) }
    ensures known { ¬ (result ≡ UNKNOWN_KIND) × ¬ (result ≡ UNKNOWN_LEVEL) }
    ensures status { result ≤ UNKNOWN_PLATFORM }
{
    *output_len = 0;
    *count = 0;
    match found_in_text(asked, document, alloc) {
        Ok(found) => {
            *count = found.count;
            put(found.fields.as_slice(), buffer, output_len)
        }
        Err(status) => status,
    }
}

/// Writes the list of all parts of a document that break a rule of its kind, of the levels up to `level` and for the platform: of each
/// the place as a JSON pointer (RFC 6901), the name of the rule, the word of its level (must, stated, should or host), the section in
/// which it is stated, and what is wanted. Each of the five is a field, which ciderglen_next_field reads. Sets `*count` to the number
/// of parts, which is 0 exactly if every such rule is kept. That a document is valid is not asked here.
///
/// Returns CIDERGLEN_INVALID_JSON, CIDERGLEN_UNKNOWN_KIND, CIDERGLEN_UNKNOWN_LEVEL or CIDERGLEN_UNKNOWN_PLATFORM if there is nothing
/// to list. After any status but CIDERGLEN_DONE and CIDERGLEN_BUFFER_TOO_SMALL `*count` is 0.
///
/// Fields are UTF-8, and are not escaped: a name in a pointer is as the document has it, with any newline, NUL or escape sequence.
#[unsafe(no_mangle)]
pub extern "C" fn ciderglen_broken_rules(
    alloc: Global,
    kind: u32,
    level: u32,
    platform: u32,
    document: &[u8],
    buffer: &mut [u8],
    output_len: &mut usize,
    count: &mut usize,
) -> u32
    ensures done { result ≡ DONE → (list : List ℕ) × Fills buffer.old buffer.new output_len.new list × IsSomeAnd (kind_numbered kind) (λ k. IsSomeAnd (level_numbered level) (λ l. Lists k l platform document.now list)) }
    ensures small { result ≡ BUFFER_TOO_SMALL → (list : List ℕ) × Overflows buffer.old buffer.new output_len.new list × IsSomeAnd (kind_numbered kind) (λ k. IsSomeAnd (level_numbered level) (λ l. Lists k l platform document.now list)) }
    ensures counted { result ≤ BUFFER_TOO_SMALL → IsSomeAnd (kind_numbered kind) (λ k. IsSomeAnd (level_numbered level) (λ l. Counts k l platform document.now count.new)) }
    ensures json { result ≡ INVALID_JSON → IsNoJson document.now }
    ensures kind { (result ≡ UNKNOWN_KIND) ↔ (kind_numbered kind ≡ None) }
    ensures level { result ≡ UNKNOWN_LEVEL → level_numbered level ≡ None }
    ensures platform { result ≡ UNKNOWN_PLATFORM → FREEBSD < platform }
    ensures untouched { BUFFER_TOO_SMALL < result → Untouched buffer.old buffer.new output_len.new × (count.new ≡ 0) }
    ensures status { result ≤ UNKNOWN_PLATFORM }
{
    let Some(kind) = kind_of(kind) else {
        *output_len = 0;
        *count = 0;
        return UNKNOWN_KIND;
    };
    let Some(last) = level_of(level) else {
        *output_len = 0;
        *count = 0;
        return UNKNOWN_LEVEL;
    };
    let asked = Asked {
        kind,
        last,
        platform,
    };
    report(alloc, asked, document, buffer, output_len, count)
}
