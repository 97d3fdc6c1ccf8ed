//! The commands `rules` and `schema`.
ghost use Rattle.std.specs.Prelude.{◌≡◌, None, Some, true, false, IfOk, IfSome, OnOk, string_bytes};
ghost use Rattle.oci_commands.specs.Books.{AreObjectsNamed, AreRulesNamed, AreShownRules, is_rule as is_rule_of, IsKnown, IsUnknown, WroteRules};
ghost use Rattle.oci_commands.specs.RuleTexts.{AreAllRuleObjects};
ghost use Rattle.oci_commands.specs.Done.{IsStatus};
ghost use Rattle.oci_commands.specs.Schemas.{IsSchemaOf, WroteSchema};

use crate::asked::{Outline, Style};
use crate::books::{Versions, all_rules, is_rule, rules_of_kind};
use crate::json_schema::json_schema_of;
use crate::nearest::nearest_rule_or_kind;
use crate::rule_objects::{objects_of_kind, objects_of_rules};
use crate::rules_named::rules_of_name;
use crate::table::table_of;
use crate::texts::complain_of;
use oci_base::Result;
use oci_findings::{RuleBooks, kind_named};
use oci_json::write_text;
use oci_schemas::Kind;
use std::alloc::{AllocError, Global};
use std::io::Write;

/// Writes the rules of all kinds of documents and the versions that they hold to, or those of a kind, or a rule, by its name. Returns 0
/// if that was done, and 1 if there is no such kind and no such rule.
pub fn rules<B: RuleBooks + Versions, W: Write, E: Write>(
    books: &B,
    style: Style,
    name: Option<&str>,
    alloc: Global,
    writer: &mut W,
    errors: &mut E,
) -> Result<u8>
    ensures status { IfOk result IsStatus }
    ensures done { IfOk result (λ s. s ≡ 0 → WroteRules (B.rules books.now) style name.entry (W.contents writer.old) (W.contents writer.new)) }
    ensures wrong { IfOk result (λ s. s ≡ 1 → IsUnknown (B.rules books.now) name.entry) }
{
    match chosen(books, style, name, alloc)? {
        Some(text) => {
            write_text(text.as_bytes(), writer)?;
            Ok(0)
        }
        None => {
            say_no_name(books, name.unwrap_or(""), alloc, errors)?;
            Ok(1)
        }
    }
}

/// Says that there is no such kind and no such rule, and which name is nearest, if one is near.
fn say_no_name<B: RuleBooks, E: Write>(
    books: &B,
    name: &str,
    alloc: Global,
    errors: &mut E,
) -> Result<()> {
    match nearest_rule_or_kind(books, name, alloc)? {
        Some(near) => {
            let fault = format!(in alloc;
                "no kind of documents and no rule has this name; the nearest is {near}"
            )?;
            complain_of(name, &fault, alloc, errors);
        }
        None => {
            let fault = "no kind of documents and no rule has this name";
            complain_of(name, &fault, alloc, errors);
        }
    }
    Ok(())
}

/// The rules of all kinds, or of the kind or rule of this name, for people or for programs; none if there is no such.
fn chosen<B: RuleBooks + Versions>(
    books: &B,
    style: Style,
    name: Option<&str>,
    alloc: Global,
) -> std::result::Result<Option<String>, AllocError>
    ensures some { IfOk result (λ o. IfSome o (λ t. IsKnown (B.rules books.now) name.entry × AreShownRules (B.rules books.now) style name.entry (string_bytes t))) }
    ensures none { IfOk result (λ o. o ≡ None → IsUnknown (B.rules books.now) name.entry) }
{
    match style {
        Style::Json => objects(books, name, alloc),
        Style::Text | Style::Color | Style::Sarif | Style::Github => text_of(books, name, alloc),
    }
}

/// The same as JSON Lines.
fn objects<B: RuleBooks>(
    books: &B,
    name: Option<&str>,
    alloc: Global,
) -> std::result::Result<Option<String>, AllocError>
    ensures some { IfOk result (λ o. IfSome o (λ t. IsKnown (B.rules books.now) name.entry × AreObjectsNamed (B.rules books.now) name.entry (string_bytes t))) }
    ensures none { IfOk result (λ o. o ≡ None → IsUnknown (B.rules books.now) name.entry) }
{
    match name {
        None => Ok(Some(objects_of_rules(books, None, alloc)?)),
        Some(name) => match kind_named(name) {
            Some(kind) => Ok(Some(objects_of_kind(books, kind, None, alloc)?)),
            None => objects_named(books, name, alloc),
        },
    }
}

/// The rules of a name as JSON Lines; none if there is no such.
fn objects_named<B: RuleBooks>(
    books: &B,
    name: &str,
    alloc: Global,
) -> std::result::Result<Option<String>, AllocError>
    ensures some { IfOk result (λ o. IfSome o (λ t. (is_rule_of (B.rules books.now) name.now ≡ true) × AreAllRuleObjects (B.rules books.now) (Some name.now) (string_bytes t))) }
    ensures none { IfOk result (λ o. o ≡ None → is_rule_of (B.rules books.now) name.now ≡ false) }
{
    if !is_rule(books, name, alloc)? {
        return Ok(None);
    }
    Ok(Some(objects_of_rules(books, Some(name), alloc)?))
}

/// The rules of all kinds, or of the kind or rule of this name; none if there is no such.
fn text_of<B: RuleBooks + Versions>(
    books: &B,
    name: Option<&str>,
    alloc: Global,
) -> std::result::Result<Option<String>, AllocError>
    ensures some { IfOk result (λ o. IfSome o (λ t. IsKnown (B.rules books.now) name.entry × AreRulesNamed (B.rules books.now) name.entry (string_bytes t))) }
    ensures none { IfOk result (λ o. o ≡ None → IsUnknown (B.rules books.now) name.entry) }
{
    match name {
        None => Ok(Some(all_rules(books, alloc)?)),
        Some(name) => match kind_named(name) {
            Some(kind) => Ok(Some(rules_of_kind(books, kind, alloc)?)),
            None => rules_of_name(books, name, alloc),
        },
    }
}

/// Writes the members of a kind of documents, and of each record that they name, or its JSON Schema.
pub fn schema<W: Write>(outline: Outline, kind: Kind, alloc: Global, writer: &mut W) -> Result<()>
    ensures { OnOk result (WroteSchema outline kind (W.contents writer.old) (W.contents writer.new)) }
{
    let text = schema_text(outline, kind, alloc)?;
    write_text(text.as_bytes(), writer)?;
    Ok(())
}

fn schema_text(outline: Outline, kind: Kind, alloc: Global) -> Result<String>
    ensures { IfOk result (λ t. IsSchemaOf outline kind (string_bytes t)) }
{
    match outline {
        Outline::Table => Ok(table_of(kind, alloc)?),
        Outline::JsonSchema => json_schema_of(kind, alloc),
    }
}
