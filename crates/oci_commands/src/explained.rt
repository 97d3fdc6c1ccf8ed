//! The command `explain`.
ghost use Rattle.std.specs.Prelude.{◌≡◌, false, IfOk};
ghost use Rattle.oci_commands.specs.Books.{is_rule, WroteRule};
ghost use Rattle.oci_commands.specs.Done.{IsStatus};

use crate::nearest::nearest_rule;
use crate::rules_named::rules_of_name;
use crate::texts::complain_of;
use oci_base::Result;
use oci_findings::RuleBooks;
use oci_json::write_text;
use oci_rule_examples::{Example, example_of};
use std::alloc::{AllocError, Global};
use std::io::Write;

/// Writes what a rule asks, where and why, and an example of a document that breaks it beside one that keeps it. Returns 0 if that was
/// done, and 1 if no rule has this name, which a line on standard error says, with the nearest name if one is near.
pub fn explain<B: RuleBooks, W: Write, E: Write>(
    books: &B,
    name: &str,
    alloc: Global,
    writer: &mut W,
    errors: &mut E,
) -> Result<u8>
    ensures status { IfOk result IsStatus }
    ensures done { IfOk result (λ s. s ≡ 0 → WroteRule (B.rules books.now) name.now (W.contents writer.old) (W.contents writer.new)) }
    ensures wrong { IfOk result (λ s. s ≡ 1 → is_rule (B.rules books.now) name.now ≡ false) }
{
    match rules_of_name(books, name, alloc)? {
        Some(told) => {
            let example = example_of_rule(name, alloc)?;
            let text = format!(in alloc; "{told}{example}")?;
            write_text(text.as_bytes(), writer)?;
            Ok(0)
        }
        None => {
            say_no_rule(books, name, alloc, errors)?;
            Ok(1)
        }
    }
}

/// Why a rule is asked and its example; nothing if it has none.
fn example_of_rule(name: &str, alloc: Global) -> std::result::Result<String, AllocError> {
    match example_of(name) {
        Some(example) => example_lines(example, alloc),
        None => Ok(String::new(alloc)),
    }
}

fn example_lines(example: &Example, alloc: Global) -> std::result::Result<String, AllocError> {
    let (why, within) = (example.why, example.within);
    let (breaks, keeps) = (example.breaks, example.keeps);
    format!(in alloc; "why: {why}\nexample: {within}\n  breaks it: {breaks}\n  keeps it: {keeps}\n")
}

fn say_no_rule<B: RuleBooks, E: Write>(
    books: &B,
    name: &str,
    alloc: Global,
    errors: &mut E,
) -> Result<()> {
    match nearest_rule(books, name, alloc)? {
        Some(near) => {
            let fault = format!(in alloc; "no rule has this name; the nearest is {near}")?;
            complain_of(name, &fault, alloc, errors);
        }
        None => complain_of(name, &"no rule has this name", alloc, errors),
    }
    Ok(())
}
