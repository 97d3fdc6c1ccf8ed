//! Which name may be meant by one that is not known.
ghost use Rattle.std.specs.Prelude.{◌≡◌, ◌≤◌, length, None, IfOk};

use oci_findings::RuleBooks;
use oci_rules::Rule;
use oci_schemas::KINDS;
use std::alloc::{AllocError, Global};
use strsim::damerau_levenshtein;

/// How long a name may be to which a near one is sought.
const LONGEST: usize = 64;

/// The known name that is nearest to this name, if one is near: at most a third of the bytes of the name as characters have to be put in,
/// left out, changed or exchanged with the next, as for the names of members. None is near to a name of more than 64 bytes. Fails if out
/// of memory.
pub fn nearest<'a>(
    name: &str,
    known: &[&'a str],
    alloc: Global,
) -> Result<Option<&'a str>, AllocError>
    ensures long { 65 ≤ length name.now → IfOk result (λ near. near ≡ None) }
{
    if name.len() > LONGEST {
        return Ok(None);
    }
    let mut best = None;
    let mut least = name.len() / 3 + 1;
    for other in known {
        let distance = damerau_levenshtein(alloc, name, other)?;
        if distance < least {
            best = Some(*other);
            least = distance;
        }
    }
    Ok(best)
}

/// The name of a rule that is nearest to this name, if one is near. Fails if out of memory.
pub fn nearest_rule<B: RuleBooks>(
    books: &B,
    name: &str,
    alloc: Global,
) -> Result<Option<&'static str>, AllocError>
    ensures long { 65 ≤ length name.now → IfOk result (λ near. near ≡ None) }
{
    let mut known = Vec::new(alloc);
    add_rules(books, &mut known, alloc)?;
    nearest(name, &known, alloc)
}

/// The same of the names of rules and the words for kinds of documents.
pub fn nearest_rule_or_kind<B: RuleBooks>(
    books: &B,
    name: &str,
    alloc: Global,
) -> Result<Option<&'static str>, AllocError>
    ensures long { 65 ≤ length name.now → IfOk result (λ near. near ≡ None) }
{
    let mut known = Vec::new(alloc);
    for kind in &KINDS {
        known.push(kind.word())?;
    }
    add_rules(books, &mut known, alloc)?;
    nearest(name, &known, alloc)
}

/// Adds the names of the rules of the specifications.
pub fn add_rules<'a, B: RuleBooks>(
    books: &B,
    known: &mut Vec<&'a str>,
    alloc: Global,
) -> Result<(), AllocError> {
    for kind in &KINDS {
        for book in books.books_of(*kind, alloc)? {
            add_names(book, known)?;
        }
    }
    Ok(())
}

/// Adds the names of rules; several parts of one rule stand one behind the other.
pub fn add_names<'a>(rules: &'a [Rule<'_>], known: &mut Vec<&'a str>) -> Result<(), AllocError> {
    let mut last = "";
    for rule in rules {
        if rule.name != last {
            last = rule.name;
            known.push(last)?;
        }
    }
    Ok(())
}
