//! A text as a tape.
ghost use Rattle.std.specs.Prelude.{◌≡◌, ◌≢◌, map, is_some, IfOk, IfSome, IsSomeAnd, Err, Some, None, MatchOption};
ghost use Rattle.serde_json.specs.Data.{Data};
ghost use Rattle.json.specs.Json.{document};
ghost use Rattle.json.specs.Strict.{HasUniqueKeys};
ghost use Rattle.json.specs.Tape.{node_token};
ghost use Rattle.serde_json.specs.Read.{read, number_of};
ghost use Rattle.oci_json_tape.specs.Elements.{BeginsWithData};
ghost use Rattle.oci_json_tape.specs.Fits.{fits};

use crate::numeral::parse_number;
use json::{Error, Node, Scratch, Tape};
use std::alloc::Global;

/// How deep a text nests at most.
const MAX_DEPTH: usize = 127;

/// The tape of a text that is JSON to `serde_json`: it nests no deeper than 127 levels, and each of its numbers is in range, also
/// in members that nobody asks for. Fails if out of memory, and for a text of 4 GiB or more.
pub fn open<'a>(
    alloc: Global,
    text: &'a str,
    scratch: &'a mut Scratch,
) -> Result<Option<Tape<'a>>, Error>
    ensures ok { IfOk result (λ o. MatchOption o (read text.now ≡ None)
        (λ tape. (d : Data) × (read text.now ≡ Some d) × BeginsWithData tape d)) }
    ensures err { (result ≢ Err Error.Invalid) × (result ≢ Err Error.DuplicateKey) }
{
    match Tape::parse(text, scratch, Vec::new(alloc)) {
        Ok(tape) => {
            if !nodes_fit(tape.nodes()) {
                return Ok(None);
            }
            Ok(Some(tape))
        }
        Err(Error::Invalid) => Ok(None),
        Err(e) => Err(e),
    }
}

/// As `open`, of a text in which no object has a name twice. Fails with `DuplicateKey` for one that has.
pub fn open_strict<'a>(
    alloc: Global,
    text: &'a str,
    scratch: &'a mut Scratch,
) -> Result<Option<Tape<'a>>, Error>
    ensures ok { IfOk result (λ o. MatchOption o (read text.now ≡ None)
        (λ tape. (d : Data) × (read text.now ≡ Some d) × BeginsWithData tape d)) }
    ensures unique { IfOk result (λ o. IfSome o (λ tape. IsSomeAnd (document text.now) HasUniqueKeys)) }
    ensures err { result ≢ Err Error.Invalid }
{
    match Tape::parse_strict(text, scratch, Vec::new(alloc)) {
        Ok(tape) => {
            if !nodes_fit(tape.nodes()) {
                return Ok(None);
            }
            Ok(Some(tape))
        }
        Err(Error::Invalid) => Ok(None),
        Err(e) => Err(e),
    }
}

/// Whether the nodes nest no deeper than a text may, and each number is in range.
fn nodes_fit(nodes: &[Node<'_>]) -> bool
    ensures { result ≡ fits 127 (map node_token nodes.now) }
{
    let mut room = MAX_DEPTH;
    for node in nodes {
        match *node {
            Node::Object(_) | Node::Array(_) => {
                if room == 0 {
                    return false;
                }
                room -= 1;
            }
            Node::EndObject | Node::EndArray => room += 1,
            Node::Number(text) => if !is_in_range(text) {
                return false;
            },
            Node::Key(_) | Node::String(_) | Node::Bool(_) | Node::Null => {}
        }
    }
    true
}

fn is_in_range(text: &str) -> bool
    ensures { result ≡ is_some (number_of text.now) }
{
    parse_number(text).is_some()
}
