ghost use Rattle.std.specs.Prelude.{◌≡◌, ◌↔◌, ◌≤◌, ℕ, List, [], length, Option, Err, IfOk, IsOk, IfErr, ◌⊎◌, IsAscii, slice_range, option_map};
ghost use Rattle.oci_reference.specs.Reference.{IsReference};
ghost use Rattle.oci_reference.specs.Pieces.{cut_at, Lies, IsPieces};

use crate::error::ParseError;
use crate::scanner::Scanner;

/// The parts of a reference, as slices of its text: the name as it is spelled, the tag behind a colon, and the digest
/// behind an `@`.
#[derive(Clone, Copy, Debug, PartialEq, Eq)]
pub struct Pieces<'a> {
    pub name: &'a str,
    pub tag: Option<&'a str>,
    pub digest: Option<&'a str>,
}

/// Cuts a reference into its parts, in one pass and without taking memory. The empty text is `NameEmpty`, and each
/// other text outside the grammar is `ReferenceInvalidFormat`.
pub fn parts(text: &str) -> Result<Pieces<'_>, ParseError>
    ensures ok { IfOk result (λ p. IsPieces text.now p) }
    ensures only { (n : List ℕ) (g d : Option (List ℕ)) → IsReference text.now n g d → IsOk result }
    ensures empty { (result ≡ Err ParseError.NameEmpty) ↔ (text.now ≡ []) }
    ensures err { IfErr result (λ e. (e ≡ ParseError.NameEmpty) ⊎ (e ≡ ParseError.ReferenceInvalidFormat)) }
{
    let mut scanner = Scanner::new();
    for b in text.as_bytes() {
        scanner.push(*b);
    }
    match scanner.finish() {
        Err(error) => Err(error),
        Ok(places) => Ok(Pieces {
            name: piece(text, 0, places.name),
            tag: optional_piece(text, places.tag),
            digest: optional_piece(text, places.digest),
        }),
    }
}

fn piece(text: &str, begin: usize, end: usize) -> &str
    requires ascii { IsAscii text.now }
    requires order { begin ≤ end }
    requires within { end ≤ length text.now }
    ensures { result.now ≡ slice_range text.now begin end }
{
    &text[begin..end]
}

fn optional_piece(text: &str, places: Option<(usize, usize)>) -> Option<&str>
    requires ascii { IsAscii text.now }
    requires lies { Lies text.now places }
    ensures { option_map (λ x. x.now) result ≡ cut_at text.now places }
{
    match places {
        None => None,
        Some((begin, end)) => Some(piece(text, begin, end)),
    }
}
