//! Whether the identifiers of a licence expression are in a list.
ghost use Rattle.std.specs.Prelude.{◌≡◌, ◌↔◌, IsTrue, false};
ghost use Rattle.oci_grammars.specs.DecidedLicenses as decided;
ghost use Rattle.oci_grammars.specs.DecidedUris.{is_word_of};
ghost use Rattle.oci_grammars.specs.Licenses.{pieces, words_in, HasListed};

use crate::cuts::cut;
use crate::licenses::{first_word, is_identifier, is_reference, is_spdx_expression};
use crate::uris::is_any_case;

/// Lists of identifiers, each of them joined by spaces.
#[derive(Clone, Copy)]
struct Lists<'a> {
    licenses: &'a [u8],
    exceptions: &'a [u8],
}

/// Returns whether each licence of an expression is one of the first, and each exception one of the second, in any case; each list
/// is identifiers joined by spaces. A text that is no licence expression has no licences.
pub fn has_listed_licenses(text: &str, licenses: &str, exceptions: &str) -> bool
    ensures { IsTrue result ↔ HasListed (words_in licenses.now) (words_in exceptions.now) text.now }
{
    let bytes = text.as_bytes();
    let licenses = licenses.as_bytes();
    let exceptions = exceptions.as_bytes();
    let lists = Lists {
        licenses,
        exceptions,
    };
    !is_spdx_expression(bytes) | are_listed(lists, bytes)
}

fn are_listed(lists: Lists<'_>, text: &[u8]) -> bool
    ensures { result ≡ decided.are_listed (words_in lists.entry.licenses.now) (words_in lists.entry.exceptions.now) false (pieces text.now) }
{
    let mut listed = true;
    let mut behind_with = false;
    let mut rest = text;
    while !rest.is_empty() {
        let (word, others) = first_word(rest);
        if let Some(word) = word {
            listed &= is_listed(lists, behind_with, word);
            behind_with = is_with(word);
        }
        rest = others;
    }
    listed
}

fn is_with(word: &[u8]) -> bool
    ensures { result ≡ decided.is_with word.now }
{
    word == b"WITH".as_slice()
}

fn is_listed(lists: Lists<'_>, behind_with: bool, word: &[u8]) -> bool
    ensures { result ≡ decided.is_listed (words_in lists.entry.licenses.now) (words_in lists.entry.exceptions.now) behind_with word.now }
{
    if behind_with {
        is_word_in(lists.exceptions, word)
    } else {
        let (license, _) = cut(word, b'+');
        !is_identifier(word) | (is_reference(word) | is_word_in(lists.licenses, license))
    }
}

/// Returns whether the text is one of the words of the list, in any case.
fn is_word_in(list: &[u8], text: &[u8]) -> bool
    ensures { result ≡ is_word_of (words_in list.now) text.now }
{
    let mut found = false;
    let mut rest = list;
    while rest.contains(&b' ') {
        let (word, others) = cut(rest, b' ');
        found |= is_any_case(text, word);
        rest = others;
    }
    found | is_any_case(text, rest)
}
