ghost use Rattle.std.specs.Prelude.{◌≡◌, option_map, ◌==◌, if◌then◌else◌, length, Some, None};
ghost use Rattle.std.specs.Char.{is_ascii_uppercase};
ghost use Rattle.std.specs.List.{list_any};
ghost use Rattle.oci_reference.specs.Accepted.{limit, digest_limit};
ghost use Rattle.oci_reference.specs.Named.{names_of};

use crate::ParseError;
use crate::names::{Named, cut_at};

/// The greatest length of a repository, in bytes.
const NAME_TOTAL_LENGTH_MAX: usize = 255;

/// Why repository and digest are refused, if they are.
pub(crate) fn limit(names: &Named<'_>, digest: Option<&str>) -> Option<ParseError>
    ensures { result ≡ limit (names_of names.now).1 (option_map (λ d. d.now) digest.entry) }
{
    if has_uppercase(names.rest) {
        Some(ParseError::NameContainsUppercase)
    } else if repository_len(names) > NAME_TOTAL_LENGTH_MAX {
        Some(ParseError::NameTooLong)
    } else {
        digest_limit(digest)
    }
}

// `library/` has no uppercase letter, and 8 bytes
fn repository_len(names: &Named<'_>) -> usize
    ensures { result ≡ length (names_of names.now).1 }
{
    if names.library {
        names.rest.len() + 8
    } else {
        names.rest.len()
    }
}

fn has_uppercase(text: &str) -> bool
    ensures { result ≡ list_any is_ascii_uppercase text.now }
{
    text.as_bytes().iter().any(|b| b.is_ascii_uppercase())
}

fn digest_limit(digest: Option<&str>) -> Option<ParseError>
    ensures { result ≡ digest_limit (option_map (λ d. d.now) digest.entry) }
{
    match digest {
        None => None,
        Some(digest) => sha_limit(digest),
    }
}

fn sha_limit(digest: &str) -> Option<ParseError>
    ensures { result ≡ digest_limit (Some digest.now) }
{
    let (algorithm, digits) = cut_at(digest, ':');
    match algorithm {
        "sha256" => if_digits(64, digits),
        "sha384" => if_digits(96, digits),
        "sha512" => if_digits(128, digits),
        _ => Some(ParseError::DigestUnsupported),
    }
}

fn if_digits(count: usize, digits: &str) -> Option<ParseError>
    ensures { result ≡ (if length digits.now == count then None else Some ParseError.DigestInvalidLength) }
{
    if digits.len() == count {
        None
    } else {
        Some(ParseError::DigestInvalidLength)
    }
}
