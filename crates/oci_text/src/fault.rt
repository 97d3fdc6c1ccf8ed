//! Why a text is no digest (image specification, "Content Descriptors", "Digests").
ghost use Rattle.std.specs.Prelude.{◌≡◌, ◌++◌, option_map, Some, IfOk, string_bytes, position, codes, decimal};
ghost use Rattle.std.specs.List.{list_all, slice_split};
ghost use Rattle.oci_base.specs.Classes.{is_lower, is_lower_hex, is_encoded_byte, is_joint};
ghost use Rattle.oci_base.specs.Digest.{component_refusal, part_refusal, sha_refusal, digits_refusal, encoded_refusal, digest_refusal};
ghost use Rattle.oci_base.specs.Refused.{Refuses};
ghost use Rattle.oci_text.specs.Faults.{fault_text};

use oci_base::OciSpecError;
use oci_base::classes::{is_encoded_byte, is_joint, is_lower, is_lower_hex};
use std::alloc::{AllocError, Global};

/// The first rule that a text breaks.
#[derive(Clone, Copy)]
pub(crate) enum Fault<'a> {
    NoColon,
    EmptyComponent,
    Component(&'a str),
    EmptyValue,
    Value(&'a str),
    Length(usize, usize),
    NotHex(&'a str),
}

impl<'a> Fault<'a> {
    /// What the refusal says.
    pub(crate) fn message(self, alloc: Global) -> Result<String, AllocError>
        ensures { IfOk result (λ t. string_bytes t ≡ fault_text self.entry) }
    {
        match self {
            Fault::NoColon => String::from_str(alloc, "missing ':' in digest"),
            Fault::EmptyComponent => String::from_str(alloc, "Empty algorithm component"),
            Fault::Component(part) => format!(in alloc; "Invalid algorithm component: {part}"),
            Fault::EmptyValue => String::from_str(alloc, "Empty algorithm value"),
            Fault::Value(encoded) => format!(in alloc; "Invalid encoded value {encoded}"),
            Fault::Length(found, expected) => wrong_length(alloc, found, expected),
            Fault::NotHex(encoded) => {
                format!(in alloc; "Invalid non-hexadecimal character in digest: {encoded}")
            }
        }
    }

    /// The refusal: `Other` of what it says, or `Memory`.
    pub(crate) fn refusal(self, alloc: Global) -> OciSpecError
        ensures { Refuses (Some (fault_text self.entry)) result }
    {
        match self.message(alloc) {
            Ok(text) => OciSpecError::Other(text),
            Err(_) => OciSpecError::Memory,
        }
    }
}

fn wrong_length(alloc: Global, found: usize, expected: usize) -> Result<String, AllocError>
    ensures { IfOk result (λ t. string_bytes t
        ≡ codes "Invalid digest length " ++ (decimal found ++ (codes " expected " ++ decimal expected))) }
{
    format!(in alloc; "Invalid digest length {found} expected {expected}")
}

/// Why the text is no digest, if it is none.
pub(crate) fn digest_fault(text: &str) -> Option<Fault<'_>>
    ensures { option_map fault_text result ≡ digest_refusal text.now }
{
    match text.split_once(':') {
        None => Some(Fault::NoColon),
        Some((algorithm, encoded)) => match components_fault(algorithm) {
            Some(fault) => Some(fault),
            None => encoded_fault(algorithm, encoded),
        },
    }
}

// the components of an algorithm, from the left
fn components_fault(algorithm: &str) -> Option<Fault<'_>>
    ensures { option_map fault_text result ≡ component_refusal (slice_split is_joint algorithm.now) }
{
    let mut rest = algorithm;
    while let Some(end) = first_joint(rest) {
        let fault = component_fault(&rest[..end]);
        if fault.is_some() {
            return fault;
        }
        rest = &rest[end + 1..];
    }
    component_fault(rest)
}

fn first_joint(text: &str) -> Option<usize>
    ensures { result ≡ position is_joint text.now }
{
    text.as_bytes().iter().position(|b| is_joint(*b))
}

fn component_fault(part: &str) -> Option<Fault<'_>>
    ensures { option_map fault_text result ≡ part_refusal part.now }
{
    if part.is_empty() {
        Some(Fault::EmptyComponent)
    } else if all_lower(part) {
        None
    } else {
        Some(Fault::Component(part))
    }
}

fn encoded_fault<'a>(algorithm: &str, encoded: &'a str) -> Option<Fault<'a>>
    ensures { option_map fault_text result ≡ encoded_refusal algorithm.now encoded.now }
{
    if encoded.is_empty() {
        Some(Fault::EmptyValue)
    } else if all_encoded(encoded) {
        digits_fault(algorithm, encoded)
    } else {
        Some(Fault::Value(encoded))
    }
}

fn digits_fault<'a>(algorithm: &str, encoded: &'a str) -> Option<Fault<'a>>
    ensures { option_map fault_text result ≡ digits_refusal algorithm.now encoded.now }
{
    match algorithm {
        "sha256" => sha_fault(64, encoded),
        "sha384" => sha_fault(96, encoded),
        "sha512" => sha_fault(128, encoded),
        _ => None,
    }
}

fn sha_fault(digits: usize, encoded: &str) -> Option<Fault<'_>>
    ensures { option_map fault_text result ≡ sha_refusal digits encoded.now }
{
    if encoded.len() != digits {
        Some(Fault::Length(encoded.len(), digits))
    } else if are_lower_hex(encoded.as_bytes()) {
        None
    } else {
        Some(Fault::NotHex(encoded))
    }
}

fn all_lower(text: &str) -> bool
    ensures { result ≡ list_all is_lower text.now }
{
    text.as_bytes().iter().all(|b| is_lower(*b))
}

fn all_encoded(text: &str) -> bool
    ensures { result ≡ list_all is_encoded_byte text.now }
{
    text.as_bytes().iter().all(|b| is_encoded_byte(*b))
}

/// Whether each byte is a lowercase hexadecimal digit. It looks at all of them, so that a compiler may take several at once.
pub(crate) fn are_lower_hex(bytes: &[u8]) -> bool
    ensures { result ≡ list_all is_lower_hex bytes.now }
{
    let mut sound = true;
    for b in bytes {
        sound = sound & is_lower_hex(*b);
    }
    sound
}
