//! The documents on standard input.
use oci_schemas::Kind;

/// A document of a kind.
#[derive(Clone, Copy)]
pub struct Case<'a> {
    /// The kind.
    pub kind: Kind,
    /// The document, or what is to be rejected as one.
    pub bytes: &'a [u8],
}

/// The first document, and what is left behind it; `None` at the end, or if a line names no kind or more bytes than there are.
pub fn next_case(input: &[u8]) -> Option<(Case<'_>, &[u8])> {
    let end = input.iter().position(|byte| *byte == b'\n')?;
    if end >= input.len() {
        return None;
    }
    let (line, rest) = (&input[..end], &input[end + 1..]);
    let (kind, length) = std::str::from_utf8(line).ok()?.split_once(' ')?;
    let kind = Kind::from_word(kind)?;
    let length = length.parse::<usize>().ok()?;
    if rest.len() < length {
        return None;
    }
    let bytes = &rest[..length];
    Some((Case { kind, bytes }, &rest[length..]))
}
