//! A plain reading of the grammar (docs/GRAMMARS.md, "Reference"), which cuts a text at its separators.

use oci_reference::{ParseError, Places};

fn is_lower(byte: u8) -> bool {
    byte.is_ascii_lowercase() || byte.is_ascii_digit()
}

fn is_separator(run: &[u8]) -> bool {
    match run {
        b"" | b"." | b"_" | b"__" => true,
        _ => run.iter().all(|byte| *byte == b'-'),
    }
}

/// Runs of small letters and digits, with separators between them; what is between two such bytes is empty.
fn is_component(text: &[u8]) -> bool {
    match (text.first(), text.last()) {
        (Some(first), Some(last)) => {
            is_lower(*first)
                && is_lower(*last)
                && text
                    .split(|byte| is_lower(*byte))
                    .all(|run| is_separator(run))
        }
        _ => false,
    }
}

fn is_path(text: &str) -> bool {
    text.split('/').all(|part| is_component(part.as_bytes()))
}

fn is_label(label: &[u8]) -> bool {
    match (label.first(), label.last()) {
        (Some(first), Some(last)) => {
            first.is_ascii_alphanumeric()
                && last.is_ascii_alphanumeric()
                && label
                    .iter()
                    .all(|byte| byte.is_ascii_alphanumeric() || *byte == b'-')
        }
        _ => false,
    }
}

fn is_host(text: &str) -> bool {
    text.split('.').all(|label| is_label(label.as_bytes()))
}

fn is_port(text: &str) -> bool {
    !text.is_empty() && text.as_bytes().iter().all(|byte| byte.is_ascii_digit())
}

fn is_domain(text: &str) -> bool {
    match text.split_once(':') {
        Some((host, port)) => is_host(host) && is_port(port),
        None => is_host(text),
    }
}

fn is_name(text: &str) -> bool {
    if is_path(text) {
        return true;
    }
    match text.split_once('/') {
        Some((domain, path)) => is_domain(domain) && is_path(path),
        None => false,
    }
}

fn is_word(byte: u8) -> bool {
    byte.is_ascii_alphanumeric() || byte == b'_'
}

fn is_tag(tag: &[u8]) -> bool {
    match tag.first() {
        Some(first) => {
            is_word(*first)
                && tag.len() <= 128
                && tag
                    .iter()
                    .all(|byte| is_word(*byte) || *byte == b'.' || *byte == b'-')
        }
        None => false,
    }
}

fn is_algorithm(text: &[u8]) -> bool {
    match text.first() {
        Some(first) => {
            first.is_ascii_alphabetic() && text.iter().all(|byte| byte.is_ascii_alphanumeric())
        }
        None => false,
    }
}

fn is_joint(byte: u8) -> bool {
    byte == b'+' || byte == b'.' || byte == b'_' || byte == b'-'
}

fn is_digest(text: &str) -> bool {
    match text.split_once(':') {
        Some((words, hex)) => {
            hex.len() >= 32
                && hex.as_bytes().iter().all(|byte| byte.is_ascii_hexdigit())
                && words
                    .as_bytes()
                    .split(|byte| is_joint(*byte))
                    .all(|word| is_algorithm(word))
        }
        None => false,
    }
}

/// The places of what ends a text.
fn at_end(text: &str, part: &str) -> (usize, usize) {
    (text.len().saturating_sub(part.len()), text.len())
}

/// The name in front of a digest, with the tag behind it.
fn cut_name(text: &str) -> Option<Places> {
    if let Some((name, tag)) = text.rsplit_once(':') {
        if is_name(name) && is_tag(tag.as_bytes()) {
            return Some(Places {
                name: name.len(),
                tag: Some(at_end(text, tag)),
                digest: None,
            });
        }
    }
    if is_name(text) {
        return Some(Places {
            name: text.len(),
            tag: None,
            digest: None,
        });
    }
    None
}

/// The places of the parts, if the text is a reference.
fn cut(text: &str) -> Option<Places> {
    let Some((front, digest)) = text.split_once('@') else {
        return cut_name(text);
    };
    if !is_digest(digest) {
        return None;
    }
    let places = cut_name(front)?;
    Some(Places {
        digest: Some(at_end(text, digest)),
        ..places
    })
}

/// What a scanner has to answer behind a text.
pub fn answer(text: &str) -> Result<Places, ParseError> {
    match cut(text) {
        Some(places) => Ok(places),
        None if text.is_empty() => Err(ParseError::NameEmpty),
        None => Err(ParseError::ReferenceInvalidFormat),
    }
}
