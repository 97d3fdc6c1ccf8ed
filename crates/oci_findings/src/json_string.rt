//! What is wrong with a string of a text that is not JSON (RFC 8259, section 7).
use crate::json_fault::JsonFault;
use std::alloc::{AllocError, Global};

/// What is wrong with the string that begins at an offset. Fails if out of memory.
pub fn string_fault(text: &str, at: usize, alloc: Global) -> Result<JsonFault, AllocError> {
    let bytes = text.as_bytes();
    let mut next = at.saturating_add(1);
    for _ in 0..bytes.len() {
        match bytes.get(next) {
            Some(b'\\') => match escape_length(bytes, next) {
                Some(length) => next = next.saturating_add(length),
                None => return bad_escape(text, next, alloc),
            },
            Some(byte) if *byte < 0x20 => {
                let byte = *byte;
                return Ok(JsonFault {
                    at: next,
                    told: format!(in alloc;
                        "control character U+{byte:04X} in a string, where it is escaped"
                    )?,
                });
            }
            Some(b'"') | None => break,
            Some(_) => next = next.saturating_add(1),
        }
    }
    Ok(JsonFault {
        at: next,
        told: String::from_str(
            alloc,
            "expected the end of a string, found the end of the text",
        )?,
    })
}

/// How many bytes the escape at an offset has, with both halves of a surrogate pair; none if it is no escape.
fn escape_length(bytes: &[u8], at: usize) -> Option<usize> {
    match bytes.get(at.saturating_add(1))? {
        b'"' | b'\\' | b'/' | b'b' | b'f' | b'n' | b'r' | b't' => Some(2),
        b'u' => {
            let unit = unit_at(bytes, at)?;
            if unit & 0xfc00 == 0xdc00 {
                None
            } else if unit & 0xfc00 == 0xd800 {
                let low = unit_at(bytes, at.saturating_add(6))?;
                if low & 0xfc00 == 0xdc00 {
                    Some(12)
                } else {
                    None
                }
            } else {
                Some(6)
            }
        }
        _ => None,
    }
}

/// The number in the escape `\uXXXX` at an offset, if it is one.
fn unit_at(bytes: &[u8], at: usize) -> Option<u32> {
    let escape = bytes.get(at..at.checked_add(6)?)?;
    let digits = std::str::from_utf8(escape.strip_prefix(b"\\u")?).ok()?;
    let mut unit: u32 = 0;
    for c in digits.chars() {
        unit = unit.saturating_mul(16).saturating_add(c.to_digit(16)?);
    }
    Some(unit)
}

/// That there is no escape at an offset.
fn bad_escape(text: &str, at: usize, alloc: Global) -> Result<JsonFault, AllocError> {
    let rest = text.get(at..).unwrap_or("");
    let count = if rest.starts_with("\\u") { 6 } else { 2 };
    let shown = match rest.char_indices().nth(count) {
        Some((end, _)) => rest.get(..end).unwrap_or(""),
        None => rest,
    };
    let told = if unit_at(text.as_bytes(), at).is_some() {
        format!(in alloc; "escape `{shown}` is half of a surrogate pair")?
    } else {
        format!(in alloc; "invalid escape `{shown}`")?
    };
    Ok(JsonFault { at, told })
}
