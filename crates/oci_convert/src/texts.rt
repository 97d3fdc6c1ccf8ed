//! Texts and lists of texts that may be absent.
ghost use Rattle.std.specs.Prelude.{◌≡◌, ◌==◌, ◌++◌, ◌∷◌, if◌then◌else◌, length, map, string_bytes, IfOk, OnOk, Some, option_map};
ghost use Rattle.std.specs.List.{join_with_byte};
ghost use Rattle.oci_convert.specs.Texts.{texts_of, said, unless_empty};

use std::alloc::{AllocError, Global};

/// Adds copies of texts behind others. Fails if out of memory.
pub(crate) fn append(texts: &mut Vec<String>, more: &Option<Vec<String>>) -> Result<(), AllocError>
    ensures { OnOk result (map string_bytes texts.new.items ≡ map string_bytes texts.old.items ++ texts_of more.now) }
{
    match more {
        Some(more) => append_all(texts, more),
        None => Ok(()),
    }
}

/// The same, where there is a list. Fails if out of memory.
pub(crate) fn append_all(texts: &mut Vec<String>, more: &Vec<String>) -> Result<(), AllocError>
    ensures { OnOk result (map string_bytes texts.new.items ≡ map string_bytes texts.old.items ++ map string_bytes more.now.items) }
{
    for text in more {
        texts.push(text.clone()?)?;
    }
    Ok(())
}

/// Whether a list has no texts.
pub(crate) fn has_none(texts: &Vec<String>) -> bool
    ensures { result ≡ (length texts.now.items == 0) }
{
    texts.is_empty()
}

/// The texts with commas between. Fails if out of memory.
pub(crate) fn joined(alloc: Global, texts: &Vec<String>) -> Result<String, AllocError>
    ensures { IfOk result (λ t. string_bytes t ≡ join_with_byte 44 (map string_bytes texts.now.items)) }
{
    let mut joined = String::new(alloc);
    for (i, text) in texts.iter().enumerate() {
        push_piece(&mut joined, i, text.as_str())?;
    }
    Ok(joined)
}

/// Adds the text of this index, from 0 on, behind a comma unless it is the first.
fn push_piece(joined: &mut String, index: usize, text: &str) -> Result<(), AllocError>
    ensures { OnOk result (string_bytes joined.new ≡ string_bytes joined.old ++ (if index == 0 then text.now else (44 ∷ text.now))) }
{
    if index == 0 {
        return joined.push_str(text);
    }
    joined.push_str(",")?;
    joined.push_str(text)
}

/// A text, unless it is absent or empty.
pub(crate) fn said(text: &Option<String>) -> Option<&str>
    ensures { option_map (λ t. t.now) result ≡ said text.now }
{
    match text {
        Some(text) => unless_empty(text.as_str()),
        None => None,
    }
}

fn unless_empty(text: &str) -> Option<&str>
    ensures { option_map (λ t. t.now) result ≡ unless_empty (Some text.now) }
{
    if text.is_empty() { None } else { Some(text) }
}
