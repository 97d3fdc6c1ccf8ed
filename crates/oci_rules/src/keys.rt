//! The keys by which items are compared, and sets of strings.
ghost use Rattle.std.specs.Prelude.{◌≡◌, [], option_map, option_and_then, string_bytes, IfOk};
ghost use Rattle.serde_json.specs.View.{view};
ghost use Rattle.oci_base.specs.Classes.{until};
ghost use Rattle.oci_rules.specs.Parts as parts;
ghost use Rattle.oci_rules.specs.Tables.{texts_of, ways_of, key_of as key_for};

use crate::parts::{led, whole};
use crate::rule::Key;
use oci_schema::place::under_name;
use serde_json::Value;
use std::alloc::{AllocError, Global};

/// The key of an item, if it has one.
pub fn key_of(key: &Key, item: &Value, alloc: Global) -> Result<Option<String>, AllocError>
    ensures { IfOk result (λ o. option_map string_bytes o ≡ parts.key_of (key_for key.now) (view item.now)) }
{
    match key {
        Key::Itself => scalar(item, alloc),
        Key::Members(ways) => joined(ways, item, alloc),
        Key::EntryName => match item.as_str() {
            Some(text) => Ok(Some(String::from_str(alloc, entry_name(text))?)),
            None => Ok(None),
        },
    }
}

/// A string, or the digits of an integer.
fn scalar(value: &Value, alloc: Global) -> Result<Option<String>, AllocError>
    ensures { IfOk result (λ o. option_map string_bytes o ≡ parts.scalar (view value.now)) }
{
    if let Some(text) = value.as_str() {
        return Ok(Some(String::from_str(alloc, text)?));
    }
    match whole(value) {
        Some(number) => Ok(Some(format!(in alloc; "{number}")?)),
        None => Ok(None),
    }
}

/// The string or the digits to which the names lead.
fn scalar_at(way: &[&str], value: &Value, alloc: Global) -> Result<Option<String>, AllocError>
    ensures { IfOk result (λ o. option_map string_bytes o ≡ option_and_then parts.scalar (parts.led (texts_of way.now) (view value.now))) }
{
    match led(value, way) {
        Some(found) => scalar(found, alloc),
        None => Ok(None),
    }
}

/// What the ways lead to, as a JSON pointer (RFC 6901).
fn joined(ways: &[&[&str]], value: &Value, alloc: Global) -> Result<Option<String>, AllocError>
    ensures { IfOk result (λ o. option_map string_bytes o ≡ parts.joined [] (ways_of ways.now) (view value.now)) }
{
    let mut at = String::new(alloc);
    for way in ways {
        match scalar_at(way, value, alloc)? {
            Some(text) => at = under_name(alloc, at.as_str(), text.as_str())?,
            None => return Ok(None),
        }
    }
    Ok(Some(at))
}

/// What stands before the first `=`.
fn entry_name(text: &str) -> &str
    ensures { result.now ≡ until parts.equals text.now }
{
    match text.split_once('=') {
        Some((name, _)) => name,
        None => text,
    }
}
