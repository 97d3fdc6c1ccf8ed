//! Keys of image annotations that documents have alike.
ghost use Rattle.std.specs.Prelude.{◌≡◌, ◌++◌, map, option_map, option_and_then, bytes_eq, codes, OnOk};
ghost use Rattle.serde_json.specs.Find.{as_object};
ghost use Rattle.serde_json.specs.View.{view, members_view};
ghost use Rattle.oci_rules.specs.Decided.{begins_with};
ghost use Rattle.oci_agreement.specs.Agree.{image_keys};
ghost use Rattle.oci_agreement.specs.Images.{text_in};
ghost use Rattle.oci_agreement.specs.Copies.{expected_of, found_of};
ghost use Rattle.oci_agreement.specs.Listed.{told_of, copy_told, copies_told, of_keys, copy_seat, texts_told};

use crate::agreement::Agreement;
use crate::broken::{Broken, Document, Seat};
use crate::compared::add_texts;
use crate::parts::text_in as text_under;
use oci_schema::place::under_name;
use serde_json::{Map, Value};
use std::alloc::{AllocError, Global};

/// Two objects with annotations: what one lets expect in the other.
#[derive(Clone, Copy)]
pub struct Copies<'a, 'p> {
    pub expected: Option<&'a Value>,
    pub found: Option<&'a Value>,
    /// The document of what is found.
    pub document: Document,
    /// Where it is in there, as a JSON pointer.
    pub pointer: &'p str,
}

/// Whether the specification of images reserves the key.
fn is_image_key(key: &str) -> bool
    ensures { result ≡ begins_with image_keys key.now }
{
    key.as_bytes().starts_with(b"org.opencontainers.image.")
}

/// Adds that another value is found under the key.
fn add_value<'a>(
    copies: Copies<'a, '_>,
    key: &str,
    broken: &mut Vec<Broken<'a>>,
    alloc: Global,
) -> Result<(), AllocError>
    ensures { OnOk result (map told_of broken.new.items ≡ map told_of broken.old.items
        ++ texts_told bytes_eq (copy_seat copies.entry.document copies.entry.pointer.now key.now) (text_in key.now (expected_of copies.entry)) (text_in key.now (found_of copies.entry))) }
{
    let pointer = under_name(alloc, copies.pointer, key)?;
    let at = Seat {
        agreement: Agreement::AnnotationCopies,
        document: copies.document,
        pointer: pointer.as_str(),
    };
    let expected = text_under(copies.expected, key);
    let found = text_under(copies.found, key);
    add_texts(at, expected, found, broken, alloc)
}

/// The same, unless the key is of no image annotation.
fn add_copy<'a>(
    copies: Copies<'a, '_>,
    key: &str,
    broken: &mut Vec<Broken<'a>>,
    alloc: Global,
) -> Result<(), AllocError>
    ensures { OnOk result (map told_of broken.new.items ≡ map told_of broken.old.items
        ++ copy_told copies.entry.document copies.entry.pointer.now (expected_of copies.entry) (found_of copies.entry) key.now) }
{
    if is_image_key(key) {
        add_value(copies, key, broken, alloc)
    } else {
        Ok(())
    }
}

fn add_each_copy<'a>(
    copies: Copies<'a, '_>,
    members: &Map<String, Value>,
    broken: &mut Vec<Broken<'a>>,
    alloc: Global,
) -> Result<(), AllocError>
    ensures { OnOk result (map told_of broken.new.items ≡ map told_of broken.old.items
        ++ of_keys (copy_told copies.entry.document copies.entry.pointer.now (expected_of copies.entry) (found_of copies.entry)) (members_view members.now.entries)) }
{
    for (name, _) in members.iter() {
        add_copy(copies, name.as_str(), broken, alloc)?;
    }
    Ok(())
}

/// Adds the values that are others than are expected, in the order of what is found.
pub fn add_copies<'a>(
    copies: Copies<'a, '_>,
    broken: &mut Vec<Broken<'a>>,
    alloc: Global,
) -> Result<(), AllocError>
    ensures { OnOk result (map told_of broken.new.items ≡ map told_of broken.old.items
        ++ copies_told copies.entry.document copies.entry.pointer.now (expected_of copies.entry) (found_of copies.entry)) }
{
    match members_of(copies.found) {
        Some(members) => add_each_copy(copies, members, broken, alloc),
        None => Ok(()),
    }
}

fn members_of(value: Option<&Value>) -> Option<&Map<String, Value>>
    ensures { option_map (λ m. members_view m.now.entries) result ≡ option_and_then as_object (option_map (λ v. view v.now) value.entry) }
{
    match value {
        Some(value) => value.as_object(),
        None => None,
    }
}
