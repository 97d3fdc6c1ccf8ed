//! What is expected and what is found, where both are there.
ghost use Rattle.std.specs.Prelude.{◌≡◌, ◌++◌, map, option_map, bytes_eq, OnOk};
ghost use Rattle.serde_json.specs.Events.{items_len};
ghost use Rattle.serde_json.specs.View.{items_view};
ghost use Rattle.oci_agreement.specs.Listed.{told_of, seat_of, texts_told, counts_told, lists_told};

use crate::broken::{Broken, Seat, Shown, add_unless};
use crate::sets::have_same_texts;
use serde_json::Value;
use std::alloc::{AllocError, Global};

/// Adds that another string is found than is expected.
pub fn add_texts<'a>(
    at: Seat<'_>,
    expected: Option<&'a str>,
    found: Option<&'a str>,
    broken: &mut Vec<Broken<'a>>,
    alloc: Global,
) -> Result<(), AllocError>
    ensures { OnOk result (map told_of broken.new.items ≡ map told_of broken.old.items ++ texts_told bytes_eq (seat_of at.entry) (option_map (λ t. t.now) expected.entry) (option_map (λ t. t.now) found.entry)) }
{
    match expected {
        Some(expected) => match found {
            Some(found) => {
                let shown = (Shown::Text(expected), Shown::Text(found));
                add_unless(expected == found, at, shown, broken, alloc)
            }
            None => Ok(()),
        },
        None => Ok(()),
    }
}

/// Adds that another number is found than is expected.
pub fn add_counts<'a>(
    at: Seat<'_>,
    expected: Option<usize>,
    found: Option<usize>,
    broken: &mut Vec<Broken<'a>>,
    alloc: Global,
) -> Result<(), AllocError>
    ensures { OnOk result (map told_of broken.new.items ≡ map told_of broken.old.items ++ counts_told (seat_of at.entry) expected found) }
{
    match expected {
        Some(expected) => match found {
            Some(found) => {
                let shown = (Shown::Count(expected), Shown::Count(found));
                add_unless(expected == found, at, shown, broken, alloc)
            }
            None => Ok(()),
        },
        None => Ok(()),
    }
}

/// Adds that other strings are found than are expected.
pub fn add_lists<'a>(
    at: Seat<'_>,
    expected: Option<&'a Vec<Value>>,
    found: Option<&'a Vec<Value>>,
    broken: &mut Vec<Broken<'a>>,
    alloc: Global,
) -> Result<(), AllocError>
    ensures { OnOk result (map told_of broken.new.items ≡ map told_of broken.old.items ++ lists_told (seat_of at.entry) (option_map (λ v. items_view v.now.items) expected.entry) (option_map (λ v. items_view v.now.items) found.entry)) }
{
    match expected {
        Some(expected) => match found {
            Some(found) => {
                let is_same = have_same_texts(expected, found, alloc)?;
                let shown = (Shown::Texts(expected), Shown::Texts(found));
                add_unless(is_same, at, shown, broken, alloc)
            }
            None => Ok(()),
        },
        None => Ok(()),
    }
}
