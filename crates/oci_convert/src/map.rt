//! Annotations in a map.
ghost use Rattle.std.specs.Prelude.{◌≡◌, ℕ, List, Some, OnOk};
ghost use Rattle.std.specs.Option.{option_or};
ghost use Rattle.oci_convert.specs.Texts.{text_of, list_of};
ghost use Rattle.oci_convert.specs.Maps.{Sets, joined, look};

use crate::texts::joined;
use std::alloc::{AllocError, Global};
use std::collections::BTreeMap;

/// Annotations by their keys.
pub(crate) type Annotations = BTreeMap<String, String>;

/// Sets a key.
pub(crate) fn put(
    map: &mut Annotations,
    alloc: Global,
    key: &str,
    value: &str,
) -> Result<(), AllocError>
    ensures { OnOk result (Sets key.now (Some value.now) (look map.old) (look map.new)) }
{
    let key = String::from_str(alloc, key)?;
    let value = String::from_str(alloc, value)?;
    drop(map.insert(key, value)?);
    Ok(())
}

/// Sets a key where there is a value.
pub(crate) fn put_text(
    map: &mut Annotations,
    alloc: Global,
    key: &str,
    value: &Option<String>,
) -> Result<(), AllocError>
    ensures { OnOk result (Sets key.now (text_of value.now) (look map.old) (look map.new)) }
{
    match value {
        Some(value) => put(map, alloc, key, value.as_str()),
        None => Ok(()),
    }
}

/// Sets a key where there is a list.
pub(crate) fn put_list(
    map: &mut Annotations,
    alloc: Global,
    key: &str,
    list: &Option<Vec<String>>,
) -> Result<(), AllocError>
    ensures { OnOk result (Sets key.now (joined (list_of list.now)) (look map.old) (look map.new)) }
{
    match list {
        Some(list) => put(map, alloc, key, joined(alloc, list)?.as_str()),
        None => Ok(()),
    }
}

/// The labels, which replace all else.
pub(crate) fn put_labels(
    map: &mut Annotations,
    alloc: Global,
    labels: &Annotations,
) -> Result<(), AllocError>
    ensures { OnOk result ((q : List ℕ) → look map.new q ≡ option_or (look labels.now q) (look map.old q)) }
{
    for (key, value) in labels.iter() {
        put(map, alloc, key.as_str(), value.as_str())?;
    }
    Ok(())
}
