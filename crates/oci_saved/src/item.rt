//! What `manifest.json` and configurations say.
ghost use Rattle.std.specs.Prelude.{◌≡◌, ◌↔◌, IfOk, IsSome, IsTrue, map, option_and_then, string_bytes};
ghost use Rattle.std.specs.List.{All};
ghost use Rattle.serde_json.specs.Find.{as_str, get};
ghost use Rattle.serde_json.specs.View.{view};
ghost use Rattle.oci_layout.specs.Claims.{items_at};
ghost use Rattle.oci_model.specs.Means.{unless_null};
ghost use Rattle.oci_saved.specs.Saved.{config_name as name_of, diff_ids_of as ids_of, text_of as string_of, IsItem, IsString, MayBeStrings};

use oci_layout::{descriptor_under, items_under};
use serde_json::Value;
use sha2::{Digest, Sha256};
use std::alloc::{AllocError, Global};

/// Whether a value is an item of `manifest.json`: `Config` is a string, and `RepoTags` and `Layers` are arrays of strings, or null, or not
/// there.
pub fn is_item(value: &Value) -> bool
    ensures { IsTrue result ↔ IsItem (view value.now) }
{
    has_string(value, "Config")
        && may_be_strings(value, "RepoTags")
        && may_be_strings(value, "Layers")
}

fn has_string(value: &Value, name: &str) -> bool
    ensures { IsTrue result ↔ IsSome (option_and_then as_str (get name.now (view value.now))) }
{
    match value.get(name) {
        Some(text) => text.as_str().is_some(),
        None => false,
    }
}

fn may_be_strings(value: &Value, name: &str) -> bool
    ensures { IsTrue result ↔ MayBeStrings (option_and_then unless_null (get name.now (view value.now))) }
{
    match descriptor_under(value, name) {
        Some(texts) => match texts.as_array() {
            Some(texts) => are_strings(texts.as_slice()),
            None => false,
        },
        None => true,
    }
}

fn are_strings(values: &[Value]) -> bool
    ensures { IsTrue result ↔ All (λ v. IsString (view v)) values.now }
{
    values.iter().all(|value| value.as_str().is_some())
}

/// The items of the array under a name, none where there is none.
pub fn array_under<'v>(value: &'v Value, name: &str) -> &'v [Value]
    ensures { map view result.now ≡ items_at name.now (view value.now) }
{
    match items_under(value, name) {
        Some(items) => items.as_slice(),
        None => &[],
    }
}

/// The DiffIDs of a configuration.
pub fn diff_ids_of(config: &Value) -> &[Value]
    ensures { map view result.now ≡ ids_of (view config.now) }
{
    match config.get("rootfs") {
        Some(rootfs) => array_under(rootfs, "diff_ids"),
        None => &[],
    }
}

/// The text of a string, the empty one of another value.
pub fn text_of(value: &Value) -> &str
    ensures { result.now ≡ string_of (view value.now) }
{
    value.as_str().unwrap_or("")
}

/// The name that a configuration of these bytes has in an archive: the SHA-256 digest in lower-case hexadecimal digits, and `.json`. Fails
/// if out of memory.
pub fn config_name(alloc: Global, config: &[u8]) -> Result<String, AllocError>
    ensures { IfOk result (λ name. string_bytes name ≡ name_of config.now) }
{
    let hash = Sha256::digest(config);
    let digits = hex::encode(alloc, hash.as_slice())?;
    format!(in alloc; "{digits}.json")
}
