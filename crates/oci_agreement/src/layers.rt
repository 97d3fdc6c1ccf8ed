//! The layers of a manifest beside the DiffIDs and the history of its configuration.
ghost use Rattle.std.specs.Prelude.{◌≡◌, ◌++◌, map, option_map, codes, OnOk};
ghost use Rattle.serde_json.specs.Find.{as_str};
ghost use Rattle.serde_json.specs.View.{view, items_view};
ghost use Rattle.oci_base.specs.Classes.{until};
ghost use Rattle.oci_rules.specs.Decided.{all_items};
ghost use Rattle.oci_rules.specs.Parts as parts;
ghost use Rattle.oci_agreement.specs.Agree.{colon};
ghost use Rattle.oci_agreement.specs.Images.{image_of};
ghost use Rattle.oci_agreement.specs.Listed as listed;
ghost use Rattle.oci_agreement.specs.Listed.{told_of, seat_of, texts_told, layers_told, diff_ids_told, diff_id_seat};

use crate::agreement::Agreement;
use crate::broken::{Broken, Document, Seat, Shown, add_unless};
use crate::image::{Image, has_image_config};
use crate::parts::text_at;
use crate::types::{is_layer_type, is_plain_type};
use oci_schema::place::under_index;
use serde_json::Value;
use std::alloc::{AllocError, Global};

/// Whether the configuration is an image's, and each layer one of a filesystem. Some artifacts have an image's type of configuration for
/// other things (image specification, "Guidance for Artifacts Authors").
pub fn is_filesystem_image(image: &Image<'_>) -> bool
    ensures { result ≡ listed.is_filesystem_image (image_of image.now) }
{
    has_image_config(image.manifest) && are_layers(image.layers())
}

fn are_layers(layers: Option<&Vec<Value>>) -> bool
    ensures { result ≡ listed.are_layers (option_map (λ v. items_view v.now.items) layers.entry) }
{
    match layers {
        Some(layers) => is_each_layer(layers),
        None => true,
    }
}

fn is_each_layer(layers: &Vec<Value>) -> bool
    ensures { result ≡ all_items listed.is_layer (items_view layers.now.items) }
{
    for layer in layers {
        if !is_layer(layer) {
            return false;
        }
    }
    true
}

fn is_layer(layer: &Value) -> bool
    ensures { result ≡ listed.is_layer (view layer.now) }
{
    match text_at(layer, "mediaType") {
        Some(media_type) => is_layer_type(media_type),
        None => false,
    }
}

/// How many entries of a history are of a layer.
pub fn count_filled(history: &Vec<Value>) -> usize
    ensures { result ≡ parts.without (codes "empty_layer") (items_view history.now.items) }
{
    let mut count = 0;
    for entry in history {
        if !is_empty_layer(entry) {
            count += 1;
        }
    }
    count
}

fn is_empty_layer(entry: &Value) -> bool
    ensures { result ≡ parts.is_true (codes "empty_layer") (view entry.now) }
{
    match entry.get("empty_layer") {
        Some(member) => match member.as_bool() {
            Some(boolean) => boolean,
            None => false,
        },
        None => false,
    }
}

/// The digest of a layer that is not compressed.
fn plain_digest(layer: &Value) -> Option<&str>
    ensures { option_map (λ t. t.now) result ≡ listed.plain_digest (view layer.now) }
{
    if is_plain(layer) {
        text_at(layer, "digest")
    } else {
        None
    }
}

fn is_plain(layer: &Value) -> bool
    ensures { result ≡ listed.is_plain (view layer.now) }
{
    match text_at(layer, "mediaType") {
        Some(media_type) => is_plain_type(media_type),
        None => false,
    }
}

/// What stands before the first colon of a digest.
fn algorithm(digest: &str) -> &str
    ensures { result.now ≡ until colon digest.now }
{
    match digest.split_once(':') {
        Some((algorithm, _)) => algorithm,
        None => digest,
    }
}

/// Whether two digests are one, or by different algorithms.
fn is_same_digest(one: &str, other: &str) -> bool
    ensures { result ≡ listed.is_same_digest one.now other.now }
{
    algorithm(one) != algorithm(other) || one == other
}

/// Adds that a layer has another digest than its DiffID.
fn add_diff_id<'a>(
    index: usize,
    layer: &'a Value,
    id: &'a Value,
    broken: &mut Vec<Broken<'a>>,
    alloc: Global,
) -> Result<(), AllocError>
    ensures { OnOk result (map told_of broken.new.items ≡ map told_of broken.old.items ++ texts_told listed.is_same_digest (diff_id_seat index) (listed.plain_digest (view layer.now)) (as_str (view id.now))) }
{
    match plain_digest(layer) {
        Some(expected) => match id.as_str() {
            Some(found) => add_digest(index, expected, found, broken, alloc),
            None => Ok(()),
        },
        None => Ok(()),
    }
}

fn add_digest<'a>(
    index: usize,
    expected: &'a str,
    found: &'a str,
    broken: &mut Vec<Broken<'a>>,
    alloc: Global,
) -> Result<(), AllocError>
    ensures { OnOk result (map told_of broken.new.items ≡ map told_of broken.old.items ++ listed.digest_told index expected.now found.now) }
{
    let pointer = under_index(alloc, "/rootfs/diff_ids", index)?;
    let at = Seat {
        agreement: Agreement::DiffId,
        document: Document::Configuration,
        pointer: pointer.as_str(),
    };
    let shown = (Shown::Text(expected), Shown::Text(found));
    add_unless(is_same_digest(expected, found), at, shown, broken, alloc)
}

/// Adds the layers that have another digest than their DiffIDs.
fn add_each_diff_id<'a>(
    layers: &'a Vec<Value>,
    ids: &'a Vec<Value>,
    broken: &mut Vec<Broken<'a>>,
    alloc: Global,
) -> Result<(), AllocError>
    ensures { OnOk result (map told_of broken.new.items ≡ map told_of broken.old.items ++ diff_ids_told 0 (items_view layers.now.items) (items_view ids.now.items)) }
{
    'each: for index in 0..layers.len().min(ids.len()) {
        add_diff_id(index, &layers[index], &ids[index], broken, alloc)?;
    }
    Ok(())
}

/// The same, where there are both.
pub fn add_diff_ids<'a>(
    layers: Option<&'a Vec<Value>>,
    ids: Option<&'a Vec<Value>>,
    broken: &mut Vec<Broken<'a>>,
    alloc: Global,
) -> Result<(), AllocError>
    ensures { OnOk result (map told_of broken.new.items ≡ map told_of broken.old.items ++ layers_told (option_map (λ v. items_view v.now.items) layers.entry) (option_map (λ v. items_view v.now.items) ids.entry)) }
{
    match layers {
        Some(layers) => match ids {
            Some(ids) => add_each_diff_id(layers, ids, broken, alloc),
            None => Ok(()),
        },
        None => Ok(()),
    }
}
