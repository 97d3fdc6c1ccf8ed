//! Whether an archive is what `docker save` writes.
ghost use Rattle.std.specs.Prelude.{◌≡◌, ◌↔◌, ◌++◌, ◌<◌, [], length, map, string_bytes, IfOk, OnOk};
ghost use Rattle.std.specs.List.{All};
ghost use Rattle.serde_json.specs.Find.{as_array};
ghost use Rattle.serde_json.specs.View.{view};
ghost use Rattle.oci_layout.specs.Documents.{IsValid};
ghost use Rattle.oci_shapes.specs.ImageConfiguration.{image_configuration as configuration};
ghost use Rattle.oci_saved.specs.Facts.{told_layer, Adds, AddsUnless, AreImages, HasConfig, IsConfigValue, IsDocument, IsLayerOr, IsManifestOf, IsSo, IsSoAt, IsSoOf};
ghost use Rattle.oci_saved.specs.Files.{files_at, has_digest, OverFiles};
ghost use Rattle.oci_saved.specs.Saved.{config_of, diff_ids_of as ids_of, layers_of, AreLayers, IsConfig, IsSaved, IsSavedImage};

use crate::document::{Document, document_at};
use crate::fault::{ItemFault, SavedFault};
use crate::files::{Files, Judged};
use crate::item::{array_under, config_name, diff_ids_of, is_item, text_of};
use oci_archive::Source;
use oci_content::Verdict;
use oci_layout::string_under;
use oci_schema::{Violation, violations};
use oci_schemas::OciRecords;
use oci_schemas::image::image_configuration;
use serde_json::Value;
use std::alloc::{AllocError, Global};

/// What is wrong with the files of an archive, beside what `docker save` writes: `manifest.json` lists images, each with a configuration
/// that is named after its SHA-256 digest and is valid, and with layers whose digests are its DiffIDs, as many of both. Documents may be as
/// large as the limit. Layers are read in pieces of the buffer's length. Fails if out of memory.
pub fn saved_faults<S: Source>(
    files: &Files<'_, S>,
    limit: u64,
    alloc: Global,
    buffer: &mut [u8],
) -> Result<Vec<SavedFault>, AllocError>
    requires { 0 < length buffer.old }
    ensures none { IfOk result (λ v. OverFiles (S.steady files.now.source.now) (files_at files.now.index.now.places.items (S.bytes files.now.source.now)) (λ f. (v.items ≡ []) ↔ IsSaved limit f)) }
    ensures so { IfOk result (λ v. OverFiles (S.steady files.now.source.now) (files_at files.now.index.now.places.items (S.bytes files.now.source.now)) (λ f. All (IsSo limit f) v.items)) }
{
    let check = Check {
        files,
        limit,
        alloc,
    };
    let mut found = Vec::new(alloc);
    check.add_all(buffer, &mut found)?;
    Ok(found)
}

/// The files of an archive, and how large documents may be.
struct Check<'a, 'f, S> {
    files: &'f Files<'a, S>,
    limit: u64,
    alloc: Global,
}

impl<'a, 'f, S> Drop for Check<'a, 'f, S> {
    fn drop(self) {
        let Check {
            files,
            limit,
            alloc,
        } = self;
    }
}

impl<'a, 'f, S: Source> Check<'a, 'f, S> {
    /// Adds all that is wrong.
    fn add_all(&self, buffer: &mut [u8], found: &mut Vec<SavedFault>) -> Result<(), AllocError>
        requires { 0 < length buffer.old }
        ensures { OnOk result (OverFiles (S.steady self.now.files.now.source.now) (files_at self.now.files.now.index.now.places.items (S.bytes self.now.files.now.source.now))
            (λ f. Adds (IsSo self.now.limit f) (IsSaved self.now.limit f) found.old.items found.new.items)) }
    {
        match document_at(self.files, self.alloc, "manifest.json", self.limit, buffer)? {
            Ok(document) => self.add_manifest(&document.value, buffer, found),
            Err(why) => {
                found.push(SavedFault::Manifest(why))?;
                Ok(())
            }
        }
    }

    /// Adds what is wrong with the value of `manifest.json`.
    fn add_manifest(
        &self,
        value: &Value,
        buffer: &mut [u8],
        found: &mut Vec<SavedFault>,
    ) -> Result<(), AllocError>
        requires { 0 < length buffer.old }
        ensures { OnOk result (OverFiles (S.steady self.now.files.now.source.now) (files_at self.now.files.now.index.now.places.items (S.bytes self.now.files.now.source.now))
            (λ f. IsManifestOf self.now.limit f (view value.now) → Adds (IsSo self.now.limit f) (AreImages self.now.limit f (as_array (view value.now))) found.old.items found.new.items)) }
    {
        match value.as_array() {
            Some(items) => self.add_items(items.as_slice(), buffer, found),
            None => {
                found.push(SavedFault::NoArray)?;
                Ok(())
            }
        }
    }

    /// Adds what is wrong with the items of `manifest.json`.
    fn add_items(
        &self,
        items: &[Value],
        buffer: &mut [u8],
        found: &mut Vec<SavedFault>,
    ) -> Result<(), AllocError>
        requires { 0 < length buffer.old }
        ensures { OnOk result (OverFiles (S.steady self.now.files.now.source.now) (files_at self.now.files.now.index.now.places.items (S.bytes self.now.files.now.source.now))
            (λ f. Adds (IsSoOf self.now.limit f (map view items.now)) (All (IsSavedImage self.now.limit f) (map view items.now)) found.old.items found.new.items)) }
    {
        'each: for at in 0..items.len() {
            self.add_item(at, &items[at], buffer, found)?;
        }
        Ok(())
    }

    /// Adds what is wrong with the image at a place.
    fn add_item(
        &self,
        at: usize,
        item: &Value,
        buffer: &mut [u8],
        found: &mut Vec<SavedFault>,
    ) -> Result<(), AllocError>
        requires { 0 < length buffer.old }
        ensures { OnOk result (OverFiles (S.steady self.now.files.now.source.now) (files_at self.now.files.now.index.now.places.items (S.bytes self.now.files.now.source.now))
            (λ f. Adds (IsSoAt self.now.limit f at (view item.now)) (IsSavedImage self.now.limit f (view item.now)) found.old.items found.new.items)) }
    {
        if !is_item(item) {
            found.push(SavedFault::Item(at, ItemFault::NoItem))?;
            return Ok(());
        }
        let path = string_under(item, "Config");
        match document_at(self.files, self.alloc, path, self.limit, buffer)? {
            Ok(document) => self.add_config(at, item, &document, buffer, found),
            Err(why) => {
                found.push(SavedFault::Item(at, ItemFault::Config(why)))?;
                Ok(())
            }
        }
    }

    /// Adds what is wrong with the image that has this configuration.
    fn add_config(
        &self,
        at: usize,
        item: &Value,
        config: &Document,
        buffer: &mut [u8],
        found: &mut Vec<SavedFault>,
    ) -> Result<(), AllocError>
        requires { 0 < length buffer.old }
        ensures { OnOk result (OverFiles (S.steady self.now.files.now.source.now) (files_at self.now.files.now.index.now.places.items (S.bytes self.now.files.now.source.now))
            (λ f. IsDocument self.now.limit f (config_of (view item.now)) config.now.bytes.items (view config.now.value)
            → Adds (IsSoAt self.now.limit f at (view item.now)) (IsConfig f (config_of (view item.now)) (layers_of (view item.now)) config.now.bytes.items) found.old.items found.new.items)) }
    {
        let name = config_name(self.alloc, config.bytes.as_slice())?;
        add_name(at, string_under(item, "Config"), name, found)?;
        self.add_value(at, item, &config.value, buffer, found)
    }

    /// Adds what is wrong with the value of a configuration, and with the layers.
    fn add_value(
        &self,
        at: usize,
        item: &Value,
        config: &Value,
        buffer: &mut [u8],
        found: &mut Vec<SavedFault>,
    ) -> Result<(), AllocError>
        requires { 0 < length buffer.old }
        ensures { OnOk result (OverFiles (S.steady self.now.files.now.source.now) (files_at self.now.files.now.index.now.places.items (S.bytes self.now.files.now.source.now))
            (λ f. HasConfig self.now.limit f (view item.now) (view config.now)
            → Adds (IsSoAt self.now.limit f at (view item.now)) (IsConfigValue f (layers_of (view item.now)) (view config.now)) found.old.items found.new.items)) }
    {
        let violations = config_violations(config, self.alloc)?;
        if !violations.is_empty() {
            found.push(SavedFault::Item(at, ItemFault::Schema(violations)))?;
            return Ok(());
        }
        self.add_layers(at, item, config, buffer, found)
    }

    /// Adds what is wrong with the layers.
    fn add_layers(
        &self,
        at: usize,
        item: &Value,
        config: &Value,
        buffer: &mut [u8],
        found: &mut Vec<SavedFault>,
    ) -> Result<(), AllocError>
        requires { 0 < length buffer.old }
        ensures { OnOk result (OverFiles (S.steady self.now.files.now.source.now) (files_at self.now.files.now.index.now.places.items (S.bytes self.now.files.now.source.now))
            (λ f. HasConfig self.now.limit f (view item.now) (view config.now)
            → Adds (IsSoAt self.now.limit f at (view item.now)) (AreLayers f (layers_of (view item.now)) (ids_of (view config.now))) found.old.items found.new.items)) }
    {
        let layers = array_under(item, "Layers");
        let ids = diff_ids_of(config);
        add_count(at, layers.len(), ids.len(), found)?;
        'each: for place in 0..layers.len().min(ids.len()) {
            let wrong = self.layer_fault(&layers[place], &ids[place], buffer)?;
            add_layer(at, place, wrong, found)?;
        }
        Ok(())
    }

    /// What is found of a layer that is not there, or has another digest than its DiffID.
    fn layer_fault(
        &self,
        layer: &Value,
        id: &Value,
        buffer: &mut [u8],
    ) -> Result<Option<Judged>, AllocError>
        requires { 0 < length buffer.old }
        ensures { IfOk result (λ wrong. OverFiles (S.steady self.now.files.now.source.now) (files_at self.now.files.now.index.now.places.items (S.bytes self.now.files.now.source.now))
            (λ f. IsLayerOr f (view layer.now) (view id.now) wrong)) }
    {
        let judged = self
            .files
            .judge(self.alloc, text_of(layer), text_of(id), buffer)?;
        if is_same(&judged) {
            Ok(None)
        } else {
            Ok(Some(judged))
        }
    }
}

/// What a value violates of the schema of image configurations.
fn config_violations(value: &Value, alloc: Global) -> Result<Vec<Violation>, AllocError>
    ensures { IfOk result (λ v. (v.items ≡ []) ↔ IsValid configuration (view value.now)) }
{
    let listed = violations(&OciRecords, image_configuration(), value, alloc)?;
    Ok(listed)
}

/// Whether a file is there and has the digest.
fn is_same(judged: &Judged) -> bool
    ensures { result ≡ has_digest judged.now }
{
    match judged {
        Judged::Content(Verdict::Same) => true,
        _ => false,
    }
}

/// Adds that a configuration has another name than its path.
fn add_name(
    at: usize,
    path: &str,
    name: String,
    found: &mut Vec<SavedFault>,
) -> Result<(), AllocError>
    ensures { OnOk result (AddsUnless (path.now ≡ string_bytes name) (SavedFault.Item at (ItemFault.Name name)) found.old.items found.new.items) }
{
    if path != name.as_str() {
        found.push(SavedFault::Item(at, ItemFault::Name(name)))?;
    }
    Ok(())
}

/// Adds that there are not as many layers as DiffIDs.
fn add_count(
    at: usize,
    layers: usize,
    ids: usize,
    found: &mut Vec<SavedFault>,
) -> Result<(), AllocError>
    ensures { OnOk result (AddsUnless (layers ≡ ids) (SavedFault.Item at (ItemFault.Count layers ids)) found.old.items found.new.items) }
{
    if layers != ids {
        found.push(SavedFault::Item(at, ItemFault::Count(layers, ids)))?;
    }
    Ok(())
}

/// Adds what was found of a layer, if it is wrong.
fn add_layer(
    at: usize,
    place: usize,
    wrong: Option<Judged>,
    found: &mut Vec<SavedFault>,
) -> Result<(), AllocError>
    ensures { OnOk result (found.new.items ≡ found.old.items ++ told_layer at place wrong) }
{
    match wrong {
        Some(wrong) => {
            found.push(SavedFault::Item(at, ItemFault::Layer(place, wrong)))?;
            Ok(())
        }
        None => Ok(()),
    }
}
