//! The summary of an image, by the documents of a layout.
ghost use Rattle.std.specs.Prelude.{◌≡◌, ◌<◌, length, IfOk, IfErr, IfSome, string_bytes};
ghost use Rattle.oci_inspect.specs.Configured.{IsConfigFault, IsInvalidConfig, IsNoConfiguration};
ghost use Rattle.oci_inspect.specs.Contents.{OnContent};
ghost use Rattle.oci_inspect.specs.Shown.{IsSummary};

use crate::asked::Inspect;
use crate::config::{manifest_of, of_content};
use crate::contents::{Contents, read_as};
use crate::fault::FindError;
use crate::image::FoundImage;
use crate::kinds::{is_config, is_image};
use crate::names::name_of;
use crate::summary::Facts;
use oci_descriptor::Descriptor;
use oci_image::{ImageConfiguration, ImageManifest};
use oci_json::value_from_slice;
use oci_layout::Store;
use serde_json::Value;
use std::alloc::{AllocError, Global};

impl<'a, S: Store> Contents<'a, S> {
    /// The summary of an image: of an image manifest with what its configuration says, if that is one by its media type.
    pub fn summary_of(
        &self,
        found: &FoundImage,
        asked: &Inspect<'_>,
        buffer: &mut [u8],
    ) -> Result<String, FindError>
        requires { 0 < length buffer.old }
        ensures ok { IfOk result (λ t. IsSummary asked.now.style found.now.descriptor.digest (string_bytes t)) }
        ensures err { IfErr result (λ e. IfSome (S.contents self.now.store.now)
            (λ k. OnContent (IsConfigFault (S.steady self.now.store.now) k found.now.descriptor found.now.bytes.items) e)) }
    {
        if !is_image(&found.descriptor) {
            return bare_summary(&found.descriptor, None, asked, self.alloc);
        }
        match manifest_of(&found.descriptor, found.bytes.as_slice(), self.alloc) {
            Ok(manifest) => self.summary_with(&found.descriptor, &manifest, asked, buffer),
            Err(error) => Err(error),
        }
    }

    /// The same with the manifest.
    fn summary_with(
        &self,
        descriptor: &Descriptor,
        manifest: &ImageManifest,
        asked: &Inspect<'_>,
        buffer: &mut [u8],
    ) -> Result<String, FindError>
        requires { 0 < length buffer.old }
        ensures ok { IfOk result (λ t. IsSummary asked.now.style descriptor.now.digest (string_bytes t)) }
        ensures err { IfErr result (λ e. IfSome (S.contents self.now.store.now) (λ k. OnContent (IsNoConfiguration (S.steady self.now.store.now) k manifest.now) e)) }
    {
        if !is_config(manifest.config()) {
            return bare_summary(descriptor, Some(manifest), asked, self.alloc);
        }
        match self.bytes_of(manifest.config(), buffer) {
            Ok(bytes) => full_summary(descriptor, manifest, bytes.as_slice(), asked, self.alloc),
            Err(fault) => Err(of_content(manifest.config(), fault, self.alloc)),
        }
    }
}

/// A summary without a configuration. Fails with `Memory` alone.
fn bare_summary<'d>(
    descriptor: &'d Descriptor,
    manifest: Option<&'d ImageManifest>,
    asked: &'d Inspect<'d>,
    alloc: Global,
) -> Result<String, FindError>
    ensures ok { IfOk result (λ t. IsSummary asked.now.style descriptor.now.digest (string_bytes t)) }
    ensures err { IfErr result (λ e. e ≡ FindError.Memory) }
{
    let facts = Facts {
        descriptor,
        name: name_in(asked, descriptor),
        manifest,
        configuration: None,
    };
    Ok(facts.text(None, asked.style, alloc)?)
}

/// A summary with the configuration in these bytes.
fn full_summary<'d>(
    descriptor: &'d Descriptor,
    manifest: &'d ImageManifest,
    bytes: &[u8],
    asked: &'d Inspect<'d>,
    alloc: Global,
) -> Result<String, FindError>
    ensures ok { IfOk result (λ t. IsSummary asked.now.style descriptor.now.digest (string_bytes t)) }
    ensures err { IfErr result (OnContent (IsInvalidConfig manifest.now bytes.now)) }
{
    match read_as::<ImageConfiguration>(bytes, alloc) {
        Ok(configuration) => {
            let config = config_in(bytes, alloc)?;
            let facts = Facts {
                descriptor,
                name: name_in(asked, descriptor),
                manifest: Some(manifest),
                configuration: Some(&configuration),
            };
            Ok(facts.text(config, asked.style, alloc)?)
        }
        Err(fault) => Err(of_content(manifest.config(), fault, alloc)),
    }
}

/// The member `config` of a configuration. Fails if out of memory.
fn config_in(bytes: &[u8], alloc: Global) -> Result<Option<Value>, AllocError> {
    let Ok(value) = value_from_slice(alloc, bytes) else {
        return Err(AllocError);
    };
    match value.get("config") {
        Some(config) => Ok(Some(config.clone()?)),
        None => Ok(None),
    }
}

/// The name by which an image was asked for, else that of its descriptor.
fn name_in<'d>(asked: &'d Inspect<'d>, descriptor: &'d Descriptor) -> Option<&'d str> {
    match asked.wanted.name {
        Some(name) => Some(name),
        None => name_of(descriptor),
    }
}
