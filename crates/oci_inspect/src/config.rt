//! The configurations of images.
ghost use Rattle.std.specs.Prelude.{◌≡◌, ◌<◌, length, IfOk, IfErr, IfSome};
ghost use Rattle.oci_image.specs.ImageConfiguration.{image_configuration_plain};
ghost use Rattle.oci_image.specs.ImageManifest.{image_manifest_plain};
ghost use Rattle.oci_json.specs.Engines.{MeansBytes};
ghost use Rattle.oci_shapes.specs.ImageConfiguration.{image_configuration};
ghost use Rattle.oci_shapes.specs.ImageManifest.{image_manifest};
ghost use Rattle.oci_inspect.specs.Configured.{HasPlatform, IsConfigFault, IsConfigOf, IsManifestFault, IsNoConfiguration, IsUnreadConfig, StatesPlatform};
ghost use Rattle.oci_inspect.specs.Contents.{IsContent, IsDocumentOf, IsOfContent, OnContent};

use crate::contents::{Contents, read_as};
use crate::fault::{Fault, FindError};
use crate::platforms::platform_of;
use oci_descriptor::{Descriptor, Platform};
use oci_image::{ImageConfiguration, ImageManifest};
use oci_layout::Store;
use std::alloc::Global;

impl<'a, S: Store> Contents<'a, S> {
    /// The bytes of the configuration of an image, by the bytes of its descriptor.
    pub fn config_of(
        &self,
        descriptor: &Descriptor,
        bytes: &[u8],
        buffer: &mut [u8],
    ) -> Result<Vec<u8>, FindError>
        requires { 0 < length buffer.old }
        ensures ok { IfOk result (λ v. IfSome (S.contents self.now.store.now) (λ k. IsConfigOf k bytes.now v.items)) }
        ensures err { IfErr result (λ e. IfSome (S.contents self.now.store.now) (λ k. OnContent (IsConfigFault (S.steady self.now.store.now) k descriptor.now bytes.now) e)) }
    {
        match manifest_of(descriptor, bytes, self.alloc) {
            Ok(manifest) => self.config_bytes(&manifest, buffer),
            Err(error) => Err(error),
        }
    }

    /// The bytes of the configuration of a manifest.
    fn config_bytes(
        &self,
        manifest: &ImageManifest,
        buffer: &mut [u8],
    ) -> Result<Vec<u8>, FindError>
        requires { 0 < length buffer.old }
        ensures ok { IfOk result (λ v. IfSome (S.contents self.now.store.now) (λ k. IsContent k manifest.now.config v.items)) }
        ensures err { IfErr result (λ e. IfSome (S.contents self.now.store.now) (λ k. OnContent (IsUnreadConfig (S.steady self.now.store.now) k manifest.now) e)) }
    {
        match self.bytes_of(manifest.config(), buffer) {
            Ok(bytes) => Ok(bytes),
            Err(fault) => Err(of_content(manifest.config(), fault, self.alloc)),
        }
    }

    /// The configuration of a manifest.
    pub fn configuration_of(
        &self,
        manifest: &ImageManifest,
        buffer: &mut [u8],
    ) -> Result<ImageConfiguration, FindError>
        requires { 0 < length buffer.old }
        ensures ok { IfOk result (λ c. IfSome (S.contents self.now.store.now) (λ k. IsDocumentOf image_configuration k manifest.now.config (image_configuration_plain c))) }
        ensures err { IfErr result (λ e. IfSome (S.contents self.now.store.now) (λ k. OnContent (IsNoConfiguration (S.steady self.now.store.now) k manifest.now) e)) }
    {
        match self.document_of::<ImageConfiguration>(manifest.config(), buffer) {
            Ok(configuration) => Ok(configuration),
            Err(fault) => Err(of_content(manifest.config(), fault, self.alloc)),
        }
    }

    /// The platform that the configuration of a manifest states.
    fn platform_by(
        &self,
        manifest: &ImageManifest,
        buffer: &mut [u8],
    ) -> Result<Platform, FindError>
        requires { 0 < length buffer.old }
        ensures ok { IfOk result (λ p. IfSome (S.contents self.now.store.now) (λ k. StatesPlatform k manifest.now p)) }
        ensures err { IfErr result (λ e. IfSome (S.contents self.now.store.now) (λ k. OnContent (IsNoConfiguration (S.steady self.now.store.now) k manifest.now) e)) }
    {
        match self.configuration_of(manifest, buffer) {
            Ok(configuration) => match platform_of(&configuration, self.alloc) {
                Ok(platform) => Ok(platform),
                Err(_) => Err(FindError::Memory),
            },
            Err(error) => Err(error),
        }
    }

    /// The platform that the configuration of an image states, by the bytes of its descriptor.
    pub fn platform_in(
        &self,
        descriptor: &Descriptor,
        bytes: &[u8],
        buffer: &mut [u8],
    ) -> Result<Platform, FindError>
        requires { 0 < length buffer.old }
        ensures ok { IfOk result (λ p. IfSome (S.contents self.now.store.now) (λ k. HasPlatform k bytes.now p)) }
        ensures err { IfErr result (λ e. IfSome (S.contents self.now.store.now) (λ k. OnContent (IsConfigFault (S.steady self.now.store.now) k descriptor.now bytes.now) e)) }
    {
        match manifest_of(descriptor, bytes, self.alloc) {
            Ok(manifest) => self.platform_by(&manifest, buffer),
            Err(error) => Err(error),
        }
    }
}

/// The manifest in the bytes of a descriptor.
pub(crate) fn manifest_of(
    descriptor: &Descriptor,
    bytes: &[u8],
    alloc: Global,
) -> Result<ImageManifest, FindError>
    ensures ok { IfOk result (λ m. MeansBytes image_manifest bytes.now (image_manifest_plain m)) }
    ensures err { IfErr result (OnContent (IsManifestFault descriptor.now bytes.now)) }
{
    match read_as::<ImageManifest>(bytes, alloc) {
        Ok(manifest) => Ok(manifest),
        Err(fault) => Err(of_content(descriptor, fault, alloc)),
    }
}

/// The error that the content of a descriptor is not to be had.
pub(crate) fn of_content(descriptor: &Descriptor, fault: Fault, alloc: Global) -> FindError
    ensures { IsOfContent descriptor.now fault result }
{
    if matches!(fault, Fault::Memory) {
        return FindError::Memory;
    }
    match String::from_str(alloc, descriptor.digest().as_ref()) {
        Ok(digest) => FindError::Content(digest, fault),
        Err(_) => FindError::Memory,
    }
}
