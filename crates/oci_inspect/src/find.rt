//! Finding an image.
ghost use Rattle.std.specs.Prelude.{◌≡◌, ◌≤◌, ◌<◌, length, IfOk, IfErr, IfSome, OnOk, None, Some};
ghost use Rattle.std.specs.Option.{option_copied};
ghost use Rattle.oci_image.specs.ImageIndex.{image_index_plain};
ghost use Rattle.oci_shapes.specs.ImageIndex.{image_index};
ghost use Rattle.oci_inspect.specs.Contents.{IsContent, IsDocumentOf};
ghost use Rattle.oci_inspect.specs.Found.{IsFoundIn, IsImageAmong, IsImageOf, IsNoIndexOf, IsNoImageOf, IsNoneAmong, IsNotFoundIn, Leads, OverLayout, Suits};

use crate::config::of_content;
use crate::contents::Contents;
use crate::fault::FindError;
use crate::first::first_candidates;
use crate::image::{FoundImage, Wanted};
use crate::kinds::{is_image, is_index};
use crate::meant::meant;
use crate::names::copy_of;
use crate::platforms::runs;
use oci_descriptor::{Descriptor, Platform};
use oci_image::ImageIndex;
use oci_layout::{ImageLayout, Store};
use std::alloc::Global;

/// How many indexes an image may lie below.
const DEPTH_LIMIT: u8 = 16;

/// The image of a layout that is meant by a name and a platform. Its manifest is a manifest of `index.json`, or of an index below, at most 16
/// indexes deep: without a platform the only one that has the name; with one the one that `oci_select` chooses for it. A lone manifest of
/// `index.json` that states no platform is meant if its configuration states one that runs there. A manifest of another type than an image's is
/// found as well, unless its platform would have to be read from its configuration.
///
/// Documents are no larger than 4 MiB, and have the size and the digest that their descriptors say; the media types and the schema versions that
/// they state themselves are not looked at.
pub fn find_image<L: ImageLayout>(
    layout: &L,
    wanted: &Wanted<'_>,
    alloc: Global,
    buffer: &mut [u8],
) -> Result<FoundImage, FindError>
    requires { 0 < length buffer.old }
    ensures found { IfOk result (λ f. OverLayout (L.tops layout.now) (L.contents layout.now)
        (λ tops contents. IsFoundIn (option_copied wanted.now.name) (option_copied wanted.now.platform) tops contents f)) }
    ensures why { IfErr result (λ e. OverLayout (L.tops layout.now) (L.contents layout.now)
        (λ tops contents. IsNotFoundIn (option_copied wanted.now.name) (option_copied wanted.now.platform) (L.steady layout.now) tops contents e)) }
{
    let finding = Finding {
        contents: Contents {
            store: layout,
            alloc,
        },
        platform: wanted.platform,
    };
    match first_candidates(layout, wanted.name, alloc, buffer) {
        Ok(index) => finding.find_from(&index, 0, buffer),
        Err(error) => Err(error),
    }
}

/// A search for an image that runs on a platform.
struct Finding<'a, S> {
    contents: Contents<'a, S>,
    platform: Option<&'a Platform>,
}

impl<'a, S> Drop for Finding<'a, S> {
    fn drop(self) {
        let Finding { contents, platform } = self;
    }
}

impl<'a, S: Store> Finding<'a, S> {
    /// The image that is meant of the manifests of an index, which lies below so many others.
    fn find_from(
        &self,
        index: &ImageIndex,
        depth: u8,
        buffer: &mut [u8],
    ) -> Result<FoundImage, FindError>
        requires buffer { 0 < length buffer.old }
        requires depth { depth ≤ DEPTH_LIMIT }
        ensures found { IfOk result (λ f. IfSome (S.contents self.now.contents.store.now)
            (λ k. Leads k (option_copied self.now.platform) (IsImageAmong k (option_copied self.now.platform) f) depth index.now.manifests.items)) }
        ensures why { IfErr result (λ e. IfSome (S.contents self.now.contents.store.now)
            (λ k. Leads k (option_copied self.now.platform) (IsNoneAmong (S.steady self.now.contents.store.now) k (option_copied self.now.platform) e) depth index.now.manifests.items)) }
    {
        match meant(index, depth, self.platform, self.contents.alloc) {
            Ok(descriptor) => {
                if !is_index(descriptor) {
                    return self.image_of(descriptor, buffer);
                }
                match self.index_of(descriptor, depth, buffer) {
                    Ok(below) => self.find_from(&below, depth + 1, buffer),
                    Err(error) => Err(error),
                }
            }
            Err(error) => Err(error),
        }
    }

    /// The index of a descriptor, which lies below so many others.
    fn index_of(
        &self,
        descriptor: &Descriptor,
        depth: u8,
        buffer: &mut [u8],
    ) -> Result<ImageIndex, FindError>
        requires buffer { 0 < length buffer.old }
        requires depth { depth ≤ DEPTH_LIMIT }
        ensures ok { IfOk result (λ x. IfSome (S.contents self.now.contents.store.now) (λ k. IsDocumentOf image_index k descriptor.now (image_index_plain x))) }
        ensures depth { OnOk result (depth < DEPTH_LIMIT) }
        ensures err { IfErr result (λ e. IfSome (S.contents self.now.contents.store.now) (λ k. IsNoIndexOf (S.steady self.now.contents.store.now) k depth descriptor.now e)) }
    {
        if depth == DEPTH_LIMIT {
            return Err(FindError::TooDeep);
        }
        match self.contents.document_of::<ImageIndex>(descriptor, buffer) {
            Ok(index) => Ok(index),
            Err(fault) => Err(of_content(descriptor, fault, self.contents.alloc)),
        }
    }

    /// The image of a descriptor that is no index.
    fn image_of(&self, descriptor: &Descriptor, buffer: &mut [u8]) -> Result<FoundImage, FindError>
        requires { 0 < length buffer.old }
        ensures ok { IfOk result (λ f. IfSome (S.contents self.now.contents.store.now) (λ k. IsImageOf k (option_copied self.now.platform) descriptor.now f)) }
        ensures err { IfErr result (λ e. IfSome (S.contents self.now.contents.store.now) (λ k. IsNoImageOf (S.steady self.now.contents.store.now) k (option_copied self.now.platform) descriptor.now e)) }
    {
        let bytes = match self.contents.bytes_of(descriptor, buffer) {
            Ok(bytes) => bytes,
            Err(fault) => return Err(of_content(descriptor, fault, self.contents.alloc)),
        };
        match self.check_platform(descriptor, bytes.as_slice(), buffer) {
            Ok(()) => Ok(FoundImage {
                descriptor: copy_of(descriptor, self.contents.alloc)?,
                bytes,
            }),
            Err(error) => Err(error),
        }
    }
    /// Whether an image that states no platform of its own runs on the wanted one, by the bytes of its manifest.
    fn check_platform(
        &self,
        descriptor: &Descriptor,
        bytes: &[u8],
        buffer: &mut [u8],
    ) -> Result<(), FindError>
        requires { 0 < length buffer.old }
        ensures ok { OnOk result (IfSome (S.contents self.now.contents.store.now) (λ k. Suits k (option_copied self.now.platform) descriptor.now bytes.now)) }
        ensures err { IfErr result (λ e. IfSome (S.contents self.now.contents.store.now)
            (λ k. IsContent k descriptor.now bytes.now → IsNoImageOf (S.steady self.now.contents.store.now) k (option_copied self.now.platform) descriptor.now e)) }
    {
        match self.platform {
            Some(wanted) => match descriptor.platform() {
                Some(_) => Ok(()),
                None => self.check_config(descriptor, bytes, wanted, buffer),
            },
            None => Ok(()),
        }
    }

    /// The same where it states none, and this one is wanted.
    fn check_config(
        &self,
        descriptor: &Descriptor,
        bytes: &[u8],
        wanted: &Platform,
        buffer: &mut [u8],
    ) -> Result<(), FindError>
        requires buffer { 0 < length buffer.old }
        requires none { descriptor.now.platform ≡ None }
        ensures ok { OnOk result (IfSome (S.contents self.now.contents.store.now) (λ k. Suits k (Some wanted.now) descriptor.now bytes.now)) }
        ensures err { IfErr result (λ e. IfSome (S.contents self.now.contents.store.now)
            (λ k. IsContent k descriptor.now bytes.now → IsNoImageOf (S.steady self.now.contents.store.now) k (Some wanted.now) descriptor.now e)) }
    {
        if !is_image(descriptor) {
            return Err(FindError::NoPlatform);
        }
        match self.contents.platform_in(descriptor, bytes, buffer) {
            Ok(platform) => {
                if runs(platform, wanted, descriptor, self.contents.alloc)? {
                    Ok(())
                } else {
                    Err(FindError::NoPlatform)
                }
            }
            Err(error) => Err(error),
        }
    }
}
