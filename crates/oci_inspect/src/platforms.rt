//! Platforms of images.
ghost use Rattle.std.specs.Prelude.{◌≡◌, ◌↔◌, ◌∷◌, [], Some, IfOk, IsTrue, map, option_map, string_bytes};
ghost use Rattle.oci_inspect.specs.Platforms.{IsPlatformOf, Runs};

use crate::names::copy_of;
use oci_base::Result as Answer;
use oci_descriptor::{Descriptor, Platform, PlatformBuilder};
use oci_image::{ImageConfiguration, ImageIndex};
use oci_select::select;
use std::alloc::{AllocError, Global};

/// The platform that a configuration states. Fails if out of memory.
pub(crate) fn platform_of(
    configuration: &ImageConfiguration,
    alloc: Global,
) -> Result<Platform, AllocError>
    ensures { IfOk result (IsPlatformOf configuration.now) }
{
    match built(configuration, alloc) {
        Ok(platform) => Ok(platform),
        Err(_) => Err(AllocError),
    }
}

/// The same, or why there is none.
fn built(configuration: &ImageConfiguration, alloc: Global) -> Answer<Platform>
    ensures { IfOk result (IsPlatformOf configuration.now) }
{
    let mut platform = Platform::try_default(alloc)?;
    let _ = platform.set_architecture(configuration.architecture().clone(alloc)?);
    let _ = platform.set_os(configuration.os().clone(alloc)?);
    let _ = platform.set_variant(text_of(configuration.variant(), alloc)?);
    let _ = platform.set_os_version(text_of(configuration.os_version(), alloc)?);
    let _ = platform.set_os_features(texts_of(configuration.os_features(), alloc)?);
    Ok(platform)
}

/// A copy of a text.
fn text_of(text: &Option<String>, alloc: Global) -> Result<Option<String>, AllocError>
    ensures { IfOk result (λ o. option_map string_bytes o ≡ option_map string_bytes text.now) }
{
    match text {
        Some(text) => Ok(Some(String::from_str(alloc, text.as_str())?)),
        None => Ok(None),
    }
}

/// A copy of texts.
fn texts_of(texts: &Option<Vec<String>>, alloc: Global) -> Result<Option<Vec<String>>, AllocError>
    ensures { IfOk result (λ o. option_map (λ v. map string_bytes v.items) o ≡ option_map (λ v. map string_bytes v.items) texts.now) }
{
    match texts {
        Some(texts) => Ok(Some(copies(texts, alloc)?)),
        None => Ok(None),
    }
}

/// Copies of texts.
fn copies(texts: &[String], alloc: Global) -> Result<Vec<String>, AllocError>
    ensures { IfOk result (λ v. map string_bytes v.items ≡ map string_bytes texts.now) }
{
    let mut list = Vec::new(alloc);
    for text in texts {
        list.push(String::from_str(alloc, text.as_str())?)?;
    }
    Ok(list)
}

/// Whether a platform runs on the wanted one. Fails if out of memory.
pub(crate) fn runs(
    platform: Platform,
    wanted: &Platform,
    descriptor: &Descriptor,
    alloc: Global,
) -> Result<bool, AllocError>
    ensures { IfOk result (λ b. IsTrue b ↔ Runs wanted.now platform) }
{
    let lone = with_platform(copy_of(descriptor, alloc)?, platform);
    let index = index_of(lone, alloc)?;
    Ok(select(alloc, &index, wanted)?.is_some())
}

/// A descriptor with this platform.
fn with_platform(mut descriptor: Descriptor, platform: Platform) -> Descriptor
    ensures { result.platform ≡ Some platform }
{
    let _ = descriptor.set_platform(Some(platform));
    descriptor
}

/// An index of this manifest.
fn index_of(manifest: Descriptor, alloc: Global) -> Result<ImageIndex, AllocError>
    ensures { IfOk result (λ x. x.manifests.items ≡ manifest ∷ []) }
{
    let mut manifests = Vec::new(alloc);
    manifests.push(manifest)?;
    let Ok(mut index) = ImageIndex::try_default(alloc) else {
        return Err(AllocError);
    };
    let _ = index.set_manifests(manifests);
    Ok(index)
}
