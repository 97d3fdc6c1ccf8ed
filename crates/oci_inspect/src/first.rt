//! The manifests of `index.json` that have a name.
ghost use Rattle.std.specs.Prelude.{◌≡◌, ◌⊎◌, ◌<◌, length, map, IfOk, IfErr, IfSome};
ghost use Rattle.std.specs.Option.{option_copied};
ghost use Rattle.oci_descriptor.specs.Descriptor.{descriptor_plain};
ghost use Rattle.oci_inspect.specs.Found.{AreFirst, AreNone, IsNamedIn, IsNoIndex, IsTopBytes};
ghost use Rattle.oci_inspect.specs.Named.{named};
ghost use Rattle.oci_inspect.specs.Contents.{IsInvalid};
ghost use Rattle.oci_shapes.specs.ImageIndex.{image_index};

use crate::contents::read_as;
use crate::fault::{Fault, FindError};
use crate::names::named;
use oci_image::ImageIndex;
use oci_layout::{DOCUMENT_LIMIT, ImageLayout, Top, read_top};
use std::alloc::{AllocError, Global};

/// The index in `index.json` with no manifests but those that have the name; without a name with all.
pub(crate) fn first_candidates<L: ImageLayout>(
    layout: &L,
    name: Option<&str>,
    alloc: Global,
    buffer: &mut [u8],
) -> Result<ImageIndex, FindError>
    requires { 0 < length buffer.old }
    ensures ok { IfOk result (λ x. IfSome (L.tops layout.now) (λ t. AreFirst (option_copied name.entry) t x.manifests.items)) }
    ensures err { IfErr result (λ e. IfSome (L.tops layout.now) (λ t. AreNone (L.steady layout.now) t e)) }
{
    let bytes = match top_bytes(layout, alloc, buffer) {
        Ok(bytes) => bytes,
        Err(fault) => return Err(no_index(fault)),
    };
    match candidates_in(bytes.as_slice(), name, alloc) {
        Ok(index) => Ok(index),
        Err(fault) => Err(no_index(fault)),
    }
}

/// The error of an index that is not to be had.
fn no_index(fault: Fault) -> FindError
    ensures { (result ≡ FindError.NoIndex fault) ⊎ (result ≡ FindError.Memory) }
{
    match fault {
        Fault::Memory => FindError::Memory,
        fault => FindError::NoIndex(fault),
    }
}

/// The bytes of `index.json`.
fn top_bytes<L: ImageLayout>(layout: &L, alloc: Global, buffer: &mut [u8]) -> Result<Vec<u8>, Fault>
    requires { 0 < length buffer.old }
    ensures ok { IfOk result (λ v. IfSome (L.tops layout.now) (λ t. IsTopBytes t v.items)) }
    ensures err { IfErr result (λ f. IfSome (L.tops layout.now) (λ t. IsNoIndex (L.steady layout.now) t f)) }
{
    match read_top(layout, alloc, "index.json", DOCUMENT_LIMIT, buffer)? {
        Top::Missing => Err(Fault::Missing),
        Top::Unreadable(why) => Err(Fault::Unreadable(why)),
        Top::TooLarge => Err(Fault::TooLarge),
        Top::Bytes(bytes) => Ok(bytes),
    }
}

/// The index in bytes with no manifests but those that have the name.
fn candidates_in(bytes: &[u8], name: Option<&str>, alloc: Global) -> Result<ImageIndex, Fault>
    ensures ok { IfOk result (λ x. IsNamedIn (option_copied name.entry) bytes.now x.manifests.items) }
    ensures err { IfErr result (IsInvalid image_index bytes.now) }
{
    let index = read_as::<ImageIndex>(bytes, alloc)?;
    Ok(with_named(index, name, alloc)?)
}

/// The same of an index.
fn with_named(
    mut index: ImageIndex,
    name: Option<&str>,
    alloc: Global,
) -> Result<ImageIndex, AllocError>
    ensures { IfOk result (λ x. map descriptor_plain x.manifests.items ≡ map descriptor_plain (named (option_copied name.entry) index.manifests.items)) }
{
    if let Some(name) = name {
        let manifests = named(name, index.manifests(), alloc)?;
        let _ = index.set_manifests(manifests);
    }
    Ok(index)
}
