//! The manifests of an index by their names.
ghost use Rattle.std.specs.Prelude.{◌≡◌, map, filter, option_map, IfOk};
ghost use Rattle.oci_descriptor.specs.Descriptor.{descriptor_plain};
ghost use Rattle.oci_inspect.specs.Named.{is_named, name_of};

use oci_descriptor::Descriptor;
use oci_image::ANNOTATION_REF_NAME;
use std::alloc::{AllocError, Global};

/// The name of a manifest in an index.
pub(crate) fn name_of(descriptor: &Descriptor) -> Option<&str>
    ensures { option_map (λ t. t.now) result ≡ name_of descriptor.now }
{
    match descriptor.annotations() {
        Some(annotations) => match annotations.get(ANNOTATION_REF_NAME) {
            Some(name) => Some(name.as_str()),
            None => None,
        },
        None => None,
    }
}

/// Whether a manifest has a name.
fn is_named(name: &str, descriptor: &Descriptor) -> bool
    ensures { result ≡ is_named name.now descriptor.now }
{
    match name_of(descriptor) {
        Some(own) => own == name,
        None => false,
    }
}

/// Copies of the manifests that have a name. Fails if out of memory.
pub(crate) fn named(
    name: &str,
    manifests: &[Descriptor],
    alloc: Global,
) -> Result<Vec<Descriptor>, AllocError>
    ensures { IfOk result (λ v. map descriptor_plain v.items ≡ map descriptor_plain (filter (is_named name.now) manifests.now)) }
{
    let mut list = Vec::new(alloc);
    for manifest in manifests {
        if is_named(name, manifest) {
            list.push(copy_of(manifest, alloc)?)?;
        }
    }
    Ok(list)
}

/// A copy of a descriptor. Fails if out of memory.
pub(crate) fn copy_of(descriptor: &Descriptor, alloc: Global) -> Result<Descriptor, AllocError>
    ensures { IfOk result (λ x. descriptor_plain x ≡ descriptor_plain descriptor.now) }
{
    match descriptor.clone(alloc) {
        Ok(copy) => Ok(copy),
        Err(_) => Err(AllocError),
    }
}
