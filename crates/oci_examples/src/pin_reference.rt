//! Pins a reference to what an image index has for a platform, and prints it: what a client does that has asked a registry for the
//! index of a tag, and wants the same content tomorrow.
ghost use Rattle.std.specs.Prelude.{◌≡◌, true, IfOk, IfSome, string_bytes};
ghost use Rattle.oci_examples.specs.PinnedLines.{IsPinned};
ghost use Rattle.oci_examples.specs.Platforms.{IsFor};

use oci_json::from_file;
use oci_pin::pin;
use oci_spec::distribution::Reference;
use oci_spec::image::{Arch, Descriptor, ImageIndex, Os};
use oci_spec::{OciSpecError, Result};
use std::alloc::Global;
use std::rt::Files;

/// Whether a descriptor says that its content is for this operating system and architecture.
fn is_for(descriptor: &Descriptor, os: &Os, architecture: &Arch) -> bool
    ensures { result ≡ true → IsFor descriptor.now os.now architecture.now }
{
    match descriptor.platform() {
        Some(platform) => platform.os() == os && platform.architecture() == architecture,
        None => false,
    }
}

/// The first descriptor of an index for this operating system and architecture.
fn choose<'a>(index: &'a ImageIndex, os: &Os, architecture: &Arch) -> Option<&'a Descriptor>
    ensures { IfSome result (λ d. IsFor d.now os.now architecture.now) }
{
    for descriptor in index.manifests().iter() {
        if is_for(descriptor, os, architecture) {
            return Some(descriptor);
        }
    }
    None
}

/// The whole text of a reference, pinned to the manifest of an index for a platform.
fn pinned(
    alloc: Global,
    text: &str,
    index: &ImageIndex,
    os: &Os,
    architecture: &Arch,
) -> Result<String>
    ensures { IfOk result (λ line. IsPinned text.now (string_bytes line) os.now architecture.now) }
{
    let reference = match Reference::from_str(alloc, text) {
        Ok(reference) => reference,
        Err(error) => return Err(OciSpecError::Other(error.to_string(alloc)?)),
    };
    let Some(descriptor) = choose(index, os, architecture) else {
        let why = format!(in alloc; "nothing for {os} on {architecture}")?;
        return Err(OciSpecError::Other(why));
    };
    let pinned = pin(alloc, &reference, descriptor)?;
    Ok(pinned.into_string()?)
}

/// Prints a reference, pinned to what the index of a file has for 64-bit ARM under Linux.
pub fn print<R: Files + Print + AllocGlobal>(rt: &R, reference: &str, path: &str) -> Result<()> {
    let index: ImageIndex = from_file(rt, rt.alloc(), path)?;
    let line = pinned(rt.alloc(), reference, &index, &Os::Linux, &Arch::ARM64)?;
    rt.println(line.as_str())?;
    Ok(())
}
