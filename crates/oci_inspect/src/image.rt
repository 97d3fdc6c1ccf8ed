//! Images that are asked for, and that are found.
use oci_descriptor::{Descriptor, Platform};

/// By what an image is found.
#[derive(Clone, Copy)]
pub struct Wanted<'a> {
    /// The name of its manifest in `index.json`, the annotation `org.opencontainers.image.ref.name`; without one, any.
    pub name: Option<&'a str>,
    /// The platform on which it is to run; without one, any.
    pub platform: Option<&'a Platform>,
}

/// An image that was found.
#[derive(Drop)]
pub struct FoundImage {
    /// The descriptor of its manifest.
    pub descriptor: Descriptor,
    /// The bytes of its manifest, which have the size and the digest that the descriptor says.
    pub bytes: Vec<u8>,
}
