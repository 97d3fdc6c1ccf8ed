//! Puts the manifest of `examples/manifest.json` together with builders, and prints it.
ghost use Rattle.std.specs.Prelude.{◌≡◌, IfOk};

use oci_spec::image::{
    Descriptor, DescriptorBuilder, ImageManifest, ImageManifestBuilder, MediaType, SCHEMA_VERSION,
    Sha256Digest,
};
use oci_spec::{OciSpecError, Result};
use std::alloc::Global;

/// The descriptor of content of this type, SHA-256 sum and size in bytes.
fn content(alloc: Global, media_type: MediaType, sum: &str, size: u64) -> Result<Descriptor>
    ensures typed { IfOk result (λ d. d.media_type ≡ media_type) }
    ensures sized { IfOk result (λ d. d.size ≡ size) }
{
    DescriptorBuilder::default()
        .media_type(media_type)
        .digest(Sha256Digest::from_str(alloc, sum)?.into_digest()?)
        .size(size)
        .build(alloc)
}

/// A manifest of a configuration and three layers.
fn manifest(alloc: Global) -> Result<ImageManifest>
    ensures version { IfOk result (λ m. m.schema_version ≡ 2) }
{
    let config = content(
        alloc,
        MediaType::ImageConfig,
        "b5b2b2c507a0944348e0303114d8d93aaaa081732b86451d9bce1f432a537bc7",
        7023,
    )?;
    let mut layers = Vec::new(alloc);
    for (sum, size) in [
        (
            "9834876dcfb05cb167a5c24953eba58c4ac89b1adf57f28f2f9d09af107ee8f0",
            32654,
        ),
        (
            "3c3a4604a545cdc127456d94e421cd355bca5b528f4a9c1905b15da2eb4a4c6b",
            16724,
        ),
        (
            "ec4b8955958665577945c89419d1af06b5f7636b4ac3da7f12184802ad867736",
            73109,
        ),
    ] {
        layers.push(content(alloc, MediaType::ImageLayerGzip, sum, size)?)?;
    }
    ImageManifestBuilder::default()
        .schema_version(SCHEMA_VERSION)
        .config(config)
        .layers(layers)
        .build(alloc)
}

/// Prints the manifest.
pub fn print<R: Print + AllocGlobal>(rt: &R) -> Result<()> {
    rt.println(&manifest(rt.alloc())?)?;
    Ok(())
}
