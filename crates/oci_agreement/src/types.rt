//! Media types of configurations and layers.
ghost use Rattle.std.specs.Prelude.{◌≡◌, IsTrue};
ghost use Rattle.oci_agreement.specs.Types as types;

/// The configuration of an image of OCI's format.
pub const OCI_CONFIG: &str = "application/vnd.oci.image.config.v1+json";
/// The same of Docker's format.
pub const DOCKER_CONFIG: &str = "application/vnd.docker.container.image.v1+json";
/// A manifest of Docker's format, version 2, schema 2.
pub const DOCKER_MANIFEST: &str = "application/vnd.docker.distribution.manifest.v2+json";

/// Whether it is the configuration of an image, of either format.
pub fn is_config_type(media_type: &str) -> bool
    ensures { result ≡ types.is_config_type media_type.now }
{
    media_type == OCI_CONFIG || media_type == DOCKER_CONFIG
}

/// Whether it is a layer that is not compressed.
pub fn is_plain_type(media_type: &str) -> bool
    ensures { result ≡ types.is_plain_type media_type.now }
{
    media_type == "application/vnd.oci.image.layer.v1.tar"
        || media_type == "application/vnd.oci.image.layer.nondistributable.v1.tar"
}

fn is_compressed_type(media_type: &str) -> bool
    ensures { result ≡ types.is_compressed_type media_type.now }
{
    media_type == "application/vnd.oci.image.layer.v1.tar+gzip"
        || media_type == "application/vnd.oci.image.layer.v1.tar+zstd"
        || media_type == "application/vnd.oci.image.layer.nondistributable.v1.tar+gzip"
        || media_type == "application/vnd.oci.image.layer.nondistributable.v1.tar+zstd"
        || media_type == "application/vnd.docker.image.rootfs.diff.tar.gzip"
        || media_type == "application/vnd.docker.image.rootfs.foreign.diff.tar.gzip"
}

/// Whether it is a layer, of either format.
pub fn is_layer_type(media_type: &str) -> bool
    ensures { result ≡ types.is_layer_type media_type.now }
{
    is_plain_type(media_type) || is_compressed_type(media_type)
}
