//! What manifests are read as.
ghost use Rattle.std.specs.Prelude.{◌≡◌};
ghost use Rattle.oci_inspect.specs.Found.{is_image, is_index, kind_of_descriptor};

use oci_descriptor::Descriptor;
use oci_layout::Kind;

fn kind_of(descriptor: &Descriptor) -> Kind
    ensures { result ≡ kind_of_descriptor descriptor.now }
{
    Kind::of_media_type(descriptor.media_type().as_ref())
}

/// Whether it is an image index, by its media type.
pub(crate) fn is_index(descriptor: &Descriptor) -> bool
    ensures { result ≡ is_index descriptor.now }
{
    matches!(kind_of(descriptor), Kind::Index | Kind::DockerList)
}

/// Whether it is an image manifest, by its media type.
pub(crate) fn is_image(descriptor: &Descriptor) -> bool
    ensures { result ≡ is_image descriptor.now }
{
    matches!(kind_of(descriptor), Kind::Manifest | Kind::DockerManifest)
}

/// Whether it is an image configuration, by its media type.
pub(crate) fn is_config(descriptor: &Descriptor) -> bool {
    matches!(kind_of(descriptor), Kind::Config | Kind::DockerConfig)
}
