//! What the contents of an image layout are read as.
ghost use Rattle.std.specs.Prelude.{◌≡◌, option_map};
ghost use Rattle.oci_layout.specs.Kinds.{kind_of, manifest_kind_of, part_kind_of, own_type, document_shape, other_members, is_nondistributable, is_same_type as same_type};
ghost use Rattle.oci_schema.specs.Shapes.{schema_shape, shape_at};
ghost use Rattle.oci_schemas.specs.Table.{shapes};
ghost use Rattle.oci_model.specs.Shape.{free_map};

use crate::member::OtherMember;
use oci_schema::{Part, Scalar, Schema};
use oci_schemas::image::image_configuration;
use oci_schemas::image_manifest::{artifact_manifest, image_index, image_manifest};

/// What a content is read as, by its media type (image specification, "Media Types", and what it is compatible with).
#[derive(Clone, Copy, Debug, PartialEq, Eq)]
pub enum Kind {
    /// An image index.
    Index,
    /// Docker's manifest list, which is read as an image index.
    DockerList,
    /// An image manifest.
    Manifest,
    /// Docker's image manifest, version 2, schema 2, which is read as an image manifest.
    DockerManifest,
    /// An artifact manifest (image specification 1.1.0-rc2, "Artifact Manifest").
    Artifact,
    /// An image configuration.
    Config,
    /// Docker's image configuration, which is read as an image configuration.
    DockerConfig,
    /// The content of the empty type: an object (image specification, "Image Manifest", "Guidance for an Empty Descriptor").
    Empty,
    /// Bytes that are not read, as layers.
    Opaque,
}

/// An object, of which no member is asked for.
static EMPTY: Schema = Schema::One(Part::Scalar(Scalar::FreeValues));

fn empty_object() -> &'static Schema
    ensures { schema_shape (shape_at shapes) result.now ≡ free_map }
{
    &EMPTY
}

impl Kind {
    /// What a content of this media type is read as.
    pub fn of_media_type(media_type: &str) -> Kind
        ensures { result ≡ kind_of media_type.now }
    {
        if is_same_type(media_type, "application/vnd.oci.image.index.v1+json") {
            Kind::Index
        } else if is_same_type(
            media_type,
            "application/vnd.docker.distribution.manifest.list.v2+json",
        ) {
            Kind::DockerList
        } else {
            Kind::of_manifest_type(media_type)
        }
    }

    /// The same of one that is no index.
    fn of_manifest_type(media_type: &str) -> Kind
        ensures { result ≡ manifest_kind_of media_type.now }
    {
        if is_same_type(media_type, "application/vnd.oci.image.manifest.v1+json") {
            Kind::Manifest
        } else if is_same_type(
            media_type,
            "application/vnd.docker.distribution.manifest.v2+json",
        ) {
            Kind::DockerManifest
        } else if is_same_type(media_type, "application/vnd.oci.artifact.manifest.v1+json") {
            Kind::Artifact
        } else {
            Kind::of_part_type(media_type)
        }
    }

    /// The same of one that is no manifest either.
    fn of_part_type(media_type: &str) -> Kind
        ensures { result ≡ part_kind_of media_type.now }
    {
        if is_same_type(media_type, "application/vnd.oci.image.config.v1+json") {
            Kind::Config
        } else if is_same_type(media_type, "application/vnd.docker.container.image.v1+json") {
            Kind::DockerConfig
        } else if is_same_type(media_type, "application/vnd.oci.empty.v1+json") {
            Kind::Empty
        } else {
            Kind::Opaque
        }
    }

    /// The media type of a document that can say it itself, in `mediaType`.
    pub fn own_type(self) -> Option<&'static str>
        ensures { option_map (λ t. t.now) result ≡ own_type self }
    {
        match self {
            Kind::Index => Some("application/vnd.oci.image.index.v1+json"),
            Kind::DockerList => Some("application/vnd.docker.distribution.manifest.list.v2+json"),
            Kind::Manifest => Some("application/vnd.oci.image.manifest.v1+json"),
            Kind::DockerManifest => Some("application/vnd.docker.distribution.manifest.v2+json"),
            Kind::Artifact => Some("application/vnd.oci.artifact.manifest.v1+json"),
            Kind::Config | Kind::DockerConfig | Kind::Empty | Kind::Opaque => None,
        }
    }

    /// The schema of the documents of this kind, by the records of `OciRecords`; none where the bytes are not read.
    pub fn schema(self) -> Option<&'static Schema>
        ensures { option_map (λ s. schema_shape (shape_at shapes) s.now) result ≡ document_shape self }
    {
        match self {
            Kind::Index | Kind::DockerList => Some(image_index()),
            Kind::Manifest | Kind::DockerManifest => Some(image_manifest()),
            Kind::Artifact => Some(artifact_manifest()),
            Kind::Config | Kind::DockerConfig => Some(image_configuration()),
            Kind::Empty => Some(empty_object()),
            Kind::Opaque => None,
        }
    }

    /// The members by which clients may take a document of this kind for one of another.
    pub fn other_members(self) -> &'static [OtherMember]
        ensures { result.now ≡ other_members self }
    {
        match self {
            Kind::Index | Kind::DockerList => &[
                OtherMember::Config,
                OtherMember::Layers,
                OtherMember::FsLayers,
            ],
            Kind::Manifest | Kind::DockerManifest => {
                &[OtherMember::Manifests, OtherMember::FsLayers]
            }
            Kind::Artifact | Kind::Config | Kind::DockerConfig | Kind::Empty | Kind::Opaque => &[],
        }
    }
}

/// Whether a layer of this media type may be had elsewhere alone (image specification, "Non-Distributable Layers").
pub fn is_nondistributable_type(media_type: &str) -> bool
    ensures { result ≡ is_nondistributable media_type.now }
{
    is_same_type(
        media_type,
        "application/vnd.oci.image.layer.nondistributable.v1.tar",
    ) || is_same_type(
        media_type,
        "application/vnd.oci.image.layer.nondistributable.v1.tar+gzip",
    ) || is_same_type(
        media_type,
        "application/vnd.oci.image.layer.nondistributable.v1.tar+zstd",
    ) || is_same_type(
        media_type,
        "application/vnd.docker.image.rootfs.foreign.diff.tar.gzip",
    )
}

/// Whether two texts are one media type: its names are compared without regard to case (RFC 6838, section 4.2).
pub fn is_same_type(media_type: &str, other: &str) -> bool
    ensures { result ≡ same_type media_type.now other.now }
{
    media_type.eq_ignore_ascii_case(other)
}
