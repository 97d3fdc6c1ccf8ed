//! Images: manifests, indexes, configurations, layouts and artifacts, with the keys of annotations.

pub use oci_image::{
    ANNOTATION_AUTHORS, ANNOTATION_BASE_IMAGE_DIGEST, ANNOTATION_BASE_IMAGE_NAME,
    ANNOTATION_CREATED, ANNOTATION_DESCRIPTION, ANNOTATION_DOCUMENTATION, ANNOTATION_LICENSES,
    ANNOTATION_REF_NAME, ANNOTATION_REVISION, ANNOTATION_SOURCE, ANNOTATION_TITLE, ANNOTATION_URL,
    ANNOTATION_VENDOR, ANNOTATION_VERSION, Arch, ArtifactManifest, ArtifactManifestBuilder, Config,
    ConfigBuilder, Descriptor, DescriptorBuilder, Digest, DigestAlgorithm, History, HistoryBuilder,
    ImageConfiguration, ImageConfigurationBuilder, ImageIndex, ImageIndexBuilder, ImageManifest,
    ImageManifestBuilder, LABEL_VERSION, MediaType, OciLayout, OciLayoutBuilder, Os, Platform,
    PlatformBuilder, RootFs, RootFsBuilder, SCHEMA_VERSION, Sha256Digest, ToDockerV2S2, VERSION,
    VERSION_DEV, VERSION_MAJOR, VERSION_MINOR, VERSION_PATCH, annotations, version,
};
