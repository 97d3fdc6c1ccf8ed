//! The image documents: manifests, indexes, layouts, configurations and their parts; the keys of annotations and the version of the image
//! specification.
#![tactic(auto)]

pub mod annotations;
pub mod artifact_manifest;
pub mod config;
pub mod history;
pub mod image_configuration;
pub mod image_index;
pub mod image_manifest;
pub mod oci_layout;
pub mod root_fs;
pub mod versions;

pub use annotations::{
    ANNOTATION_AUTHORS, ANNOTATION_BASE_IMAGE_DIGEST, ANNOTATION_BASE_IMAGE_NAME,
    ANNOTATION_CREATED, ANNOTATION_DESCRIPTION, ANNOTATION_DOCUMENTATION, ANNOTATION_LICENSES,
    ANNOTATION_REF_NAME, ANNOTATION_REVISION, ANNOTATION_SOURCE, ANNOTATION_TITLE, ANNOTATION_URL,
    ANNOTATION_VENDOR, ANNOTATION_VERSION,
};
pub use artifact_manifest::{ArtifactManifest, ArtifactManifestBuilder};
pub use config::{Config, ConfigBuilder};
pub use history::{History, HistoryBuilder};
pub use image_configuration::{ImageConfiguration, ImageConfigurationBuilder, LABEL_VERSION};
pub use image_index::{ImageIndex, ImageIndexBuilder};
pub use image_manifest::{ImageManifest, ImageManifestBuilder};
pub use oci_descriptor::{Descriptor, DescriptorBuilder, Platform, PlatformBuilder};
pub use oci_layout::{OciLayout, OciLayoutBuilder};
pub use oci_text::{Arch, Digest, DigestAlgorithm, MediaType, Os, Sha256Digest, ToDockerV2S2};
pub use root_fs::{RootFs, RootFsBuilder};
pub use versions::{
    SCHEMA_VERSION, VERSION, VERSION_DEV, VERSION_MAJOR, VERSION_MINOR, VERSION_PATCH, version,
};
