//! The keys of annotations and labels (image specification, "Annotations").

/// When the image was built.
pub const ANNOTATION_CREATED: &str = "org.opencontainers.image.created";

/// Who is responsible for the image.
pub const ANNOTATION_AUTHORS: &str = "org.opencontainers.image.authors";

/// Where to find more about the image.
pub const ANNOTATION_URL: &str = "org.opencontainers.image.url";

/// Where to find its documentation.
pub const ANNOTATION_DOCUMENTATION: &str = "org.opencontainers.image.documentation";

/// Where to find its source code.
pub const ANNOTATION_SOURCE: &str = "org.opencontainers.image.source";

/// The version of the packaged software.
pub const ANNOTATION_VERSION: &str = "org.opencontainers.image.version";

/// The revision of the packaged software's source.
pub const ANNOTATION_REVISION: &str = "org.opencontainers.image.revision";

/// Who distributes the image.
pub const ANNOTATION_VENDOR: &str = "org.opencontainers.image.vendor";

/// The licences of the software, as an SPDX expression.
pub const ANNOTATION_LICENSES: &str = "org.opencontainers.image.licenses";

/// A title for readers.
pub const ANNOTATION_TITLE: &str = "org.opencontainers.image.title";

/// A description for readers.
pub const ANNOTATION_DESCRIPTION: &str = "org.opencontainers.image.description";

/// The name of the reference for a target.
pub const ANNOTATION_REF_NAME: &str = "org.opencontainers.image.ref.name";

/// The digest of the image that this one was built on.
pub const ANNOTATION_BASE_IMAGE_DIGEST: &str = "org.opencontainers.image.base.digest";

/// The reference of the image that this one was built on.
pub const ANNOTATION_BASE_IMAGE_NAME: &str = "org.opencontainers.image.base.name";
