//! A registry's lists, its error replies and references to images.

pub use oci_distribution::{
    ERR_REGISTRY, ErrorCode, ErrorInfo, ErrorInfoBuilder, ErrorResponse, ErrorResponseBuilder,
    ParseError, Reference, RepositoryList, RepositoryListBuilder, TagList, TagListBuilder, VERSION,
    VERSION_DEV, VERSION_MAJOR, VERSION_MINOR, VERSION_PATCH, version,
};
