//! A registry's lists, its error replies, references to images, and the version of the distribution specification.
#![tactic(auto)]

pub mod error_info;
pub mod error_response;
pub mod repository_list;
pub mod tag_list;
pub mod versions;

pub use error_info::{ErrorInfo, ErrorInfoBuilder};
pub use error_response::{ERR_REGISTRY, ErrorResponse, ErrorResponseBuilder};
pub use oci_reference::{ParseError, Reference};
pub use oci_text::ErrorCode;
pub use repository_list::{RepositoryList, RepositoryListBuilder};
pub use tag_list::{TagList, TagListBuilder};
pub use versions::{VERSION, VERSION_DEV, VERSION_MAJOR, VERSION_MINOR, VERSION_PATCH, version};
