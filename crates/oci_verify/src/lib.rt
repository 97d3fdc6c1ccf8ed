//! Verifying an image layout as `ciderglen verify` does, in a folder or in an archive: a walk over all that its index reaches, whose findings
//! are written as they are found, and an exit status (image specification, "Image Layout").
#![tactic(auto)]

pub mod archive;
pub mod disagreements;
pub mod documents;
pub mod entries;
pub mod examination;
pub mod images;
pub mod layer_findings;
pub mod layers;
pub mod marker;
pub mod options;
pub mod output;
pub mod program;
pub mod progress;
pub mod unreferenced;
pub mod verifier;

pub use archive::{ArchiveFile, BOUNDS};
pub use options::Options;
pub use progress::Watch;
pub use verifier::Verifier;
