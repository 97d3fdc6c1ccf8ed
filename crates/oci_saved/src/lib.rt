//! Images in archives as `docker save` wrote them before version 25, and as `podman save` and `skopeo copy` write them for `docker-archive`:
//! `manifest.json` names a configuration by its digest, and the configuration has the digests of all layers.
#![tactic(auto)]

pub mod check;
pub mod document;
pub mod entry;
pub mod fault;
pub mod files;
pub mod finding;
pub mod item;
pub mod laws;
pub mod link;

pub use check::saved_faults;
pub use document::Unread;
pub use entry::refused_entries;
pub use fault::{ItemFault, SavedFault};
pub use files::{Files, Judged, extent_at, is_saved_archive};
pub use finding::saved_findings;
pub use link::target_of;
