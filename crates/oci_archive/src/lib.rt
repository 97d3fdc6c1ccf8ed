//! Image layouts in tar archives, as `skopeo`, `podman save`, `docker save` and `buildx` write them. An archive is a layout that is read as a
//! folder is, by an index of where its contents lie; nothing is unpacked.
#![tactic(auto)]

pub mod in_memory;
pub mod laws;
pub mod list;
pub mod name;
pub mod on_disk;
pub mod packed;
pub mod source;

pub use in_memory::InMemory;
pub use on_disk::OnDisk;
pub use packed::Packed;
pub use source::Source;
