//! The folder that a tar archive denotes: which content lies at which path once it is unpacked, without unpacking it. What tools unpack
//! differently denotes nothing: a path that stands twice or leads out of the folder, a link to what is no file before it, a sparse file.
#![tactic(auto)]

pub mod compression;
pub mod extent;
pub mod finding;
pub mod index;
pub mod laws;
pub mod mark;
pub mod path;
pub mod read;

pub use compression::{Compression, compression_of};
pub use extent::Extent;
pub use finding::{EntryFault, EntryFinding, entry_findings};
pub use index::Index;
pub use path::{is_directory, normal_path, path_of_entry};
pub use read::{Bounds, IndexError, read_index};
