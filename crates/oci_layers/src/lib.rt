//! What a layer of an image unpacks to: the checksum of its uncompressed archive, which is its DiffID (image specification, "Layer
//! DiffID"), and what is asked of the archive's entries ("Image Layer Filesystem Changeset").
#![tactic(auto)]

mod broken;
mod encoding;
mod error;
mod facts;
mod kept;
pub mod laws;
mod name;
mod read;
mod rule;
mod seen;
mod sink;
mod tail;
mod uncompressed;

pub use broken::{LayerFinding, broken_rules};
pub use encoding::{Encoding, LAYER_TYPES, LayerType, encoding_of_front};
pub use error::LayerError;
pub use read::{LayerEntries, read_layer};
pub use rule::{Description, LAYER_RULES, LayerRule};
pub use uncompressed::{diff_id, uncompressed_checksum};
