//! What the documents of one image say of each other: the descriptor that leads to its manifest, the manifest, and its configuration.
#![tactic(auto)]

mod agreement;
mod annotations;
mod broken;
mod compared;
pub mod descriptors;
mod find;
mod image;
mod layers;
mod parts;
mod sets;
mod types;

pub use agreement::{Agreement, Description};
pub use broken::{Broken, Document, Shown};
pub use find::{AGREEMENTS, broken_agreements};
pub use image::Image;
pub use layers::is_filesystem_image;
