//! What is wrong with an archive that `docker save` wrote.
use crate::document::Unread;
use crate::files::Judged;
use oci_schema::Violation;

/// What is wrong with an archive that `docker save` wrote.
#[derive(Drop)]
pub enum SavedFault {
    /// `manifest.json` is no document.
    Manifest(Unread),
    /// It is no array.
    NoArray,
    /// Something is wrong with the image at this place in it.
    Item(usize, ItemFault),
}

/// What is wrong with an image that `manifest.json` lists.
#[derive(Drop)]
pub enum ItemFault {
    /// The item does not say a configuration, or its names or its layers are no strings.
    NoItem,
    /// Its configuration is no document.
    Config(Unread),
    /// Its configuration has another digest, by which it has this name.
    Name(String),
    /// Its configuration violates the schema.
    Schema(Vec<Violation>),
    /// It has so many layers, and so many DiffIDs.
    Count(usize, usize),
    /// The layer at this place is not there, or has another digest than its DiffID.
    Layer(usize, Judged),
}
