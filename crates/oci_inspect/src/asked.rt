//! What is asked of an image.
use crate::image::Wanted;

/// What is shown of an image.
#[derive(Clone, Copy, Debug, PartialEq, Eq)]
pub enum Part {
    /// What its descriptor, its manifest and its configuration say.
    Summary,
    /// The bytes of its manifest.
    Manifest,
    /// The bytes of its configuration.
    Config,
    /// The digest of its manifest.
    Digest,
}

/// How a summary is written.
#[derive(Clone, Copy, Debug, PartialEq, Eq)]
pub enum Style {
    /// Lines for people.
    Text,
    /// An object in one line.
    Json,
}

/// An image, and what is shown of it.
#[derive(Clone, Copy)]
pub struct Inspect<'a> {
    pub wanted: Wanted<'a>,
    pub part: Part,
    pub style: Style,
}
