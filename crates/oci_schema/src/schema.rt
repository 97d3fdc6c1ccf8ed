//! Schemas of values.
use crate::presence::Scalar;

/// What a value alone, an item of an array or a member of a map may be.
#[derive(Clone, Copy)]
pub enum Part {
    /// A scalar.
    Scalar(Scalar),
    /// The record at this place of a table of records.
    Record(usize),
}

/// What a value may be.
#[derive(Clone, Copy)]
pub enum Schema {
    /// Such a part.
    One(Part),
    /// An array of such parts.
    List(Part),
    /// An object that maps any names to such parts.
    Map(Part),
}
