//! Image layouts and other stores of contents: whether all that is reached is there, as large and with the digest that is said of
//! it, and is the document of its media type (image specification, "Image Layout").
#![tactic(auto)]

pub mod claim;
pub mod descriptor;
pub mod document;
pub mod fine;
pub mod folder;
pub mod kind;
pub mod laws;
pub mod layout;
pub mod member;
pub mod memory;
pub mod path;
pub mod pieces;
pub mod shelf;
pub mod store;
pub mod top;
pub mod walk;

pub use claim::{Claim, Detail, Fault, Held, Role, Seen, Shown};
pub use descriptor::{claim_of_value, descriptor_under, items_under, number_under, string_under};
pub use document::read_document;
pub use fine::{are_found, are_read, is_sound_walk};
pub use folder::Folder;
pub use kind::Kind;
pub use layout::Layout;
pub use member::OtherMember;
pub use memory::{Kept, Memory};
pub use path::blob_path;
pub use shelf::Shelf;
pub use store::{ImageLayout, Listed, Opened, Store};
pub use top::{DOCUMENT_LIMIT, Top, read_content, read_top};
pub use walk::{Mention, Walk, walk_all};
