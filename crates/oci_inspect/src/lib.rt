//! One image of an image layout: found by its name and its platform, and shown as `ciderglen inspect` shows it (image specification, "Image
//! Layout" and "Image Index").
#![tactic(auto)]

pub mod asked;
mod config;
mod contents;
pub mod fault;
pub mod find;
mod first;
pub mod image;
mod kinds;
mod meant;
mod messages;
mod names;
mod object;
mod platforms;
pub mod program;
mod rows;
mod show;
mod summarized;
mod summary;

pub use asked::{Inspect, Part, Style};
pub use fault::{Fault, FindError, InspectError};
pub use find::find_image;
pub use image::{FoundImage, Wanted};
pub use program::inspect;
