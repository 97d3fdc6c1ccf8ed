//! Content descriptors, and the platforms that images are for.
#![tactic(auto)]

pub mod descriptor;
pub mod platform;

pub use descriptor::{Descriptor, DescriptorBuilder};
pub use platform::{Platform, PlatformBuilder};
