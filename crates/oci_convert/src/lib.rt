//! The conversion of an image configuration to a runtime configuration (image specification, "Conversion to OCI Runtime
//! Configuration").
#![tactic(auto)]

mod annotations;
pub mod conversion;
mod environment;
pub mod error;
pub mod laws;
mod map;
mod process;
mod process_user;
mod texts;
pub mod user;
mod volumes;

pub use conversion::convert;
pub use error::ConvertError;
pub use user::{Resolved, resolve};
