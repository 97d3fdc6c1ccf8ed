//! Why an image configuration is not converted.
ghost use Rattle.std.specs.Prelude.{◌≡◌};

use std::alloc::{AllocError, AllocFailed};
use thiserror::Error;

/// Why an image configuration is not converted.
#[derive(Clone, Copy, Debug, PartialEq, Eq, Error)]
pub enum ConvertError {
    /// The runtime configuration to start from has no `process`.
    #[error("the runtime configuration to start from has no process")]
    NoProcess,
    /// `Config.User` names a user that the container does not have.
    #[error("config.User: there is no user of this name")]
    UnknownUser,
    /// `Config.User` names a group that the container does not have.
    #[error("config.User: there is no group of this name")]
    UnknownGroup,
    /// `Config.User` has a number that is no ID of a user or a group: 4294967295 or more.
    #[error("config.User: a number is larger than 4294967294, the last ID")]
    NoId,
    /// Out of memory.
    #[error("out of memory")]
    Memory,
}

impl From<AllocError> for ConvertError {
    ghost use Rattle.oci_convert.specs.declared.error.ConvertError.TheVariants.{Memory};

    ghost from_gives = { λ _ e. e ≡ Memory };

    fn from(_refused: AllocError) -> ConvertError {
        ConvertError::Memory
    }
}

impl<T: Drop> From<AllocFailed<T>> for ConvertError {
    ghost use Rattle.oci_convert.specs.declared.error.ConvertError.TheVariants.{Memory};

    ghost from_gives = { λ _ e. e ≡ Memory };

    fn from(_refused: AllocFailed<T>) -> ConvertError {
        ConvertError::Memory
    }
}
