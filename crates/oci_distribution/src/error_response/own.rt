//! What `ErrorResponse` has beside its record: it is an error, which displays one text.
ghost use Rattle.std.specs.Prelude.{◌≡◌};

use super::ErrorResponse;
use crate::error_info::ErrorInfo;
use std::error::Error;
use std::fmt;

/// The text that an `ErrorResponse` displays.
pub const ERR_REGISTRY: &str = "distribution: registry returned error";

impl fmt::Display for ErrorResponse {
    ghost use Rattle.std.specs.Prelude.{Some, codes};

    ghost output = { λ _. Some (codes "distribution: registry returned error") };

    fn fmt<W: fmt::Write>(&self, f: &mut fmt::Formatter<W>) -> fmt::Result {
        f.write_str(ERR_REGISTRY)
    }
}

impl Error for ErrorResponse {}

impl ErrorResponse {
    /// The errors, as a slice.
    pub fn detail(&self) -> &[ErrorInfo]
        ensures { result.now ≡ self.now.errors.items }
    {
        self.errors.as_slice()
    }
}
