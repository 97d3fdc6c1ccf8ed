//! The statuses of errors.
ghost use Rattle.std.specs.Prelude.{◌≡◌, ◌⊎◌};
ghost use Rattle.oci_base.specs.Refused.{IsJson, IsSchema};

use crate::status::{INVALID_DOCUMENT, INVALID_JSON, OUT_OF_MEMORY};
use oci_base::{OciSpecError, SerDeError};

/// The status of an error.
pub(crate) fn status_of(error: &OciSpecError) -> u32
    ensures json { result ≡ INVALID_JSON → IsJson error.now }
    ensures schema { result ≡ INVALID_DOCUMENT → IsSchema error.now }
    ensures status { (result ≡ OUT_OF_MEMORY) ⊎ ((result ≡ INVALID_JSON) ⊎ (result ≡ INVALID_DOCUMENT)) }
{
    match error {
        OciSpecError::SerDe(SerDeError::Json(_)) => INVALID_JSON,
        OciSpecError::SerDe(SerDeError::Schema(_)) => INVALID_DOCUMENT,
        _ => OUT_OF_MEMORY,
    }
}
