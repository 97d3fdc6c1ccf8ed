//! Texts in memory of their own.
ghost use Rattle.std.specs.Prelude.{◌≡◌, IfOk, IfErr, string_bytes};

use oci_base::{OciSpecError, Result};
use std::alloc::Global;

/// A copy of a text.
pub fn text_of(alloc: Global, text: &str) -> Result<String>
    ensures ok { IfOk result (λ t. string_bytes t ≡ text.now) }
    ensures err { IfErr result (λ e. e ≡ OciSpecError.Memory) }
{
    Ok(String::from_str(alloc, text)?)
}
