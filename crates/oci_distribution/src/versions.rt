//! The version of the distribution specification.
ghost use Rattle.std.specs.Prelude.{◌≡◌, ◌++◌, codes, decimal, IfOk, IfErr, string_bytes};

use oci_base::{OciSpecError, Result};
use std::alloc::Global;

/// The major version: incompatible changes increment it.
pub const VERSION_MAJOR: u32 = 1;

/// The minor version: compatible additions increment it.
pub const VERSION_MINOR: u32 = 0;

/// Bug fixes count up this number.
pub const VERSION_PATCH: u32 = 0;

/// What marks a version in the making: nothing.
pub const VERSION_DEV: &str = "";

/// The whole version.
pub const VERSION: &str = "1.0.0";

/// The text of `VERSION`: the major, the minor and the patch version with full stops between.
pub fn version(alloc: Global) -> Result<String>
    ensures ok { IfOk result (λ t. string_bytes t ≡ codes "1.0.0") }
    ensures numbers { IfOk result (λ t. string_bytes t ≡ decimal VERSION_MAJOR ++ (codes "." ++ (decimal VERSION_MINOR ++ (codes "." ++ decimal VERSION_PATCH)))) }
    ensures err { IfErr result (λ e. e ≡ OciSpecError.Memory) }
{
    Ok(String::from_str(alloc, VERSION)?)
}
