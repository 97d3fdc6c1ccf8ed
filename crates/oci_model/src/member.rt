//! The copying of a member that may be none.
ghost use Rattle.std.specs.Prelude.{◌≡◌, IfOk, IfErr};
ghost use Rattle.oci_model.specs.Types.{perhaps};

use crate::record::OciMember;
use oci_base::{OciSpecError, Result};
use std::alloc::Global;

/// Copies a member that may be none.
pub fn copy_optional<T: OciMember>(x: &Option<T>, alloc: Global) -> Result<Option<T>>
    ensures ok { IfOk result (λ y. perhaps T.plain y ≡ perhaps T.plain x.now) }
    ensures err { IfErr result (λ e. e ≡ OciSpecError.Memory) }
{
    match x {
        Some(x) => Ok(Some(x.copy(alloc)?)),
        None => Ok(None),
    }
}
