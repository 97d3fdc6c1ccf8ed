//! Prints the specification of a container that a user without privileges starts, here the user 1000 of the host.
ghost use Rattle.std.specs.Prelude.{◌≡◌, IfOk};
ghost use Rattle.oci_spec.specs.RootlessSpec.{rootless_spec};
ghost use Rattle.oci_spec.specs.Spec.{spec_plain};

use oci_json::to_string_pretty;
use oci_spec::Result;
use oci_spec::runtime::Spec;
use std::alloc::Global;

/// The user and the group of the host that the container's root is.
const USER: u32 = 1000;

/// The specification that this user starts from.
fn starting_point(alloc: Global) -> Result<Spec>
    ensures { IfOk result (λ x. spec_plain x ≡ rootless_spec 1000 1000) }
{
    Spec::rootless(alloc, USER, USER)
}

/// Prints the specification.
pub fn print<R: Print + AllocGlobal>(rt: &R) -> Result<()> {
    let spec = starting_point(rt.alloc())?;
    rt.println(&to_string_pretty(&spec, rt.alloc())?)?;
    Ok(())
}
