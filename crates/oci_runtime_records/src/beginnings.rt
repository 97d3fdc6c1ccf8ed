//! The version, root and mounts with which the configuration of a container begins.
ghost use Rattle.std.specs.Prelude.{◌≡◌, IfOk, IfErr, codes, string_bytes};
ghost use Rattle.oci_model.specs.Types.{list_plain};
ghost use Rattle.oci_runtime_records.specs.Root.{root_plain, default_root};
ghost use Rattle.oci_runtime_records.specs.Mount.{mount_plain};
ghost use Rattle.oci_runtime_records.specs.DefaultMounts.{rootless_mounts};

use crate::defaults::get_rootless_mounts;
use crate::mount::Mount;
use crate::root::Root;
use crate::texts::text_of;
use oci_base::{OciSpecError, Result};
use oci_model::try_join3;
use std::alloc::Global;

/// Those of a container that a user without privileges starts: the default version and root, and the rootless mounts.
pub fn rootless_parts(alloc: Global) -> Result<(String, Root, Vec<Mount>)>
    ensures version { IfOk result (λ (version, root, mounts). string_bytes version ≡ codes "1.0.2-dev") }
    ensures root { IfOk result (λ (version, root, mounts). root_plain root ≡ default_root) }
    ensures mounts { IfOk result (λ (version, root, mounts). list_plain mount_plain mounts ≡ rootless_mounts) }
    ensures err { IfErr result (λ e. e ≡ OciSpecError.Memory) }
{
    try_join3(
        text_of(alloc, "1.0.2-dev"),
        Root::try_default(alloc),
        get_rootless_mounts(alloc),
    )
}
