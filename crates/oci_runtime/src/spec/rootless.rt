//! The specification of a container that a user without privileges starts.
ghost use Rattle.std.specs.Prelude.{◌≡◌, IfOk, IfErr};
ghost use Rattle.oci_runtime.specs.Spec.{spec_plain};
ghost use Rattle.oci_runtime.specs.RootlessSpec.{rootless_spec};

use super::Spec;
use oci_base::{OciSpecError, Result};
use oci_linux::Linux;
use oci_model::{try_join2, try_join3};
use oci_process::Process;
use oci_runtime_records::{rootless_parts, text_of};
use std::alloc::Global;
use std::collections::BTreeMap;

impl Spec {
    /// The default specification of a container that a user without privileges starts: with the rootless mounts, and with
    /// the rootless Linux part, in which the container's root is the given user and group of the host.
    pub fn rootless(alloc: Global, uid: u32, gid: u32) -> Result<Spec>
        ensures ok { IfOk result (λ x. spec_plain x ≡ rootless_spec uid gid) }
        ensures err { IfErr result (λ e. e ≡ OciSpecError.Memory) }
    {
        let ((version, root, mounts), (process, hostname, linux)) = try_join2(
            rootless_parts(alloc),
            try_join3(
                Process::try_default(alloc),
                text_of(alloc, "youki"),
                Linux::rootless(alloc, uid, gid),
            ),
        )?;
        Ok(Spec {
            version,
            root: Some(root),
            mounts: Some(mounts),
            process: Some(process),
            hostname: Some(hostname),
            domainname: None,
            hooks: None,
            annotations: Some(BTreeMap::new(alloc)),
            linux: Some(linux),
            solaris: None,
            windows: None,
            vm: None,
            zos: None,
            uid_mappings: None,
            gid_mappings: None,
        })
    }
}
