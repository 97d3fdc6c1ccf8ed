//! The Linux part of a container that a user without privileges starts.
ghost use Rattle.std.specs.Prelude.{◌≡◌, IfOk, IfErr};
ghost use Rattle.oci_model.specs.Types.{list_plain};
ghost use Rattle.oci_linux.specs.Linux.{linux_plain};
ghost use Rattle.oci_linux.specs.Rootless.{mapping_of, rootless_linux};
ghost use Rattle.oci_linux.specs.LinuxIdMapping.{linux_id_mapping_plain};

use super::Linux;
use crate::defaults::{
    get_default_maskedpaths, get_default_readonly_paths, get_rootless_namespaces,
};
use crate::{LinuxIdMapping, LinuxIdMappingBuilder};
use oci_base::{OciSpecError, Result};
use oci_model::try_join5;
use std::alloc::Global;

impl Linux {
    /// The default document of a container that a user without privileges starts: it has no resources, users of its own
    /// and no network of its own, and its root is the given user and group of the host.
    pub fn rootless(alloc: Global, uid: u32, gid: u32) -> Result<Linux>
        ensures ok { IfOk result (λ x. linux_plain x ≡ rootless_linux uid gid) }
        ensures err { IfErr result (λ e. e ≡ OciSpecError.Memory) }
    {
        let (uid_mappings, gid_mappings, namespaces, masked_paths, readonly_paths) = try_join5(
            mapping_to(alloc, uid),
            mapping_to(alloc, gid),
            get_rootless_namespaces(alloc),
            get_default_maskedpaths(alloc),
            get_default_readonly_paths(alloc),
        )?;
        Ok(Linux {
            net_devices: None,
            uid_mappings: Some(uid_mappings),
            gid_mappings: Some(gid_mappings),
            sysctl: None,
            resources: None,
            cgroups_path: None,
            namespaces: Some(namespaces),
            devices: None,
            seccomp: None,
            rootfs_propagation: None,
            masked_paths: Some(masked_paths),
            readonly_paths: Some(readonly_paths),
            mount_label: None,
            intel_rdt: None,
            memory_policy: None,
            personality: None,
            time_offsets: None,
        })
    }
}

// the container's ID 0, mapped to this one of the host
fn mapping_to(alloc: Global, host: u32) -> Result<Vec<LinuxIdMapping>>
    ensures ok { IfOk result (λ x. list_plain linux_id_mapping_plain x ≡ mapping_of host) }
    ensures err { IfErr result (λ e. e ≡ OciSpecError.Memory) }
{
    let mapping = LinuxIdMappingBuilder::default()
        .host_id(host)
        .container_id(0)
        .size(1)
        .build(alloc)?;
    let mut mappings = Vec::new(alloc);
    mappings.push(mapping)?;
    Ok(mappings)
}
