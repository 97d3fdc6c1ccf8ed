//! Which namespaces, masked and readonly paths a container has by default, and what it may use of its host (runtime specification, "Linux
//! Container Configuration", "Namespaces", "Masked Paths", "Readonly Paths", "Control groups").
ghost use Rattle.std.specs.Prelude.{◌≡◌, IfOk, IfErr};
ghost use Rattle.oci_cgroups.specs.LinuxResources.{linux_resources_plain};
ghost use Rattle.oci_model.specs.Types.{list_plain, text_plain};
ghost use Rattle.oci_linux.specs.DefaultResources.{default_resources};
ghost use Rattle.oci_linux.specs.LinuxNamespace.{linux_namespace_plain};
ghost use Rattle.oci_linux.specs.Defaults.{default_masked_paths, default_namespaces, default_readonly_paths, new_namespace, new_namespaces, rootless_namespaces};

use crate::{LinuxNamespace, LinuxNamespaceBuilder, texts_of};
use oci_base::{OciSpecError, Result};
use oci_cgroups::{LinuxResources, LinuxResourcesBuilder};
use oci_text::LinuxNamespaceType;
use std::alloc::Global;

static DEFAULT: [LinuxNamespaceType; 6] = [
    LinuxNamespaceType::Pid,
    LinuxNamespaceType::Network,
    LinuxNamespaceType::Ipc,
    LinuxNamespaceType::Uts,
    LinuxNamespaceType::Mount,
    LinuxNamespaceType::Cgroup,
];

static ROOTLESS: [LinuxNamespaceType; 6] = [
    LinuxNamespaceType::Pid,
    LinuxNamespaceType::Ipc,
    LinuxNamespaceType::Uts,
    LinuxNamespaceType::Mount,
    LinuxNamespaceType::Cgroup,
    LinuxNamespaceType::User,
];

static MASKED: [&str; 10] = [
    "/proc/acpi",
    "/proc/asound",
    "/proc/kcore",
    "/proc/keys",
    "/proc/latency_stats",
    "/proc/timer_list",
    "/proc/timer_stats",
    "/proc/sched_debug",
    "/sys/firmware",
    "/proc/scsi",
];

static READONLY: [&str; 5] = [
    "/proc/bus",
    "/proc/fs",
    "/proc/irq",
    "/proc/sys",
    "/proc/sysrq-trigger",
];

/// The namespaces that a container has by default, all of them new: its own processes, network, queues, host name, mounts
/// and control groups.
pub fn get_default_namespaces(alloc: Global) -> Result<Vec<LinuxNamespace>>
    ensures ok { IfOk result (λ x. list_plain linux_namespace_plain x ≡ default_namespaces) }
    ensures err { IfErr result (λ e. e ≡ OciSpecError.Memory) }
{
    namespaces_of(alloc, &DEFAULT)
}

/// The namespaces of a container that a user without privileges starts: the default ones, but that it has users of its
/// own and no network of its own.
pub fn get_rootless_namespaces(alloc: Global) -> Result<Vec<LinuxNamespace>>
    ensures ok { IfOk result (λ x. list_plain linux_namespace_plain x ≡ rootless_namespaces) }
    ensures err { IfErr result (λ e. e ≡ OciSpecError.Memory) }
{
    namespaces_of(alloc, &ROOTLESS)
}

/// The paths that a container cannot read by default.
pub fn get_default_maskedpaths(alloc: Global) -> Result<Vec<String>>
    ensures ok { IfOk result (λ x. list_plain text_plain x ≡ default_masked_paths) }
    ensures err { IfErr result (λ e. e ≡ OciSpecError.Memory) }
{
    texts_of(alloc, &MASKED)
}

/// The paths that a container cannot write to by default.
pub fn get_default_readonly_paths(alloc: Global) -> Result<Vec<String>>
    ensures ok { IfOk result (λ x. list_plain text_plain x ≡ default_readonly_paths) }
    ensures err { IfErr result (λ e. e ≡ OciSpecError.Memory) }
{
    texts_of(alloc, &READONLY)
}

// a new namespace of a type
fn namespace_of(alloc: Global, typ: LinuxNamespaceType) -> Result<LinuxNamespace>
    ensures ok { IfOk result (λ x. linux_namespace_plain x ≡ new_namespace typ) }
    ensures err { IfErr result (λ e. e ≡ OciSpecError.Memory) }
{
    LinuxNamespaceBuilder::default().typ(typ).build(alloc)
}

// new namespaces of these types
fn namespaces_of(alloc: Global, types: &[LinuxNamespaceType]) -> Result<Vec<LinuxNamespace>>
    ensures ok { IfOk result (λ x. list_plain linux_namespace_plain x ≡ new_namespaces types.now) }
    ensures err { IfErr result (λ e. e ≡ OciSpecError.Memory) }
{
    let mut listed = Vec::with_capacity(alloc, types.len())?;
    for typ in types {
        listed.push(namespace_of(alloc, *typ)?)?;
    }
    Ok(listed)
}

/// Resources with an empty list of rules for devices, and nothing else.
pub fn resources_without_rules(alloc: Global) -> Result<LinuxResources>
    ensures ok { IfOk result (λ x. linux_resources_plain x ≡ default_resources) }
    ensures err { IfErr result (λ e. e ≡ OciSpecError.Memory) }
{
    LinuxResourcesBuilder::default()
        .devices(Vec::new(alloc))
        .build(alloc)
}
