//! Which mounts a container has by default (runtime specification, "Configuration", "Mounts"; "Linux Container
//! Configuration", "Default Filesystems").
ghost use Rattle.std.specs.Prelude.{◌≡◌, IfOk, IfErr, map};
ghost use Rattle.oci_model.specs.Plain as plain;
ghost use Rattle.oci_model.specs.Types.{list_plain};
ghost use Rattle.oci_runtime_records.specs.Mount.{mount_plain};
ghost use Rattle.oci_runtime_records.specs.DefaultMounts.{default_mounts, rootless_mounts, mount_of_row};

use crate::mount::Mount;
use oci_base::{OciSpecError, Result};
use std::alloc::Global;

/// A mount without mappings, in a table.
pub(crate) struct MountRow {
    pub(crate) destination: &'static str,
    pub(crate) typ: &'static str,
    pub(crate) source: &'static str,
    pub(crate) options: &'static [&'static str],
}

static DEFAULT: [MountRow; 7] = [
    MountRow {
        destination: "/proc",
        typ: "proc",
        source: "proc",
        options: &[],
    },
    MountRow {
        destination: "/dev",
        typ: "tmpfs",
        source: "tmpfs",
        options: &["nosuid", "strictatime", "mode=755", "size=65536k"],
    },
    MountRow {
        destination: "/dev/pts",
        typ: "devpts",
        source: "devpts",
        options: &[
            "nosuid",
            "noexec",
            "newinstance",
            "ptmxmode=0666",
            "mode=0620",
            "gid=5",
        ],
    },
    MountRow {
        destination: "/dev/shm",
        typ: "tmpfs",
        source: "shm",
        options: &["nosuid", "noexec", "nodev", "mode=1777", "size=65536k"],
    },
    MountRow {
        destination: "/dev/mqueue",
        typ: "mqueue",
        source: "mqueue",
        options: &["nosuid", "noexec", "nodev"],
    },
    MountRow {
        destination: "/sys",
        typ: "sysfs",
        source: "sysfs",
        options: &["nosuid", "noexec", "nodev", "ro"],
    },
    MountRow {
        destination: "/sys/fs/cgroup",
        typ: "cgroup",
        source: "cgroup",
        options: &["nosuid", "noexec", "nodev", "relatime", "ro"],
    },
];

static ROOTLESS: [MountRow; 7] = [
    MountRow {
        destination: "/proc",
        typ: "proc",
        source: "proc",
        options: &[],
    },
    MountRow {
        destination: "/dev",
        typ: "tmpfs",
        source: "tmpfs",
        options: &["nosuid", "strictatime", "mode=755", "size=65536k"],
    },
    MountRow {
        destination: "/dev/pts",
        typ: "devpts",
        source: "devpts",
        options: &[
            "nosuid",
            "noexec",
            "newinstance",
            "ptmxmode=0666",
            "mode=0620",
        ],
    },
    MountRow {
        destination: "/dev/shm",
        typ: "tmpfs",
        source: "shm",
        options: &["nosuid", "noexec", "nodev", "mode=1777", "size=65536k"],
    },
    MountRow {
        destination: "/dev/mqueue",
        typ: "mqueue",
        source: "mqueue",
        options: &["nosuid", "noexec", "nodev"],
    },
    MountRow {
        destination: "/sys",
        typ: "none",
        source: "/sys",
        options: &["nosuid", "noexec", "nodev", "ro", "rbind"],
    },
    MountRow {
        destination: "/sys/fs/cgroup",
        typ: "cgroup",
        source: "cgroup",
        options: &["nosuid", "noexec", "nodev", "relatime", "ro"],
    },
];

/// The mounts that a container has by default: processes, devices, terminals, shared memory, queues, the system's devices
/// and its control groups.
pub fn get_default_mounts(alloc: Global) -> Result<Vec<Mount>>
    ensures ok { IfOk result (λ x. list_plain mount_plain x ≡ default_mounts) }
    ensures err { IfErr result (λ e. e ≡ OciSpecError.Memory) }
{
    mounts_of(alloc, &DEFAULT)
}

/// The mounts of a container that a user without privileges starts: the default ones, but that terminals have no group and
/// that `/sys` is the host's.
pub fn get_rootless_mounts(alloc: Global) -> Result<Vec<Mount>>
    ensures ok { IfOk result (λ x. list_plain mount_plain x ≡ rootless_mounts) }
    ensures err { IfErr result (λ e. e ≡ OciSpecError.Memory) }
{
    mounts_of(alloc, &ROOTLESS)
}

// the mounts of these rows
fn mounts_of(alloc: Global, rows: &[MountRow]) -> Result<Vec<Mount>>
    ensures ok { IfOk result (λ x. list_plain mount_plain x ≡ plain.list (plain.plains (map mount_of_row rows.now))) }
    ensures err { IfErr result (λ e. e ≡ OciSpecError.Memory) }
{
    let mut listed = Vec::with_capacity(alloc, rows.len())?;
    for row in rows {
        listed.push(Mount::of_row(alloc, row)?)?;
    }
    Ok(listed)
}
