//! The rule for a device that a container has (runtime specification, "Linux Container Configuration", "Allowed Device list").
ghost use Rattle.std.specs.Prelude.{◌≡◌, IfOk, IfErr};
ghost use Rattle.oci_cgroups.specs.LinuxDeviceCgroup.{linux_device_cgroup_plain};
ghost use Rattle.oci_linux.specs.DeviceRule.{device_rule};

use crate::LinuxDevice;
use oci_base::{OciSpecError, Result};
use oci_cgroups::{LinuxDeviceCgroup, LinuxDeviceCgroupBuilder};
use std::alloc::Global;

/// The rule that allows a container to read, write and make the device.
pub fn cgroup_of(alloc: Global, device: &LinuxDevice) -> Result<LinuxDeviceCgroup>
    ensures ok { IfOk result (λ x. linux_device_cgroup_plain x ≡ device_rule device.now) }
    ensures err { IfErr result (λ e. e ≡ OciSpecError.Memory) }
{
    let access = String::from_str(alloc, "rwm")?;
    LinuxDeviceCgroupBuilder::default()
        .allow(true)
        .typ(device.typ())
        .major(device.major())
        .minor(device.minor())
        .access(access)
        .build(alloc)
}
