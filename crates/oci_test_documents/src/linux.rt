//! What records of the Linux part display.

use crate::checks::check;
use oci_base::Result;
use oci_cgroups::{
    LinuxDeviceCgroup, LinuxDeviceCgroupBuilder, LinuxInterfacePriority,
    LinuxInterfacePriorityBuilder,
};
use oci_linux::{LinuxDeviceBuilder, cgroup_of};
use oci_test_support::Harness;
use oci_text::LinuxDeviceType;
use std::alloc::Global;
use std::fmt::Display;

/// What a value displays.
fn shown<T: Display + Drop>(alloc: Global, made: Result<T>) -> Result<String> {
    Ok(made?.to_string(alloc)?)
}

/// The rule for a device.
fn rule_of_device(alloc: Global) -> Result<LinuxDeviceCgroup> {
    let device = LinuxDeviceBuilder::default()
        .typ(LinuxDeviceType::C)
        .major(1)
        .minor(3)
        .build(alloc)?;
    cgroup_of(alloc, &device)
}

fn lines_of_control_groups(harness: &mut Harness<'_>) {
    let alloc = harness.rt.alloc();
    let found = shown(alloc, rule_of_device(alloc));
    check(harness, "of a device", found, Ok("c 1:3 rwm"));
    let rule = LinuxDeviceCgroupBuilder::default();
    let found = shown(alloc, rule.build(alloc));
    check(harness, "of all devices", found, Ok("a *:* "));
    let rule = LinuxDeviceCgroupBuilder::default().major(-1).minor(9);
    let found = shown(alloc, rule.build(alloc));
    check(harness, "of numbers", found, Ok("a -1:9 "));
}

fn priority(alloc: Global) -> Result<LinuxInterfacePriority> {
    let name = String::from_str(alloc, "eth0")?;
    LinuxInterfacePriorityBuilder::default()
        .name(name)
        .priority(7)
        .build(alloc)
}

pub fn all(harness: &mut Harness<'_>) {
    lines_of_control_groups(harness);
    let alloc = harness.rt.alloc();
    let found = shown(alloc, priority(alloc));
    check(harness, "priority", found, Ok("eth0 7\n"));
    harness.end("linux", "texts displayed");
}
