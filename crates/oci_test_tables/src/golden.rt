//! Golden documents: reads and writes the documents of `golden/`, and prints how many rows of each record it checked.
//!
//! `golden/RECORD.rows` has the rows of a record, with an empty line between them. A row is a JSON text, of one line or more, and
//! below it one line with what is read of it:
//!
//! - `= TEXT`, the compact text of the document;
//! - `! RECORD.MEMBER`, the record and its member that reject the text; nothing follows the point if the whole is rejected.
//!
//! A text whose document is written as that of another one, as an empty list that is omitted, is no row. What begins with `#` is a
//! remark and no row. A record more takes its file, a line of code below and a line of the program's `stdout`.
//!
//! [`tables`] has the golden tables: strings, numbers and constants.

mod found;
mod rows;
pub mod tables;

use rows::{check_type, rows};
use std::rt::Files;

fn image<R: Files + Print + AllocGlobal>(rt: &R) {
    rows::<oci_image::Descriptor, R>(rt, "Descriptor");
    rows::<oci_image::Platform, R>(rt, "Platform");
    rows::<oci_image::ImageManifest, R>(rt, "ImageManifest");
    rows::<oci_image::ImageIndex, R>(rt, "ImageIndex");
    rows::<oci_image::ArtifactManifest, R>(rt, "ArtifactManifest");
    rows::<oci_image::OciLayout, R>(rt, "OciLayout");
    rows::<oci_image::ImageConfiguration, R>(rt, "ImageConfiguration");
    rows::<oci_image::Config, R>(rt, "Config");
    rows::<oci_image::RootFs, R>(rt, "RootFs");
    rows::<oci_image::History, R>(rt, "History");
}

fn distribution<R: Files + Print + AllocGlobal>(rt: &R) {
    rows::<oci_distribution::ErrorInfo, R>(rt, "ErrorInfo");
    rows::<oci_distribution::ErrorResponse, R>(rt, "ErrorResponse");
    rows::<oci_distribution::RepositoryList, R>(rt, "RepositoryList");
    rows::<oci_distribution::TagList, R>(rt, "TagList");
    rows::<oci_reference::Reference, R>(rt, "Reference");
}

fn control_groups<R: Files + Print + AllocGlobal>(rt: &R) {
    rows::<oci_cgroups::LinuxResources, R>(rt, "LinuxResources");
    rows::<oci_cgroups::LinuxMemory, R>(rt, "LinuxMemory");
    rows::<oci_cgroups::LinuxCpu, R>(rt, "LinuxCpu");
    rows::<oci_cgroups::LinuxPids, R>(rt, "LinuxPids");
    rows::<oci_cgroups::LinuxBlockIo, R>(rt, "LinuxBlockIo");
    rows::<oci_cgroups::LinuxWeightDevice, R>(rt, "LinuxWeightDevice");
    rows::<oci_cgroups::LinuxThrottleDevice, R>(rt, "LinuxThrottleDevice");
    rows::<oci_cgroups::LinuxDeviceCgroup, R>(rt, "LinuxDeviceCgroup");
    rows::<oci_cgroups::LinuxHugepageLimit, R>(rt, "LinuxHugepageLimit");
    rows::<oci_cgroups::LinuxNetwork, R>(rt, "LinuxNetwork");
    rows::<oci_cgroups::LinuxInterfacePriority, R>(rt, "LinuxInterfacePriority");
    rows::<oci_cgroups::LinuxRdma, R>(rt, "LinuxRdma");
}

fn linux<R: Files + Print + AllocGlobal>(rt: &R) {
    rows::<oci_linux::Linux, R>(rt, "Linux");
    rows::<oci_linux::LinuxIdMapping, R>(rt, "LinuxIdMapping");
    rows::<oci_linux::LinuxNetDevice, R>(rt, "LinuxNetDevice");
    rows::<oci_linux::LinuxNamespace, R>(rt, "LinuxNamespace");
    rows::<oci_linux::LinuxDevice, R>(rt, "LinuxDevice");
    rows::<oci_linux::LinuxTimeOffset, R>(rt, "LinuxTimeOffset");
    rows::<oci_linux::LinuxSeccomp, R>(rt, "LinuxSeccomp");
    rows::<oci_linux::LinuxSyscall, R>(rt, "LinuxSyscall");
    rows::<oci_linux::LinuxSeccompArg, R>(rt, "LinuxSeccompArg");
    rows::<oci_linux::LinuxIntelRdt, R>(rt, "LinuxIntelRdt");
    rows::<oci_linux::LinuxPersonality, R>(rt, "LinuxPersonality");
    rows::<oci_linux::LinuxMemoryPolicy, R>(rt, "LinuxMemoryPolicy");
}

fn process<R: Files + Print + AllocGlobal>(rt: &R) {
    rows::<oci_process::Process, R>(rt, "Process");
    rows::<oci_process::Box, R>(rt, "Box");
    rows::<oci_process::PosixRlimit, R>(rt, "PosixRlimit");
    rows::<oci_process::User, R>(rt, "User");
    rows::<oci_process::LinuxCapabilities, R>(rt, "LinuxCapabilities");
    rows::<oci_process::LinuxIOPriority, R>(rt, "LinuxIOPriority");
    rows::<oci_process::Scheduler, R>(rt, "Scheduler");
    rows::<oci_process::ExecCPUAffinity, R>(rt, "ExecCPUAffinity");
}

fn platforms<R: Files + Print + AllocGlobal>(rt: &R) {
    rows::<oci_platforms::Solaris, R>(rt, "Solaris");
    rows::<oci_platforms::SolarisAnet, R>(rt, "SolarisAnet");
    rows::<oci_platforms::SolarisCappedCPU, R>(rt, "SolarisCappedCPU");
    rows::<oci_platforms::SolarisCappedMemory, R>(rt, "SolarisCappedMemory");
    rows::<oci_platforms::VM, R>(rt, "VM");
    rows::<oci_platforms::VMHypervisor, R>(rt, "VMHypervisor");
    rows::<oci_platforms::VMKernel, R>(rt, "VMKernel");
    rows::<oci_platforms::VMImage, R>(rt, "VMImage");
    rows::<oci_platforms::Windows, R>(rt, "Windows");
    rows::<oci_platforms::WindowsDevice, R>(rt, "WindowsDevice");
    rows::<oci_platforms::WindowsResources, R>(rt, "WindowsResources");
    rows::<oci_platforms::WindowsMemoryResources, R>(rt, "WindowsMemoryResources");
    rows::<oci_platforms::WindowsCPUResources, R>(rt, "WindowsCPUResources");
    rows::<oci_platforms::WindowsStorageResources, R>(rt, "WindowsStorageResources");
    rows::<oci_platforms::WindowsHyperV, R>(rt, "WindowsHyperV");
    rows::<oci_platforms::WindowsNetwork, R>(rt, "WindowsNetwork");
    rows::<oci_platforms::ZOS, R>(rt, "ZOS");
    rows::<oci_platforms::ZOSNamespace, R>(rt, "ZOSNamespace");
}

fn features<R: Files + Print + AllocGlobal>(rt: &R) {
    rows::<oci_features::Features, R>(rt, "Features");
    rows::<oci_features::LinuxFeature, R>(rt, "LinuxFeature");
    rows::<oci_features::Cgroup, R>(rt, "Cgroup");
    rows::<oci_features::Seccomp, R>(rt, "Seccomp");
    rows::<oci_features::Apparmor, R>(rt, "Apparmor");
    rows::<oci_features::Selinux, R>(rt, "Selinux");
    rows::<oci_features::IDMap, R>(rt, "IDMap");
    rows::<oci_features::NetDevices, R>(rt, "NetDevices");
    rows::<oci_features::IntelRdt, R>(rt, "IntelRdt");
    rows::<oci_features::MemoryPolicy, R>(rt, "MemoryPolicy");
    rows::<oci_features::MountExtensions, R>(rt, "MountExtensions");
}

fn containers<R: Files + Print + AllocGlobal>(rt: &R) {
    rows::<oci_runtime::Spec, R>(rt, "Spec");
    rows::<oci_runtime::Root, R>(rt, "Root");
    rows::<oci_runtime::Mount, R>(rt, "Mount");
    rows::<oci_runtime::Hooks, R>(rt, "Hooks");
    rows::<oci_runtime::Hook, R>(rt, "Hook");
    rows::<oci_runtime::State, R>(rt, "State");
    rows::<oci_runtime::ContainerProcessState, R>(rt, "ContainerProcessState");
}

/// Checks the rows of all records.
pub fn run(rt: &HostRuntime) {
    image(rt);
    distribution(rt);
    control_groups(rt);
    linux(rt);
    process(rt);
    platforms(rt);
    features(rt);
    containers(rt);
    check_type(rt);
}
