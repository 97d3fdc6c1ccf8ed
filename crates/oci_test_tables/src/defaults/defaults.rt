//! The defaults of all records and enums, and what a builder makes that is given nothing, where that is not the default.

use crate::defaults::documents::{document, report_count};
use anyhow::Result;
use oci_spec::{distribution, image, runtime};
use oci_test_support::rows::{ask, count, read};
use std::fs;

/// Compares the defaults of enums.
macro_rules! enums {
    ($rt:expr, $rows:expr, $($from:ident $name:ident)*) => {
        $(document($rt, $rows, stringify!($name), Ok($from::$name::default()));)*
        report_count($rt, "enums", [$(stringify!($name)),*].len());
    };
}

/// Compares copies of the defaults of some records, and returns how many there are.
macro_rules! records {
    ($rt:expr, $rows:expr, $($from:ident $name:ident)*) => {{
        $(
            document(
                $rt,
                $rows,
                stringify!($name),
                match $from::$name::try_default($rt.alloc()) {
                    Ok(made) => made.clone($rt.alloc()),
                    Err(fault) => Err(fault),
                },
            );
        )*
        [$(stringify!($name)),*].len()
    }};
}

/// Compares what the builders make that are given nothing, where that is not the default: `oci_vectors` compares those of which it is.
macro_rules! builders {
    ($rt:expr, $rows:expr, $($from:ident $builder:ident)*) => {
        $(document($rt, $rows, stringify!($builder), $from::$builder::default().build($rt.alloc()));)*
        report_count($rt, "builders", [$(stringify!($builder)),*].len());
    };
}

/// Compares all of them.
pub fn all(rt: &HostRuntime) -> Result<()> {
    let rows = read(rt, "defaults")?;
    let rows = rows.as_str();
    enums(rt, rows);
    image(rt, rows);
    linux(rt, rows);
    control_groups(rt, rows);
    process(rt, rows);
    platforms(rt, rows);
    windows(rt, rows);
    features(rt, rows);
    containers(rt, rows);
    builders(rt, rows);
    calls(rt, rows);
    saved(rt, rows)
}

fn enums(rt: &HostRuntime, rows: &str) {
    enums!(rt, rows,
        image Os
        image Arch
        runtime LinuxDeviceType
        runtime LinuxNamespaceType
        runtime LinuxSeccompAction
        runtime LinuxSeccompOperator
        runtime LinuxPersonalityDomain
        runtime MemoryPolicyModeType
        runtime PosixRlimitType
        runtime IOPriorityClass
        runtime LinuxSchedulerPolicy
        runtime LinuxSchedulerFlag
        runtime ContainerState
        runtime ZOSNamespaceType
    );
}

fn image(rt: &HostRuntime, rows: &str) {
    let count = records!(rt, rows,
        image ImageConfiguration
        image Config
        image RootFs
        image History
        image Platform
        image ImageIndex
    );
    report_count(rt, "image", count);
}

fn kernel_objects(rt: &HostRuntime, rows: &str) -> usize {
    records!(rt, rows,
        runtime Linux
        runtime LinuxIdMapping
        runtime LinuxNetDevice
        runtime LinuxNamespace
        runtime LinuxDevice
        runtime LinuxSeccomp
    )
}

fn kernel_rules(rt: &HostRuntime, rows: &str) -> usize {
    records!(rt, rows,
        runtime LinuxSyscall
        runtime LinuxSeccompArg
        runtime LinuxIntelRdt
        runtime LinuxPersonality
        runtime LinuxMemoryPolicy
        runtime LinuxTimeOffset
    )
}

fn linux(rt: &HostRuntime, rows: &str) {
    let count = kernel_objects(rt, rows).saturating_add(kernel_rules(rt, rows));
    report_count(rt, "linux", count);
}

fn limits(rt: &HostRuntime, rows: &str) -> usize {
    records!(rt, rows,
        runtime LinuxDeviceCgroup
        runtime LinuxMemory
        runtime LinuxCpu
        runtime LinuxPids
        runtime LinuxWeightDevice
        runtime LinuxThrottleDevice
    )
}

fn resources(rt: &HostRuntime, rows: &str) -> usize {
    records!(rt, rows,
        runtime LinuxBlockIo
        runtime LinuxHugepageLimit
        runtime LinuxInterfacePriority
        runtime LinuxNetwork
        runtime LinuxResources
        runtime LinuxRdma
    )
}

fn control_groups(rt: &HostRuntime, rows: &str) {
    let count = limits(rt, rows).saturating_add(resources(rt, rows));
    report_count(rt, "control groups", count);
}

fn process(rt: &HostRuntime, rows: &str) {
    let count = records!(rt, rows,
        runtime Process
        runtime Box
        runtime PosixRlimit
        runtime User
        runtime LinuxCapabilities
        runtime LinuxIOPriority
        runtime Scheduler
        runtime ExecCPUAffinity
    );
    report_count(rt, "process", count);
}

fn solaris(rt: &HostRuntime, rows: &str) -> usize {
    records!(rt, rows,
        runtime Solaris
        runtime SolarisAnet
        runtime SolarisCappedCPU
        runtime SolarisCappedMemory
    )
}

fn machines(rt: &HostRuntime, rows: &str) -> usize {
    records!(rt, rows,
        runtime VM
        runtime VMHypervisor
        runtime VMKernel
        runtime VMImage
        runtime ZOS
        runtime ZOSNamespace
    )
}

fn platforms(rt: &HostRuntime, rows: &str) {
    let count = solaris(rt, rows).saturating_add(machines(rt, rows));
    report_count(rt, "platforms", count);
}

fn windows(rt: &HostRuntime, rows: &str) {
    let count = records!(rt, rows,
        runtime Windows
        runtime WindowsDevice
        runtime WindowsResources
        runtime WindowsMemoryResources
        runtime WindowsCPUResources
        runtime WindowsStorageResources
        runtime WindowsHyperV
        runtime WindowsNetwork
    );
    report_count(rt, "windows", count);
}

fn feature_lists(rt: &HostRuntime, rows: &str) -> usize {
    records!(rt, rows,
        runtime Features
        runtime LinuxFeature
        runtime Cgroup
        runtime Seccomp
        runtime Apparmor
        runtime Selinux
    )
}

fn feature_flags(rt: &HostRuntime, rows: &str) -> usize {
    records!(rt, rows,
        runtime IntelRdt
        runtime MemoryPolicy
        runtime MountExtensions
        runtime NetDevices
        runtime IDMap
    )
}

fn features(rt: &HostRuntime, rows: &str) {
    let count = feature_lists(rt, rows).saturating_add(feature_flags(rt, rows));
    report_count(rt, "features", count);
}

fn containers(rt: &HostRuntime, rows: &str) {
    let count = records!(rt, rows,
        runtime Hooks
        runtime Hook
        runtime Root
        runtime Mount
        runtime Spec
        runtime State
        runtime ContainerProcessState
    );
    report_count(rt, "containers", count);
}

fn builders(rt: &HostRuntime, rows: &str) {
    builders!(rt, rows,
        image PlatformBuilder
        image ImageIndexBuilder
        runtime LinuxMemoryPolicyBuilder
        distribution ErrorResponseBuilder
        distribution ErrorInfoBuilder
        distribution RepositoryListBuilder
        distribution TagListBuilder
        image ArtifactManifestBuilder
        image DescriptorBuilder
        image ImageManifestBuilder
        image OciLayoutBuilder
    );
}

fn calls(rt: &HostRuntime, rows: &str) {
    let alloc = rt.alloc();
    document(
        rt,
        rows,
        "get_default_mounts",
        runtime::get_default_mounts(alloc),
    );
    document(
        rt,
        rows,
        "get_default_namespaces",
        runtime::get_default_namespaces(alloc),
    );
    document(
        rt,
        rows,
        "get_default_maskedpaths",
        runtime::get_default_maskedpaths(alloc),
    );
    document(
        rt,
        rows,
        "get_default_readonly_paths",
        runtime::get_default_readonly_paths(alloc),
    );
    document(
        rt,
        rows,
        "get_rootless_mounts",
        runtime::get_rootless_mounts(alloc),
    );
    document(
        rt,
        rows,
        "Linux::rootless",
        runtime::Linux::rootless(alloc, 1000, 1001),
    );
    document(
        rt,
        rows,
        "Spec::rootless",
        runtime::Spec::rootless(alloc, 1000, 1001),
    );
    report_count(rt, "calls", 7);
}

const PATH: &str = "saved.json";

/// Compares the text of a file with the row of a default.
fn ask_file(rt: &HostRuntime, rows: &str, name: &str) -> Result<()> {
    let text = fs::read_to_string(rt, PATH)?;
    let here = format!(in rt.alloc(); "{name} {}", text.as_str())?;
    ask(rt, "defaults", rows, here.as_str())
}

/// Compares what is saved of the documents of a container.
fn saved(rt: &HostRuntime, rows: &str) -> Result<()> {
    let alloc = rt.alloc();
    runtime::Spec::try_default(alloc)?.save(rt, alloc, PATH)?;
    ask_file(rt, rows, "Spec")?;
    runtime::State::try_default(alloc)?.save(rt, alloc, PATH)?;
    ask_file(rt, rows, "State")?;
    fs::remove_file(rt, PATH)?;
    count(rt, "defaults", "saved", 2)
}
