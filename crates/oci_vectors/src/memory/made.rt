//! Records that are made in code: by default, and by their builders.

use oci_spec::distribution::{
    ErrorCode, ErrorInfo, ErrorInfoBuilder, ErrorResponse, ErrorResponseBuilder, RepositoryList,
    RepositoryListBuilder, TagList, TagListBuilder,
};
use oci_spec::image::{
    Arch, ArtifactManifest, ArtifactManifestBuilder, Descriptor, DescriptorBuilder, Digest,
    ImageIndex, ImageIndexBuilder, ImageManifest, ImageManifestBuilder, MediaType, OciLayout,
    OciLayoutBuilder, Os, Platform, PlatformBuilder,
};
use oci_spec::runtime::{
    ExecCPUAffinityBuilder, LinuxIdMapping, LinuxMemoryPolicy, LinuxMemoryPolicyBuilder,
    MemoryPolicyModeType, MountBuilder, ZOSNamespaceType,
};
use oci_spec::{Result, image, runtime};
use oci_test_support::Harness;
use std::alloc::Global;

/// The default of a record, and what its builder makes of no field: one equals the other.
macro_rules! defaults {
    ($harness:expr, $module:ident: $($record:ident $builder:ident),* $(,)?) => {{
        let alloc = $harness.rt.alloc();
        $($harness.same(
            stringify!($record),
            $module::$record::try_default(alloc),
            $module::$builder::default().build(alloc),
        );)*
    }};
}

fn images(harness: &mut Harness<'_>) {
    defaults!(
        harness,
        image:
        RootFs RootFsBuilder,
        Config ConfigBuilder,
        History HistoryBuilder,
        ImageConfiguration ImageConfigurationBuilder,
    );
}

fn resources(harness: &mut Harness<'_>) {
    defaults!(
        harness,
        runtime:
        LinuxResources LinuxResourcesBuilder,
        LinuxMemory LinuxMemoryBuilder,
        LinuxCpu LinuxCpuBuilder,
        LinuxPids LinuxPidsBuilder,
        LinuxHugepageLimit LinuxHugepageLimitBuilder,
        LinuxBlockIo LinuxBlockIoBuilder,
        LinuxWeightDevice LinuxWeightDeviceBuilder,
        LinuxThrottleDevice LinuxThrottleDeviceBuilder,
        LinuxDeviceCgroup LinuxDeviceCgroupBuilder,
        LinuxNetwork LinuxNetworkBuilder,
        LinuxInterfacePriority LinuxInterfacePriorityBuilder,
        LinuxRdma LinuxRdmaBuilder,
    );
}

fn linux(harness: &mut Harness<'_>) {
    defaults!(
        harness,
        runtime:
        Linux LinuxBuilder,
        LinuxIdMapping LinuxIdMappingBuilder,
        LinuxNetDevice LinuxNetDeviceBuilder,
        LinuxNamespace LinuxNamespaceBuilder,
        LinuxDevice LinuxDeviceBuilder,
        LinuxTimeOffset LinuxTimeOffsetBuilder,
        LinuxSeccomp LinuxSeccompBuilder,
        LinuxSyscall LinuxSyscallBuilder,
        LinuxSeccompArg LinuxSeccompArgBuilder,
        LinuxIntelRdt LinuxIntelRdtBuilder,
        LinuxPersonality LinuxPersonalityBuilder,
    );
}

fn process(harness: &mut Harness<'_>) {
    defaults!(
        harness,
        runtime:
        Process ProcessBuilder,
        Box BoxBuilder,
        PosixRlimit PosixRlimitBuilder,
        User UserBuilder,
        LinuxCapabilities LinuxCapabilitiesBuilder,
        LinuxIOPriority LinuxIOPriorityBuilder,
        Scheduler SchedulerBuilder,
        ExecCPUAffinity ExecCPUAffinityBuilder,
    );
}

fn platforms(harness: &mut Harness<'_>) {
    defaults!(
        harness,
        runtime:
        Solaris SolarisBuilder,
        SolarisAnet SolarisAnetBuilder,
        SolarisCappedCPU SolarisCappedCPUBuilder,
        SolarisCappedMemory SolarisCappedMemoryBuilder,
        VM VMBuilder,
        VMHypervisor VMHypervisorBuilder,
        VMKernel VMKernelBuilder,
        VMImage VMImageBuilder,
        ZOS ZOSBuilder,
        ZOSNamespace ZOSNamespaceBuilder,
    );
}

fn windows(harness: &mut Harness<'_>) {
    defaults!(
        harness,
        runtime:
        Windows WindowsBuilder,
        WindowsDevice WindowsDeviceBuilder,
        WindowsResources WindowsResourcesBuilder,
        WindowsMemoryResources WindowsMemoryResourcesBuilder,
        WindowsCPUResources WindowsCPUResourcesBuilder,
        WindowsStorageResources WindowsStorageResourcesBuilder,
        WindowsHyperV WindowsHyperVBuilder,
        WindowsNetwork WindowsNetworkBuilder,
    );
}

fn features(harness: &mut Harness<'_>) {
    defaults!(
        harness,
        runtime:
        Features FeaturesBuilder,
        LinuxFeature LinuxFeatureBuilder,
        Cgroup CgroupBuilder,
        Seccomp SeccompBuilder,
        Apparmor ApparmorBuilder,
        Selinux SelinuxBuilder,
        IDMap IDMapBuilder,
        NetDevices NetDevicesBuilder,
        IntelRdt IntelRdtBuilder,
        MemoryPolicy MemoryPolicyBuilder,
        MountExtensions MountExtensionsBuilder,
    );
}

fn containers(harness: &mut Harness<'_>) {
    defaults!(
        harness,
        runtime:
        Spec SpecBuilder,
        Root RootBuilder,
        Mount MountBuilder,
        Hooks HooksBuilder,
        Hook HookBuilder,
        State StateBuilder,
        ContainerProcessState ContainerProcessStateBuilder,
    );
}

fn platform(alloc: Global) -> Result<Platform> {
    PlatformBuilder::default()
        .architecture(Arch::Amd64)
        .os(Os::Linux)
        .build(alloc)
}

fn index(alloc: Global) -> Result<ImageIndex> {
    ImageIndexBuilder::default()
        .schema_version(2)
        .manifests(Vec::new(alloc))
        .build(alloc)
}

fn descriptor(alloc: Global) -> Result<Descriptor> {
    DescriptorBuilder::default()
        .media_type(MediaType::EmptyJSON)
        .digest(Digest::from_str(alloc, "foo:bar")?)
        .size(2)
        .build(alloc)
}

fn manifest(alloc: Global) -> Result<ImageManifest> {
    ImageManifestBuilder::default()
        .schema_version(2)
        .config(descriptor(alloc)?)
        .layers(Vec::new(alloc))
        .build(alloc)
}

fn artifact(alloc: Global) -> Result<ArtifactManifest> {
    ArtifactManifestBuilder::default()
        .artifact_type(MediaType::EmptyJSON)
        .build(alloc)
}

fn layout(alloc: Global) -> Result<OciLayout> {
    OciLayoutBuilder::default()
        .image_layout_version(String::new(alloc))
        .build(alloc)
}

fn error(alloc: Global) -> Result<ErrorInfo> {
    ErrorInfoBuilder::default()
        .code(ErrorCode::Denied)
        .build(alloc)
}

fn reply(alloc: Global) -> Result<ErrorResponse> {
    ErrorResponseBuilder::default()
        .errors(Vec::new(alloc))
        .build(alloc)
}

fn repositories(alloc: Global) -> Result<RepositoryList> {
    RepositoryListBuilder::default()
        .repositories(Vec::new(alloc))
        .build(alloc)
}

fn tags(alloc: Global) -> Result<TagList> {
    TagListBuilder::default()
        .name(String::new(alloc))
        .tags(Vec::new(alloc))
        .build(alloc)
}

fn policy(alloc: Global) -> Result<LinuxMemoryPolicy> {
    LinuxMemoryPolicyBuilder::default()
        .mode(MemoryPolicyModeType::MpolDefault)
        .nodes(String::new(alloc))
        .flags(Vec::new(alloc))
        .build(alloc)
}

/// The records whose builders have to be given fields; of those with a default that is compared too.
fn required(harness: &mut Harness<'_>) {
    let alloc = harness.rt.alloc();
    harness.same("Platform", Platform::try_default(alloc), platform(alloc));
    harness.same("ImageIndex", ImageIndex::try_default(alloc), index(alloc));
    harness.same("Descriptor", descriptor(alloc), descriptor(alloc));
    harness.same("ImageManifest", manifest(alloc), manifest(alloc));
    harness.same("ArtifactManifest", artifact(alloc), artifact(alloc));
    harness.same("OciLayout", layout(alloc), layout(alloc));
    harness.same("ErrorInfo", error(alloc), error(alloc));
    harness.same("ErrorResponse", reply(alloc), reply(alloc));
    harness.same("RepositoryList", repositories(alloc), repositories(alloc));
    harness.same("TagList", tags(alloc), tags(alloc));
    harness.same("LinuxMemoryPolicy", policy(alloc), policy(alloc));
}

/// A text that is no CPU list.
fn affinity(alloc: Global) -> Result<String> {
    let text = String::from_str(alloc, "x")?;
    let _built = ExecCPUAffinityBuilder::default()
        .initial(text)
        .build(alloc)?;
    Ok(String::new(alloc))
}

/// Mappings on one side alone.
fn mount(alloc: Global) -> Result<String> {
    let mut mappings = Vec::new(alloc);
    mappings.push(LinuxIdMapping::try_default(alloc)?)?;
    let _built = MountBuilder::default().uid_mappings(mappings).build(alloc)?;
    Ok(String::new(alloc))
}

/// A text that is no kind of namespace.
fn namespace(alloc: Global) -> Result<String> {
    let _read = ZOSNamespaceType::try_from(alloc, "x")?;
    Ok(String::new(alloc))
}

/// Builders that refuse what they are given, and a name that is refused.
fn refused(harness: &mut Harness<'_>) {
    let alloc = harness.rt.alloc();
    harness.answer(
        "ExecCPUAffinityBuilder",
        affinity(alloc),
        Err("Invalid execCPUAffinity format: x"),
    );
    harness.answer(
        "MountBuilder",
        mount(alloc),
        Err("Mount.uidMappings and Mount.gidMappings must be specified together"),
    );
    harness.answer(
        "ZOSNamespaceType",
        namespace(alloc),
        Err("unknown z/OS namespace x, could not convert"),
    );
}

/// All records that are made in code.
pub fn all(harness: &mut Harness<'_>) {
    images(harness);
    resources(harness);
    linux(harness);
    process(harness);
    platforms(harness);
    windows(harness);
    features(harness);
    containers(harness);
    required(harness);
    refused(harness);
    harness.end("records", "made in code");
}
