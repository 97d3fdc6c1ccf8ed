//! The enums, a line or two each.

use crate::golden::tables::closed::{
    Numbered, ask_number, closed, displayed, json, made, numbers, spelled, written,
};
use crate::golden::tables::extensible::{docker, lengths, texts};
use anyhow::Result;
use oci_model::ClosedName;
use oci_spec::distribution::{ErrorCode, ParseError};
use oci_spec::image::{Arch, DigestAlgorithm, MediaType, Os};
use oci_spec::runtime::{
    Arch as SArch, Capability, ContainerState, IOPriorityClass, LinuxDeviceType,
    LinuxNamespaceType, LinuxPersonalityDomain, LinuxSchedulerFlag, LinuxSchedulerPolicy,
    LinuxSeccompAction, LinuxSeccompFilterFlag, LinuxSeccompOperator, MemoryPolicyFlagType,
    MemoryPolicyModeType, PosixRlimitType, ZOSNamespaceType,
};
use oci_test_support::rows::{ask, count_variants, read, report};
use oci_text::capability;

/// Those of the Linux part but seccomp's.
pub fn linux(rt: &HostRuntime) {
    closed::<LinuxNamespaceType>(rt, "LinuxNamespaceType");
    both_numbers::<LinuxNamespaceType>(rt, "LinuxNamespaceType");
    report(rt, "LinuxDeviceType", device_types(rt));
    closed::<LinuxPersonalityDomain>(rt, "LinuxPersonalityDomain");
    closed::<MemoryPolicyModeType>(rt, "MemoryPolicyModeType");
    closed::<MemoryPolicyFlagType>(rt, "MemoryPolicyFlagType");
}

// `as_str`, in place of a Display
fn device_types(rt: &HostRuntime) -> Result<()> {
    json(rt, "LinuxDeviceType", LinuxDeviceType::all())?;
    let rows = read(rt, "LinuxDeviceType")?;
    for x in LinuxDeviceType::all() {
        let text = x.as_str();
        let here = format!(in rt.alloc(); "display {x:?} {text}")?;
        ask(rt, "LinuxDeviceType", rows.as_str(), here.as_str())?;
    }
    let count = LinuxDeviceType::all().len();
    count_variants(rt, "LinuxDeviceType", "display", count)?;
    made::<LinuxDeviceType>(rt, "LinuxDeviceType", "from_str")
}

/// Compares each variant's number with the crate's and with the kernel's.
fn both_numbers<T: Numbered + 'static>(rt: &HostRuntime, table: &str) {
    report(rt, table, numbers::<T>(rt, table, "number"));
    report(rt, table, numbers::<T>(rt, table, "kernel"));
}

/// Those of seccomp.
pub fn seccomp(rt: &HostRuntime) {
    closed::<LinuxSeccompAction>(rt, "LinuxSeccompAction");
    report(rt, "LinuxSeccompAction", actions(rt));
    closed::<SArch>(rt, "SArch");
    both_numbers::<SArch>(rt, "SArch");
    closed::<LinuxSeccompOperator>(rt, "LinuxSeccompOperator");
    both_numbers::<LinuxSeccompOperator>(rt, "LinuxSeccompOperator");
    closed::<LinuxSeccompFilterFlag>(rt, "LinuxSeccompFilterFlag");
}

fn actions(rt: &HostRuntime) -> Result<()> {
    let (table, all) = ("LinuxSeccompAction", LinuxSeccompAction::all());
    let rows = read(rt, table)?;
    let rows = rows.as_str();
    for x in all {
        ask_number(rt, table, rows, "number", x, u32::from(*x))?;
        ask_number(rt, table, rows, "as_u32", x, x.as_u32(Some(42)))?;
        ask_number(rt, table, rows, "kernel", x, x.as_u32(Some(0)))?;
    }
    for kind in ["number", "as_u32", "kernel"] {
        count_variants(rt, table, kind, all.len())?;
    }
    Ok(())
}

/// Those of a process but capabilities.
pub fn process(rt: &HostRuntime) {
    closed::<PosixRlimitType>(rt, "PosixRlimitType");
    closed::<IOPriorityClass>(rt, "IOPriorityClass");
    closed::<LinuxSchedulerPolicy>(rt, "LinuxSchedulerPolicy");
    closed::<LinuxSchedulerFlag>(rt, "LinuxSchedulerFlag");
}

/// Capabilities, which JSON texts spell in more ways than one.
pub fn capabilities(rt: &HostRuntime) -> Result<()> {
    json(rt, "Capability", &capability::ALL)?;
    spelled::<Capability>(rt, "Capability", "from_json")?;
    displayed(rt, "Capability", &capability::ALL)?;
    made::<Capability>(rt, "Capability", "from_str")?;
    written(rt, "Capability", "header", &capability::ALL)
}

/// What is wrong with a reference, as the original crate has it: all but `Memory`.
static PARSE_ERRORS: [ParseError; 8] = [
    ParseError::DigestInvalidFormat,
    ParseError::DigestInvalidLength,
    ParseError::DigestUnsupported,
    ParseError::NameContainsUppercase,
    ParseError::NameEmpty,
    ParseError::NameTooLong,
    ParseError::ReferenceInvalidFormat,
    ParseError::TagInvalidFormat,
];

/// Those of z/OS, of states and of a registry's errors.
pub fn others(rt: &HostRuntime) {
    closed::<ZOSNamespaceType>(rt, "ZOSNamespaceType");
    report(rt, "ContainerState", states(rt));
    closed::<ErrorCode>(rt, "ErrorCode");
    report(rt, "ParseError", displayed(rt, "ParseError", &PARSE_ERRORS));
}

fn states(rt: &HostRuntime) -> Result<()> {
    json(rt, "ContainerState", ContainerState::all())?;
    displayed(rt, "ContainerState", ContainerState::all())
}

/// Those that have other texts too.
pub fn extensible(rt: &HostRuntime) -> Result<()> {
    texts::<MediaType>(rt, "MediaType")?;
    docker(rt)?;
    texts::<Os>(rt, "Os")?;
    texts::<Arch>(rt, "Arch")?;
    texts::<DigestAlgorithm>(rt, "DigestAlgorithm")?;
    lengths(rt)
}
