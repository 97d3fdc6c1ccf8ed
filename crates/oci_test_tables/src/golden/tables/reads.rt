//! The calls that read each enum from a text, and those that give a variant's number.

use crate::golden::tables::closed::{FromText, Numbered};
use oci_spec::distribution::ErrorCode;
use oci_spec::image::{Arch, DigestAlgorithm, MediaType, Os};
use oci_spec::runtime::{
    Arch as SArch, Capability, IOPriorityClass, LinuxDeviceType, LinuxNamespaceType,
    LinuxPersonalityDomain, LinuxSchedulerFlag, LinuxSchedulerPolicy, LinuxSeccompAction,
    LinuxSeccompFilterFlag, LinuxSeccompOperator, MemoryPolicyFlagType, MemoryPolicyModeType,
    PosixRlimitType, ZOSNamespaceType,
};
use std::alloc::Global;

impl FromText for LinuxDeviceType {
    fn read(_alloc: Global, text: &str) -> Option<Self> {
        LinuxDeviceType::from_str(text).ok()
    }
}

impl FromText for LinuxPersonalityDomain {
    fn read(_alloc: Global, text: &str) -> Option<Self> {
        LinuxPersonalityDomain::from_str(text).ok()
    }
}

impl FromText for MemoryPolicyModeType {
    fn read(_alloc: Global, text: &str) -> Option<Self> {
        MemoryPolicyModeType::from_str(text).ok()
    }
}

impl FromText for MemoryPolicyFlagType {
    fn read(_alloc: Global, text: &str) -> Option<Self> {
        MemoryPolicyFlagType::from_str(text).ok()
    }
}

impl FromText for LinuxSeccompAction {
    fn read(_alloc: Global, text: &str) -> Option<Self> {
        LinuxSeccompAction::from_str(text).ok()
    }
}

impl FromText for SArch {
    fn read(_alloc: Global, text: &str) -> Option<Self> {
        SArch::from_str(text).ok()
    }
}

impl FromText for LinuxSeccompOperator {
    fn read(_alloc: Global, text: &str) -> Option<Self> {
        LinuxSeccompOperator::from_str(text).ok()
    }
}

impl FromText for LinuxSeccompFilterFlag {
    fn read(_alloc: Global, text: &str) -> Option<Self> {
        LinuxSeccompFilterFlag::from_str(text).ok()
    }
}

impl FromText for PosixRlimitType {
    fn read(_alloc: Global, text: &str) -> Option<Self> {
        PosixRlimitType::from_str(text).ok()
    }
}

impl FromText for IOPriorityClass {
    fn read(_alloc: Global, text: &str) -> Option<Self> {
        IOPriorityClass::from_str(text).ok()
    }
}

impl FromText for LinuxSchedulerPolicy {
    fn read(_alloc: Global, text: &str) -> Option<Self> {
        LinuxSchedulerPolicy::from_str(text).ok()
    }
}

impl FromText for LinuxSchedulerFlag {
    fn read(_alloc: Global, text: &str) -> Option<Self> {
        LinuxSchedulerFlag::from_str(text).ok()
    }
}

impl FromText for Capability {
    fn read(_alloc: Global, text: &str) -> Option<Self> {
        Capability::from_str(text).ok()
    }
}

impl FromText for ErrorCode {
    fn read(_alloc: Global, text: &str) -> Option<Self> {
        ErrorCode::from_str(text).ok()
    }
}

impl FromText for LinuxNamespaceType {
    fn read(alloc: Global, text: &str) -> Option<Self> {
        LinuxNamespaceType::try_from(alloc, text).ok()
    }
}

impl FromText for ZOSNamespaceType {
    fn read(alloc: Global, text: &str) -> Option<Self> {
        ZOSNamespaceType::try_from(alloc, text).ok()
    }
}

impl FromText for MediaType {
    fn read(alloc: Global, text: &str) -> Option<Self> {
        MediaType::from_text(alloc, text).ok()
    }
}

impl FromText for Os {
    fn read(alloc: Global, text: &str) -> Option<Self> {
        Os::from_text(alloc, text).ok()
    }
}

impl FromText for Arch {
    fn read(alloc: Global, text: &str) -> Option<Self> {
        Arch::from_text(alloc, text).ok()
    }
}

impl FromText for DigestAlgorithm {
    fn read(alloc: Global, text: &str) -> Option<Self> {
        DigestAlgorithm::from_text(alloc, text).ok()
    }
}

impl Numbered for LinuxNamespaceType {
    fn number_of(&self) -> u32 {
        self.number()
    }
}

impl Numbered for SArch {
    fn number_of(&self) -> u32 {
        self.number()
    }
}

impl Numbered for LinuxSeccompOperator {
    fn number_of(&self) -> u32 {
        self.number()
    }
}
