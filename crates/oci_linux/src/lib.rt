//! What only a Linux container has, and the parts of it (runtime specification, "Linux Container Configuration").
#![tactic(auto)]

mod defaults;
mod device_rule;
pub mod linux;
pub mod linux_device;
pub mod linux_id_mapping;
pub mod linux_intel_rdt;
pub mod linux_memory_policy;
pub mod linux_namespace;
pub mod linux_net_device;
pub mod linux_personality;
pub mod linux_seccomp;
pub mod linux_seccomp_arg;
pub mod linux_syscall;
pub mod linux_time_offset;
mod texts;

pub use defaults::{get_default_maskedpaths, get_default_namespaces, get_default_readonly_paths};
pub use device_rule::cgroup_of;
pub use linux::{Linux, LinuxBuilder};
pub use linux_device::{LinuxDevice, LinuxDeviceBuilder};
pub use linux_id_mapping::{LinuxIdMapping, LinuxIdMappingBuilder};
pub use linux_intel_rdt::{LinuxIntelRdt, LinuxIntelRdtBuilder};
pub use linux_memory_policy::{LinuxMemoryPolicy, LinuxMemoryPolicyBuilder};
pub use linux_namespace::{LinuxNamespace, LinuxNamespaceBuilder};
pub use linux_net_device::{LinuxNetDevice, LinuxNetDeviceBuilder};
pub use linux_personality::{LinuxPersonality, LinuxPersonalityBuilder};
pub use linux_seccomp::{LinuxSeccomp, LinuxSeccompBuilder};
pub use linux_seccomp_arg::{LinuxSeccompArg, LinuxSeccompArgBuilder};
pub use linux_syscall::{LinuxSyscall, LinuxSyscallBuilder};
pub use linux_time_offset::{LinuxTimeOffset, LinuxTimeOffsetBuilder};
pub use texts::texts_of;
