//! The strings of the specifications that have a grammar or a table: digests, media types, operating systems, architectures, error codes,
//! all enums of the runtime specification, capabilities and CPU lists; and what each error says to a person.
#![tactic(auto)]

pub mod arch;
pub mod capabilities;
pub mod capability;
pub mod container_state;
pub mod cpu_list;
pub mod cpu_texts;
pub mod digest;
pub mod digest_algorithm;
pub mod error_code;
pub mod explanation;
mod fault;
pub mod io_priority_class;
pub mod laws;
pub mod linux_device_type;
pub mod linux_namespace_type;
pub mod linux_personality_domain;
pub mod linux_scheduler_flag;
pub mod linux_scheduler_policy;
pub mod linux_seccomp_action;
pub mod linux_seccomp_filter_flag;
pub mod linux_seccomp_operator;
pub mod media_type;
pub mod memory_policy_flag_type;
pub mod memory_policy_mode_type;
pub mod os;
mod place;
pub mod posix_rlimit_type;
pub mod s_arch;
mod seccomp_numbers;
pub mod sha256_digest;
pub mod zos_namespace_type;

pub use arch::Arch;
pub use capabilities::{Capabilities, Caps, default_capabilities};
pub use capability::Capability;
pub use container_state::ContainerState;
pub use cpu_list::{is_cpu_list, refused_affinity};
pub use cpu_texts::CpuTexts;
pub use digest::{Digest, is_digest};
pub use digest_algorithm::DigestAlgorithm;
pub use error_code::ErrorCode;
pub use explanation::{Explanation, explain};
pub use io_priority_class::IOPriorityClass;
pub use linux_device_type::LinuxDeviceType;
pub use linux_namespace_type::LinuxNamespaceType;
pub use linux_personality_domain::LinuxPersonalityDomain;
pub use linux_scheduler_flag::LinuxSchedulerFlag;
pub use linux_scheduler_policy::LinuxSchedulerPolicy;
pub use linux_seccomp_action::LinuxSeccompAction;
pub use linux_seccomp_filter_flag::LinuxSeccompFilterFlag;
pub use linux_seccomp_operator::LinuxSeccompOperator;
pub use media_type::{MediaType, ToDockerV2S2};
pub use memory_policy_flag_type::MemoryPolicyFlagType;
pub use memory_policy_mode_type::MemoryPolicyModeType;
pub use oci_base::{
    OciSpecError, Result, SchemaFault, SerDeError, UninitializedFieldError, UnknownName,
};
pub use oci_model::{JsonName, closed, json_name};
pub use os::Os;
pub use posix_rlimit_type::PosixRlimitType;
pub use s_arch::SArch;
pub use sha256_digest::Sha256Digest;
pub use zos_namespace_type::ZOSNamespaceType;
