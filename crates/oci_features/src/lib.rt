//! What a runtime supports, as it reports (runtime specification, "Features Structure").
#![tactic(auto)]

pub mod apparmor;
pub mod cgroup;
pub mod features;
pub mod id_map;
pub mod intel_rdt;
pub mod linux_feature;
pub mod memory_policy;
pub mod mount_extensions;
pub mod net_devices;
pub mod seccomp;
pub mod selinux;

pub use apparmor::{Apparmor, ApparmorBuilder};
pub use cgroup::{Cgroup, CgroupBuilder};
pub use features::{Features, FeaturesBuilder};
pub use id_map::{IDMap, IDMapBuilder};
pub use intel_rdt::{IntelRdt, IntelRdtBuilder};
pub use linux_feature::{LinuxFeature, LinuxFeatureBuilder};
pub use memory_policy::{MemoryPolicy, MemoryPolicyBuilder};
pub use mount_extensions::{MountExtensions, MountExtensionsBuilder};
pub use net_devices::{NetDevices, NetDevicesBuilder};
pub use seccomp::{Seccomp, SeccompBuilder};
pub use selinux::{Selinux, SelinuxBuilder};
