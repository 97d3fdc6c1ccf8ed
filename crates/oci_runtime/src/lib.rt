//! The configuration of a container, the file `config.json` of its bundle, and the version of the runtime specification
//! (runtime specification, "Configuration").
#![tactic(auto)]

pub mod spec;
pub mod spec_builder;
pub mod versions;

pub use oci_runtime_records::{
    Answer, ContainerProcessState, ContainerProcessStateBuilder, ContainerState, Hook, HookBuilder,
    Hooks, HooksBuilder, Mount, MountBuilder, Root, RootBuilder, SECCOMP_FD_NAME, State,
    StateBuilder, get_default_mounts, get_rootless_mounts,
};
pub use spec::{Spec, bare};
pub use spec_builder::SpecBuilder;
pub use versions::{VERSION, VERSION_DEV, VERSION_MAJOR, VERSION_MINOR, VERSION_PATCH, version};
