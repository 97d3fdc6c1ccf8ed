//! The smaller records of a container's configuration and life: its root and its mounts, with the mounts that it has by default,
//! the hooks that are run at its turns, and the state that a runtime reports; and what the configuration begins with of a container
//! that a user without privileges starts (runtime specification, "Configuration", "Runtime and Lifecycle").
#![tactic(auto)]

mod absent;
pub mod answer;
pub mod beginnings;
pub mod container_process_state;
mod defaults;
pub mod hook;
pub mod hooks;
pub mod mount;
pub mod root;
pub mod rootfs;
pub mod state;
pub mod texts;

pub use answer::Answer;
pub use beginnings::rootless_parts;
pub use container_process_state::{ContainerProcessState, ContainerProcessStateBuilder};
pub use defaults::{get_default_mounts, get_rootless_mounts};
pub use hook::{Hook, HookBuilder};
pub use hooks::{Hooks, HooksBuilder};
pub use mount::{Mount, MountBuilder};
pub use oci_text::ContainerState;
pub use root::{Root, RootBuilder};
pub use rootfs::canonicalize;
pub use state::{State, StateBuilder};
pub use texts::text_of;

/// The name of the file descriptor over which system calls are reported (runtime specification, "Linux Container Configuration",
/// "The Container Process State", `fds`).
pub const SECCOMP_FD_NAME: &str = "seccompFd";
