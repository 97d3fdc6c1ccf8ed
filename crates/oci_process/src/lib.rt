//! The process of a container, and what it runs with (runtime specification, "Configuration", "Process").
#![tactic(auto)]

pub mod console_box;
pub mod exec_cpu_affinity;
pub mod linux_capabilities;
pub mod linux_io_priority;
pub mod posix_rlimit;
pub mod process;
mod process_defaults;
pub mod scheduler;
pub mod user;

pub use console_box::{Box, BoxBuilder};
pub use exec_cpu_affinity::{ExecCPUAffinity, ExecCPUAffinityBuilder};
pub use linux_capabilities::{LinuxCapabilities, LinuxCapabilitiesBuilder};
pub use linux_io_priority::{LinuxIOPriority, LinuxIOPriorityBuilder};
pub use oci_text::{
    Capabilities, Capability, IOPriorityClass, LinuxSchedulerFlag, LinuxSchedulerPolicy,
    PosixRlimitType, is_cpu_list,
};
pub use posix_rlimit::{PosixRlimit, PosixRlimitBuilder};
pub use process::{Process, ProcessBuilder};
pub use scheduler::{Scheduler, SchedulerBuilder};
pub use user::{User, UserBuilder};
