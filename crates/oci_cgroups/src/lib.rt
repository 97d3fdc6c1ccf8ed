//! The cgroup limits of a container: memory, CPU, tasks, devices, huge pages, the network and RDMA.
#![tactic(auto)]

mod display;
pub mod linux_block_io;
pub mod linux_cpu;
pub mod linux_device_cgroup;
pub mod linux_hugepage_limit;
pub mod linux_interface_priority;
pub mod linux_memory;
pub mod linux_network;
pub mod linux_pids;
pub mod linux_rdma;
pub mod linux_resources;
pub mod linux_throttle_device;
pub mod linux_weight_device;

pub use linux_block_io::{LinuxBlockIo, LinuxBlockIoBuilder};
pub use linux_cpu::{LinuxCpu, LinuxCpuBuilder};
pub use linux_device_cgroup::{LinuxDeviceCgroup, LinuxDeviceCgroupBuilder};
pub use linux_hugepage_limit::{LinuxHugepageLimit, LinuxHugepageLimitBuilder};
pub use linux_interface_priority::{LinuxInterfacePriority, LinuxInterfacePriorityBuilder};
pub use linux_memory::{LinuxMemory, LinuxMemoryBuilder};
pub use linux_network::{LinuxNetwork, LinuxNetworkBuilder};
pub use linux_pids::{LinuxPids, LinuxPidsBuilder};
pub use linux_rdma::{LinuxRdma, LinuxRdmaBuilder};
pub use linux_resources::{LinuxResources, LinuxResourcesBuilder};
pub use linux_throttle_device::{LinuxThrottleDevice, LinuxThrottleDeviceBuilder};
pub use linux_weight_device::{LinuxWeightDevice, LinuxWeightDeviceBuilder};
