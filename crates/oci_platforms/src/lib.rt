//! What only containers of Solaris, of Windows, of z/OS and of virtual machines have.
#![tactic(auto)]

pub mod solaris;
pub mod solaris_anet;
pub mod solaris_capped_cpu;
pub mod solaris_capped_memory;
pub mod vm;
pub mod vm_hypervisor;
pub mod vm_image;
pub mod vm_kernel;
pub mod windows;
pub mod windows_cpu_resources;
pub mod windows_device;
pub mod windows_hyper_v;
pub mod windows_memory_resources;
pub mod windows_network;
pub mod windows_resources;
pub mod windows_storage_resources;
pub mod zos;
pub mod zos_namespace;

pub use oci_text::ZOSNamespaceType;
pub use solaris::{Solaris, SolarisBuilder};
pub use solaris_anet::{SolarisAnet, SolarisAnetBuilder};
pub use solaris_capped_cpu::{SolarisCappedCPU, SolarisCappedCPUBuilder};
pub use solaris_capped_memory::{SolarisCappedMemory, SolarisCappedMemoryBuilder};
pub use vm::{VM, VMBuilder};
pub use vm_hypervisor::{VMHypervisor, VMHypervisorBuilder};
pub use vm_image::{VMImage, VMImageBuilder};
pub use vm_kernel::{VMKernel, VMKernelBuilder};
pub use windows::{Windows, WindowsBuilder};
pub use windows_cpu_resources::{WindowsCPUResources, WindowsCPUResourcesBuilder};
pub use windows_device::{WindowsDevice, WindowsDeviceBuilder};
pub use windows_hyper_v::{WindowsHyperV, WindowsHyperVBuilder};
pub use windows_memory_resources::{WindowsMemoryResources, WindowsMemoryResourcesBuilder};
pub use windows_network::{WindowsNetwork, WindowsNetworkBuilder};
pub use windows_resources::{WindowsResources, WindowsResourcesBuilder};
pub use windows_storage_resources::{WindowsStorageResources, WindowsStorageResourcesBuilder};
pub use zos::{ZOS, ZOSBuilder};
pub use zos_namespace::{ZOSNamespace, ZOSNamespaceBuilder};
