//! Reads a container's specification, and prints what a policy forbids: capabilities with which a container could reach its host, a
//! `/proc` that can be written, and kinds of namespaces that it lacks. What each of these is, is defined in
//! `specs/Policy.antt` in words of the facade, and the functions have clauses that say exactly that.
ghost use Rattle.std.specs.Prelude.{◌≡◌, ◌↔◌, IfOk, IsTrue, map, string_bytes};
ghost use Rattle.oci_examples.specs.Policy.{HasCapability, HasOwn, IsIn, IsOwn, IsReadOnly, IsWritableProc, LastIsReadOnly, MayJoin, MayUse, read_only_after};

use crate::paths::cleaned;
use oci_spec::runtime::{
    Capabilities, Capability, LinuxCapabilities, LinuxNamespace, LinuxNamespaceType, Mount, Spec,
};
use oci_spec::{JsonName, Result};
use std::alloc::{AllocError, Global};
use std::rt::Files;

/// The capabilities that no container gets.
static PRIVILEGED: [Capability; 4] = [
    Capability::SysAdmin,
    Capability::SysModule,
    Capability::SysPtrace,
    Capability::SysRawio,
];

/// The kinds of namespaces that each container has for itself.
static OWN: [LinuxNamespaceType; 5] = [
    LinuxNamespaceType::Pid,
    LinuxNamespaceType::Network,
    LinuxNamespaceType::Ipc,
    LinuxNamespaceType::Uts,
    LinuxNamespaceType::Mount,
];

/// Whether a set is there and has a capability.
fn is_in(set: &Option<Capabilities>, capability: Capability) -> bool
    ensures { IsTrue result ↔ IsIn capability set.now }
{
    match set {
        Some(set) => set.contains(&capability),
        None => false,
    }
}

/// Whether one of the five sets has a capability.
fn has_capability(sets: &LinuxCapabilities, capability: Capability) -> bool
    ensures { IsTrue result ↔ HasCapability sets.now capability }
{
    is_in(sets.bounding(), capability)
        || is_in(sets.effective(), capability)
        || is_in(sets.inheritable(), capability)
        || is_in(sets.permitted(), capability)
        || is_in(sets.ambient(), capability)
}

/// Whether the container's process has a capability in one of its sets.
fn may_use(spec: &Spec, capability: Capability) -> bool
    ensures { IsTrue result ↔ MayUse spec.now capability }
{
    match spec.process() {
        Some(process) => match process.capabilities() {
            Some(sets) => has_capability(sets, capability),
            None => false,
        },
        None => false,
    }
}

/// Whether the policy lets a container join the namespace at a path.
fn may_join(path: &str) -> bool
    ensures { IsTrue result ↔ MayJoin path.now }
{
    path == "/var/run/netns/web"
}

/// Whether a namespace is of this kind, and a new one, or one that the container may join.
fn is_own(namespace: &LinuxNamespace, kind: LinuxNamespaceType) -> bool
    ensures { IsTrue result ↔ IsOwn kind namespace.now }
{
    if namespace.typ() != kind {
        return false;
    }
    match namespace.path() {
        Some(path) => may_join(path.as_str()),
        None => true,
    }
}

/// Whether the container has a namespace of this kind that counts as its own.
fn has_own(spec: &Spec, kind: LinuxNamespaceType) -> bool
    ensures { IsTrue result ↔ HasOwn kind spec.now }
{
    match spec.linux() {
        Some(linux) => match linux.namespaces() {
            Some(namespaces) => namespaces.iter().any(|namespace| is_own(namespace, kind)),
            None => false,
        },
        None => false,
    }
}

/// Whether a mount is read-only after one more option, where it was or was not before.
fn after(read_only: bool, option: &str) -> bool
    ensures { result ≡ read_only_after read_only option.now }
{
    if option == "ro" {
        true
    } else if option == "rw" {
        false
    } else {
        read_only
    }
}

/// Whether the last of `ro` and `rw` among these options is `ro`.
fn last_is_read_only(options: &Vec<String>) -> bool
    ensures { IsTrue result ↔ LastIsReadOnly (map string_bytes options.now.items) }
{
    let mut read_only = false;
    for option in options {
        read_only = after(read_only, option.as_str());
    }
    read_only
}

/// Whether a mount is read-only by its options.
fn is_read_only(mount: &Mount) -> bool
    ensures { IsTrue result ↔ IsReadOnly mount.now }
{
    match mount.options() {
        Some(options) => last_is_read_only(options),
        None => false,
    }
}

/// Whether a mount puts something at `/proc` that can be written.
fn is_writable_proc(alloc: Global, mount: &Mount) -> std::result::Result<bool, AllocError>
    ensures { IfOk result (λ answer. IsTrue answer ↔ IsWritableProc mount.now) }
{
    let destination = cleaned(alloc, mount.destination().as_str())?;
    Ok(destination.as_str() == "/proc" && !is_read_only(mount))
}

/// Prints what the policy forbids of the specification of a file.
pub fn print<R: Files + Print + AllocGlobal>(rt: &R, path: &str) -> Result<()> {
    let spec = Spec::load(rt, rt.alloc(), path)?;
    for capability in PRIVILEGED {
        if may_use(&spec, capability) {
            println!(rt; "{path}: {}", capability.json_name())?;
        }
    }
    for mount in spec.mounts().iter().flatten() {
        if is_writable_proc(rt.alloc(), mount)? {
            println!(rt; "{path}: /proc can be written")?;
        }
    }
    for kind in OWN {
        if !has_own(&spec, kind) {
            println!(rt; "{path}: no {} namespace of its own", kind.json_name())?;
        }
    }
    Ok(())
}
