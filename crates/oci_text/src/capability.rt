//! The capabilities of Linux (runtime specification, "Configuration", "Linux Process", `capabilities`).
ghost use Rattle.std.specs.Prelude.{◌≡◌, ◌<◌, ◌++◌, ℕ, length, false, map, IfOk, IfErr, IfSome, IfNone};
ghost use Rattle.oci_base.specs.Capabilities.{ascii_upper, cap, repeated};
ghost use Rattle.oci_base.specs.Names.{is_listed};
ghost use Rattle.oci_text.specs.BareTexts.{IsBare};
ghost use Rattle.oci_text.specs.Capability.{capability_name};
ghost use Rattle.oci_text.specs.declared.capability.Capability.{Capability};

use oci_base::UnknownName;
use oci_model::JsonName;
use std::fmt;

/// What a process may do beyond its user's rights (runtime specification, "Configuration", "Linux Process",
/// `capabilities`; capabilities(7)). `Display` and `from_str` have the bare name, as `SYS_ADMIN`. In JSON its text is
/// `CAP_SYS_ADMIN`, and is read in any case of ASCII letters and with any number of `CAP_` in front, also none.
#[derive(Clone, Copy, Debug, PartialEq, Eq, Hash)]
pub enum Capability {
    /// Turning the kernel's audit on and off, and changing its rules.
    AuditControl,
    /// Reading the audit log.
    AuditRead,
    /// Writing records to the audit log.
    AuditWrite,
    /// Keeping the system from being suspended.
    BlockSuspend,
    /// Privileged operations on BPF programs and maps.
    Bpf,
    /// Saving processes and starting them again, with their own process IDs.
    CheckpointRestore,
    /// Giving files to any user and group.
    Chown,
    /// Reading, writing and running files whatever their permissions.
    DacOverride,
    /// Reading files and searching folders whatever their permissions.
    DacReadSearch,
    /// What else only a file's owner may do.
    Fowner,
    /// Keeping the set-user-ID and set-group-ID bits of a file that is changed.
    Fsetid,
    /// Locking memory.
    IpcLock,
    /// Using System V IPC objects whatever their permissions.
    IpcOwner,
    /// Sending signals to any process.
    Kill,
    /// Taking leases on any file.
    Lease,
    /// Setting the append-only and immutable flags of files.
    LinuxImmutable,
    /// Changing the rules of mandatory access control.
    MacAdmin,
    /// Passing over mandatory access control.
    MacOverride,
    /// Making special files.
    Mknod,
    /// Network administration.
    NetAdmin,
    /// Listening on ports below 1024.
    NetBindService,
    /// Broadcasting and listening to multicasts; not used by the kernel.
    NetBroadcast,
    /// Raw and packet sockets.
    NetRaw,
    /// Watching the performance of the system.
    Perfmon,
    /// Changing groups.
    Setgid,
    /// Giving capabilities to files.
    Setfcap,
    /// Changing the sets of capabilities of a process.
    Setpcap,
    /// Changing users.
    Setuid,
    /// A range of system administration.
    SysAdmin,
    /// Rebooting, and loading a kernel to be started next.
    SysBoot,
    /// Changing the root folder and mount namespaces.
    SysChroot,
    /// Loading and unloading kernel modules.
    SysModule,
    /// Changing how processes are scheduled.
    SysNice,
    /// Turning process accounting on and off.
    SysPacct,
    /// Tracing any process.
    SysPtrace,
    /// Input and output ports, and raw access to devices.
    SysRawio,
    /// Passing over limits on resources.
    SysResource,
    /// Setting the clocks.
    SysTime,
    /// Privileged operations on terminals.
    SysTtyConfig,
    /// Privileged operations on the kernel's log.
    Syslog,
    /// Setting timers that wake the system.
    WakeAlarm,
}

/// All of them, in the order of the variants.
pub static ALL: [Capability; 41] = [
    Capability::AuditControl,
    Capability::AuditRead,
    Capability::AuditWrite,
    Capability::BlockSuspend,
    Capability::Bpf,
    Capability::CheckpointRestore,
    Capability::Chown,
    Capability::DacOverride,
    Capability::DacReadSearch,
    Capability::Fowner,
    Capability::Fsetid,
    Capability::IpcLock,
    Capability::IpcOwner,
    Capability::Kill,
    Capability::Lease,
    Capability::LinuxImmutable,
    Capability::MacAdmin,
    Capability::MacOverride,
    Capability::Mknod,
    Capability::NetAdmin,
    Capability::NetBindService,
    Capability::NetBroadcast,
    Capability::NetRaw,
    Capability::Perfmon,
    Capability::Setgid,
    Capability::Setfcap,
    Capability::Setpcap,
    Capability::Setuid,
    Capability::SysAdmin,
    Capability::SysBoot,
    Capability::SysChroot,
    Capability::SysModule,
    Capability::SysNice,
    Capability::SysPacct,
    Capability::SysPtrace,
    Capability::SysRawio,
    Capability::SysResource,
    Capability::SysTime,
    Capability::SysTtyConfig,
    Capability::Syslog,
    Capability::WakeAlarm,
];

static NAMES: [&str; 41] = [
    "AUDIT_CONTROL",
    "AUDIT_READ",
    "AUDIT_WRITE",
    "BLOCK_SUSPEND",
    "BPF",
    "CHECKPOINT_RESTORE",
    "CHOWN",
    "DAC_OVERRIDE",
    "DAC_READ_SEARCH",
    "FOWNER",
    "FSETID",
    "IPC_LOCK",
    "IPC_OWNER",
    "KILL",
    "LEASE",
    "LINUX_IMMUTABLE",
    "MAC_ADMIN",
    "MAC_OVERRIDE",
    "MKNOD",
    "NET_ADMIN",
    "NET_BIND_SERVICE",
    "NET_BROADCAST",
    "NET_RAW",
    "PERFMON",
    "SETGID",
    "SETFCAP",
    "SETPCAP",
    "SETUID",
    "SYS_ADMIN",
    "SYS_BOOT",
    "SYS_CHROOT",
    "SYS_MODULE",
    "SYS_NICE",
    "SYS_PACCT",
    "SYS_PTRACE",
    "SYS_RAWIO",
    "SYS_RESOURCE",
    "SYS_TIME",
    "SYS_TTY_CONFIG",
    "SYSLOG",
    "WAKE_ALARM",
];

static TEXTS: [&str; 41] = [
    "CAP_AUDIT_CONTROL",
    "CAP_AUDIT_READ",
    "CAP_AUDIT_WRITE",
    "CAP_BLOCK_SUSPEND",
    "CAP_BPF",
    "CAP_CHECKPOINT_RESTORE",
    "CAP_CHOWN",
    "CAP_DAC_OVERRIDE",
    "CAP_DAC_READ_SEARCH",
    "CAP_FOWNER",
    "CAP_FSETID",
    "CAP_IPC_LOCK",
    "CAP_IPC_OWNER",
    "CAP_KILL",
    "CAP_LEASE",
    "CAP_LINUX_IMMUTABLE",
    "CAP_MAC_ADMIN",
    "CAP_MAC_OVERRIDE",
    "CAP_MKNOD",
    "CAP_NET_ADMIN",
    "CAP_NET_BIND_SERVICE",
    "CAP_NET_BROADCAST",
    "CAP_NET_RAW",
    "CAP_PERFMON",
    "CAP_SETGID",
    "CAP_SETFCAP",
    "CAP_SETPCAP",
    "CAP_SETUID",
    "CAP_SYS_ADMIN",
    "CAP_SYS_BOOT",
    "CAP_SYS_CHROOT",
    "CAP_SYS_MODULE",
    "CAP_SYS_NICE",
    "CAP_SYS_PACCT",
    "CAP_SYS_PTRACE",
    "CAP_SYS_RAWIO",
    "CAP_SYS_RESOURCE",
    "CAP_SYS_TIME",
    "CAP_SYS_TTY_CONFIG",
    "CAP_SYSLOG",
    "CAP_WAKE_ALARM",
];

impl fmt::Display for Capability {
    ghost use Rattle.std.specs.Prelude.{Some};

    ghost output = { λ x. Some (capability_name x) };

    fn fmt<W: fmt::Write>(&self, f: &mut fmt::Formatter<W>) -> fmt::Result {
        f.write_str(self.name())
    }
}

impl Capability {
    /// The one with this very name.
    #[tactic(auto, using(crate::proofs::CapTexts::other_name, crate::proofs::CapTexts::no_name))]
    pub fn from_str(text: &str) -> std::result::Result<Capability, UnknownName>
        ensures ok { IfOk result (λ x. capability_name x ≡ text.now) }
        ensures err { IfErr result (λ e. (x : Capability) → ¬ (capability_name x ≡ text.now)) }
    {
        match of_any_case(&ALL, text.as_bytes()) {
            Some(x) => {
                if text == x.name() {
                    Ok(x)
                } else {
                    Err(UnknownName)
                }
            }
            None => Err(UnknownName),
        }
    }

    fn name(&self) -> &'static str
        ensures { result.now ≡ capability_name self.now }
    {
        NAMES[*self as usize]
    }
}

impl JsonName for Capability {
    ghost use Rattle.oci_base.specs.Capabilities.{CapText};
    ghost use Rattle.oci_model.specs.Variants.{listed};
    ghost use Rattle.oci_text.specs.Capability.{all_capability, capability_back, capability_same, capability_table};

    ghost table = { capability_table };

    ghost name = { capability_name };

    ghost Spells = { CapText };

    ghost spelling = { λ n. cap ++ n };

    fn from_json_name(text: &str) -> Option<Capability> {
        of_any_case(&ALL, bare(text.as_bytes()))
    }

    fn json_name(&self) -> &'static str {
        TEXTS[*self as usize]
    }

    ghost listed = { listed capability_name all_capability capability_back };

    ghost same = { capability_same };
}

/// The first of these with this name in any case.
fn of_any_case(all: &[Capability], text: &[u8]) -> Option<Capability>
    ensures some { IfSome result (λ c. map ascii_upper text.now ≡ capability_name c) }
    ensures none { IfNone result (is_listed (map capability_name all.now) (map ascii_upper text.now) ≡ false) }
{
    for capability in all {
        if text.eq_ignore_ascii_case(capability.name().as_bytes()) {
            return Some(*capability);
        }
    }
    None
}

/// Returns what follows `CAP_`, in any case, if the text begins so.
fn behind_cap(text: &[u8]) -> Option<&[u8]>
    ensures some { IfSome result (λ rest. map ascii_upper text.now ≡ cap ++ map ascii_upper rest.now) }
    ensures none { IfNone result (IsBare text.now) }
    ensures shorter { IfSome result (λ rest. length rest.now < length text.now) }
{
    if text.len() < 4 {
        return None;
    }
    if text[..4].eq_ignore_ascii_case(b"CAP_") {
        Some(&text[4..])
    } else {
        None
    }
}

/// The text without all `CAP_` in front.
fn bare(text: &[u8]) -> &[u8]
    ensures strips { (n : ℕ) × (map ascii_upper text.now ≡ repeated n cap ++ map ascii_upper result.now) }
    ensures bare { IsBare result.now }
{
    let mut rest = text;
    while let Some(behind) = behind_cap(rest) {
        rest = behind;
    }
    rest
}
