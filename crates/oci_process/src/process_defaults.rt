//! What a default process has (runtime specification, "Configuration", "Process", "POSIX process").
ghost use Rattle.std.specs.Prelude.{◌≡◌, IfOk, IfErr};
ghost use Rattle.oci_model.specs.Types.{list_plain, text_plain};
ghost use Rattle.oci_process.specs.PosixRlimit.{posix_rlimit_plain};
ghost use Rattle.oci_process.specs.ProcessDefaults.{default_args, default_cwd, default_env, default_rlimits};

use crate::{PosixRlimit, PosixRlimitBuilder};
use oci_base::{OciSpecError, Result};
use oci_text::PosixRlimitType;
use std::alloc::Global;

/// A shell.
pub fn default_args(alloc: Global) -> Result<Vec<String>>
    ensures ok { IfOk result (λ v. list_plain text_plain v ≡ default_args) }
    ensures err { IfErr result (λ e. e ≡ OciSpecError.Memory) }
{
    let mut args = Vec::new(alloc);
    args.push(String::from_str(alloc, "sh")?)?;
    Ok(args)
}

/// The root of the container.
pub fn default_cwd(alloc: Global) -> Result<String>
    ensures ok { IfOk result (λ t. text_plain t ≡ default_cwd) }
    ensures err { IfErr result (λ e. e ≡ OciSpecError.Memory) }
{
    Ok(String::from_str(alloc, "/")?)
}

/// Where programs are found, and the kind of terminal.
pub fn default_env(alloc: Global) -> Result<Vec<String>>
    ensures ok { IfOk result (λ v. list_plain text_plain v ≡ default_env) }
    ensures err { IfErr result (λ e. e ≡ OciSpecError.Memory) }
{
    let mut env = Vec::new(alloc);
    env.push(String::from_str(
        alloc,
        "PATH=/usr/local/sbin:/usr/local/bin:/usr/sbin:/usr/bin:/sbin:/bin",
    )?)?;
    env.push(String::from_str(alloc, "TERM=xterm")?)?;
    Ok(env)
}

/// At most 1024 file descriptors.
pub fn default_rlimits(alloc: Global) -> Result<Vec<PosixRlimit>>
    ensures ok { IfOk result (λ v. list_plain posix_rlimit_plain v ≡ default_rlimits) }
    ensures err { IfErr result (λ e. e ≡ OciSpecError.Memory) }
{
    let files = PosixRlimitBuilder::default()
        .typ(PosixRlimitType::RlimitNofile)
        .hard(1024)
        .soft(1024);
    let mut limits = Vec::new(alloc);
    limits.push(files.build(alloc)?)?;
    Ok(limits)
}
