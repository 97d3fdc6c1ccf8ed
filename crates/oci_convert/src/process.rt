//! What a process takes over from an image (image specification, "Conversion to OCI Runtime Configuration").
ghost use Rattle.std.specs.Prelude.{◌≡◌, ◌≢◌, ◌++◌, string_bytes, IfErr, IsSomeAnd, OnOk, unwrap_or};
ghost use Rattle.oci_convert.specs.Texts.{texts_of, list_of, said};
ghost use Rattle.oci_convert.specs.Verbatim.{arguments, environment};
ghost use Rattle.oci_convert.specs.Users.{is_windows};
ghost use Rattle.oci_convert.specs.Processes.{ConvertsProcess, ProcessBy};
ghost use Rattle.oci_convert.specs.Refusals.{RefusesUserFor};
ghost use Rattle.oci_convert.specs.Refuses.{Refuses};

use crate::environment::merged;
use crate::error::ConvertError;
use crate::process_user::set_user_of;
use crate::texts::{append, has_none, said};
use oci_accounts::Accounts;
use oci_image::{Config, ImageConfiguration};
use oci_process::Process;
use oci_text::Os;
use std::alloc::{AllocError, Global};

/// Sets the arguments: `Entrypoint` and `Cmd` behind it, unless both say nothing. Fails if out of memory.
fn set_args(process: &mut Process, alloc: Global, config: &Config) -> Result<(), AllocError>
    ensures args { OnOk result (list_of process.new.args ≡ arguments (texts_of config.now.entrypoint ++ texts_of config.now.cmd) (list_of process.old.args)) }
    ensures others { OnOk result (process.new ≡ record process.old { args = process.new.args }) }
{
    let mut args = Vec::new(alloc);
    append(&mut args, config.entrypoint())?;
    append(&mut args, config.cmd())?;
    if has_none(&args) {
        return Ok(());
    }
    process.set_args(Some(args));
    Ok(())
}

/// Sets the environment: the variables that were there and that the image does not set, and then the image's entries, verbatim. An
/// image without a list leaves it as it is. Fails if out of memory.
fn set_env(process: &mut Process, alloc: Global, config: &Config) -> Result<(), AllocError>
    ensures env { OnOk result (list_of process.new.env ≡ environment (list_of config.now.env) (list_of process.old.env)) }
    ensures others { OnOk result (process.new ≡ record process.old { env = process.new.env }) }
{
    let Some(image_env) = config.env() else {
        return Ok(());
    };
    let env = merged(alloc, process.env(), image_env)?;
    process.set_env(Some(env));
    Ok(())
}

/// Sets the working directory, unless the image says none. Fails if out of memory.
fn set_cwd(process: &mut Process, alloc: Global, config: &Config) -> Result<(), AllocError>
    ensures cwd { OnOk result (string_bytes process.new.cwd ≡ unwrap_or (said config.now.working_dir) (string_bytes process.old.cwd)) }
    ensures others { OnOk result (process.new ≡ record process.old { cwd = process.new.cwd }) }
{
    let Some(cwd) = said(config.working_dir()) else {
        return Ok(());
    };
    process.set_cwd(String::from_str(alloc, cwd)?);
    Ok(())
}

/// Sets what a process takes over.
fn set_process<A: Accounts>(
    process: &mut Process,
    alloc: Global,
    os: &Os,
    config: &Config,
    accounts: &A,
) -> Result<(), ConvertError>
    ensures ok { OnOk result (ConvertsProcess (A.is_user accounts.now) (A.is_own_group accounts.now) (A.is_group accounts.now) (A.are_groups accounts.now) os.now config.now process.old process.new) }
    ensures err { IfErr result (λ e. e ≢ ConvertError.Memory → RefusesUserFor (A.is_user accounts.now) (A.is_group accounts.now) (is_windows os.now) (said config.now.user) e) }
{
    set_args(process, alloc, config)?;
    set_env(process, alloc, config)?;
    set_cwd(process, alloc, config)?;
    set_user_of(process, alloc, os, config, accounts)
}

/// Sets what the process takes over. Fails with `NoProcess` if there is none, like `resolve` for the user, or with `Memory`.
pub(crate) fn convert_process<A: Accounts>(
    process: &mut Option<Process>,
    alloc: Global,
    image: &ImageConfiguration,
    accounts: &A,
) -> Result<(), ConvertError>
    ensures ok { OnOk result (IsSomeAnd process.old (λ p. IsSomeAnd process.new (λ q. ProcessBy (A.is_user accounts.now) (A.is_own_group accounts.now) (A.is_group accounts.now) (A.are_groups accounts.now) image.now.os image.now.config p q))) }
    ensures err { IfErr result (Refuses (A.is_user accounts.now) (A.is_group accounts.now) image.now process.old) }
{
    let Some(process) = process else {
        return Err(ConvertError::NoProcess);
    };
    match image.config() {
        Some(config) => set_process(process, alloc, image.os(), config, accounts),
        None => Ok(()),
    }
}
