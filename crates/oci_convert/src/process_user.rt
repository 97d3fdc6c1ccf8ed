//! The user of a process (image specification, "Conversion to OCI Runtime Configuration", `Config.User`).
ghost use Rattle.std.specs.Prelude.{◌≡◌, ◌≢◌, Some, IfErr, OnOk, option_map};
ghost use Rattle.oci_convert.specs.Texts.{said};
ghost use Rattle.oci_convert.specs.Users.{is_windows};
ghost use Rattle.oci_convert.specs.Processes.{GroupsBy, IsPosixUser, IsUserFor};
ghost use Rattle.oci_convert.specs.Refusals.{RefusesUser, RefusesUserFor};

use crate::error::ConvertError;
use crate::texts::said;
use crate::user::{Resolved, resolve};
use oci_accounts::Accounts;
use oci_image::Config;
use oci_process::{Process, User};
use oci_text::Os;
use std::alloc::Global;

/// Sets the additional groups, where they are said.
fn set_groups(user: &mut User, gids: Option<Vec<u32>>)
    ensures groups { GroupsBy (option_map (λ v. v.items) gids) user.old.additional_gids user.new.additional_gids }
    ensures others { user.new ≡ record user.old { additional_gids = user.new.additional_gids } }
{
    if gids.is_some() {
        user.set_additional_gids(gids);
    }
}

/// Sets the IDs and the groups that a text means.
fn set_posix_user<A: Accounts>(
    user: &mut User,
    alloc: Global,
    text: &str,
    accounts: &A,
) -> Result<(), ConvertError>
    ensures ok { OnOk result (IsPosixUser (A.is_user accounts.now) (A.is_own_group accounts.now) (A.is_group accounts.now) (A.are_groups accounts.now) text.now user.old user.new) }
    ensures err { IfErr result (λ e. e ≢ ConvertError.Memory → RefusesUser (A.is_user accounts.now) (A.is_group accounts.now) text.now e) }
{
    let Resolved {
        uid,
        gid,
        additional_gids,
    } = resolve(alloc, text, accounts)?;
    user.set_uid(uid).set_gid(gid);
    set_groups(user, additional_gids);
    Ok(())
}

/// Whether users are given by name.
fn is_windows(os: &Os) -> bool
    ensures { result ≡ is_windows os.now }
{
    matches!(os, Os::Windows)
}

/// Sets the user: on Windows by name, else by IDs.
fn set_user<A: Accounts>(
    user: &mut User,
    alloc: Global,
    os: &Os,
    text: &str,
    accounts: &A,
) -> Result<(), ConvertError>
    ensures ok { OnOk result (IsUserFor (A.is_user accounts.now) (A.is_own_group accounts.now) (A.is_group accounts.now) (A.are_groups accounts.now) (is_windows os.now) (Some text.now) user.old user.new) }
    ensures err { IfErr result (λ e. e ≢ ConvertError.Memory → RefusesUserFor (A.is_user accounts.now) (A.is_group accounts.now) (is_windows os.now) (Some text.now) e) }
{
    if is_windows(os) {
        user.set_username(Some(String::from_str(alloc, text)?));
        return Ok(());
    }
    set_posix_user(user, alloc, text, accounts)
}

/// Sets the user, unless the image says none.
pub(crate) fn set_user_of<A: Accounts>(
    process: &mut Process,
    alloc: Global,
    os: &Os,
    config: &Config,
    accounts: &A,
) -> Result<(), ConvertError>
    ensures ok { OnOk result (IsUserFor (A.is_user accounts.now) (A.is_own_group accounts.now) (A.is_group accounts.now) (A.are_groups accounts.now) (is_windows os.now) (said config.now.user) process.old.user process.new.user) }
    ensures others { OnOk result (process.new ≡ record process.old { user = process.new.user }) }
    ensures err { IfErr result (λ e. e ≢ ConvertError.Memory → RefusesUserFor (A.is_user accounts.now) (A.is_group accounts.now) (is_windows os.now) (said config.now.user) e) }
{
    match said(config.user()) {
        Some(text) => set_user(process.user_mut(), alloc, os, text, accounts),
        None => Ok(()),
    }
}
