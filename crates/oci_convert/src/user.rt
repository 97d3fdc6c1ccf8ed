//! The user that a text of `Config.User` means (image specification, "Conversion to OCI Runtime Configuration", `Config.User`).
ghost use Rattle.std.specs.Prelude.{◌≡◌, ◌≢◌, ◌==◌, ◌⊎◌, ℕ, [], ◌∷◌, ◌++◌, None, option_map, filter, not, IfOk, IfErr, OnOk};
ghost use Rattle.oci_accounts.specs.Ids.{IsDigits, IsId};
ghost use Rattle.oci_convert.specs.Users.{GroupOf, OwnGroup, UserOf, with_own, IsAlone, Resolves};
ghost use Rattle.oci_convert.specs.Refusals.{RefusesPart, RefusesGroup, RefusesUser};

use crate::error::ConvertError;
use oci_accounts::{Accounts, UserIds, id, is_digits};
use std::alloc::{AllocError, Global};

/// What a text of `Config.User` means. The additional groups are not said for a numeric user, nor where a group is given.
#[derive(Debug, Drop, PartialEq, Eq)]
pub struct Resolved {
    pub uid: u32,
    pub gid: u32,
    pub additional_gids: Option<Vec<u32>>,
}

/// The ID of a group that is given by number or by name.
fn group<A: Accounts>(text: &[u8], accounts: &A) -> Result<u32, ConvertError>
    ensures ok { IfOk result (λ gid. GroupOf (A.is_group accounts.now) text.now gid) }
    ensures err { IfErr result (RefusesGroup (A.is_group accounts.now) text.now) }
{
    if is_digits(text) {
        id(text).ok_or(ConvertError::NoId)
    } else {
        accounts.group(text).ok_or(ConvertError::UnknownGroup)
    }
}

/// The own group of a user, or 0 where the container does not have the user.
fn own_group<A: Accounts>(uid: u32, accounts: &A) -> u32
    ensures { OwnGroup (A.is_own_group accounts.now) uid result }
{
    match accounts.own_group(uid) {
        Some(gid) => gid,
        None => 0,
    }
}

/// The IDs of a user that is given by number.
fn numeric<A: Accounts>(text: &[u8], accounts: &A) -> Result<UserIds, ConvertError>
    requires { IsDigits text.now }
    ensures ok { IfOk result (λ ids. IsId text.now ids.uid × OwnGroup (A.is_own_group accounts.now) ids.uid ids.gid) }
    ensures err { IfErr result (RefusesPart (A.is_user accounts.now) text.now) }
{
    match id(text) {
        Some(uid) => Ok(UserIds {
            uid,
            gid: own_group(uid, accounts),
        }),
        None => Err(ConvertError::NoId),
    }
}

/// The IDs of a user that is given by name.
fn named<A: Accounts>(text: &[u8], accounts: &A) -> Result<UserIds, ConvertError>
    requires { ¬ IsDigits text.now }
    ensures ok { IfOk result (λ ids. A.is_user accounts.now text.now ids.uid ids.gid) }
    ensures err { IfErr result (RefusesPart (A.is_user accounts.now) text.now) }
{
    accounts.user(text).ok_or(ConvertError::UnknownUser)
}

/// The IDs of a user that is given by number or by name.
fn ids<A: Accounts>(text: &[u8], accounts: &A) -> Result<UserIds, ConvertError>
    ensures ok { IfOk result (λ ids. UserOf (A.is_user accounts.now) (A.is_own_group accounts.now) text.now ids.uid ids.gid) }
    ensures err { IfErr result (RefusesPart (A.is_user accounts.now) text.now) }
{
    if is_digits(text) {
        numeric(text, accounts)
    } else {
        named(text, accounts)
    }
}

/// Adds another group, unless it is the user's own. Fails if out of memory.
fn add_other(gids: &mut Vec<u32>, gid: u32, other: u32) -> Result<(), AllocError>
    ensures { OnOk result (gids.new.items ≡ gids.old.items ++ filter (λ g. not (g == gid)) (other ∷ [])) }
{
    if other == gid {
        return Ok(());
    }
    gids.push(other)?;
    Ok(())
}

/// The groups of a user: its own, and then the others that name it, as initgroups(3) sets them. Fails if out of memory.
fn with_own(alloc: Global, gid: u32, others: &Vec<u32>) -> Result<Vec<u32>, AllocError>
    ensures { IfOk result (λ gids. gids.items ≡ with_own gid others.now.items) }
{
    let mut gids = Vec::new(alloc);
    gids.push(gid)?;
    for other in others {
        add_other(&mut gids, gid, *other)?;
    }
    Ok(gids)
}

/// A user that is given by name, without a group.
fn member<A: Accounts>(alloc: Global, text: &[u8], accounts: &A) -> Result<Resolved, ConvertError>
    requires { ¬ IsDigits text.now }
    ensures ok { IfOk result (λ r. IsAlone (A.is_user accounts.now) (A.is_own_group accounts.now) (A.is_group accounts.now) (A.are_groups accounts.now) text.now r.uid r.gid (option_map (λ v. v.items) r.additional_gids)) }
    ensures err { IfErr result (λ e. e ≢ ConvertError.Memory → RefusesPart (A.is_user accounts.now) text.now e) }
{
    let UserIds { uid, gid } = named(text, accounts)?;
    let others = accounts.groups_of(alloc, text)?;
    let gids = with_own(alloc, gid, &others)?;
    Ok(Resolved {
        uid,
        gid,
        additional_gids: Some(gids),
    })
}

/// A user without a group.
fn alone<A: Accounts>(alloc: Global, text: &[u8], accounts: &A) -> Result<Resolved, ConvertError>
    ensures ok { IfOk result (λ r. IsAlone (A.is_user accounts.now) (A.is_own_group accounts.now) (A.is_group accounts.now) (A.are_groups accounts.now) text.now r.uid r.gid (option_map (λ v. v.items) r.additional_gids)) }
    ensures err { IfErr result (λ e. e ≢ ConvertError.Memory → RefusesPart (A.is_user accounts.now) text.now e) }
{
    if !is_digits(text) {
        return member(alloc, text, accounts);
    }
    let UserIds { uid, gid } = numeric(text, accounts)?;
    Ok(Resolved {
        uid,
        gid,
        additional_gids: None,
    })
}

/// A user and a group.
fn with_group<A: Accounts>(
    user: &[u8],
    of_group: &[u8],
    accounts: &A,
) -> Result<Resolved, ConvertError>
    ensures ok { IfOk result (λ r. (own : ℕ) × UserOf (A.is_user accounts.now) (A.is_own_group accounts.now) user.now r.uid own × GroupOf (A.is_group accounts.now) of_group.now r.gid × (r.additional_gids ≡ None)) }
    ensures err { IfErr result (λ e. RefusesPart (A.is_user accounts.now) user.now e ⊎ RefusesGroup (A.is_group accounts.now) of_group.now e) }
{
    let UserIds { uid, .. } = ids(user, accounts)?;
    let gid = group(of_group, accounts)?;
    Ok(Resolved {
        uid,
        gid,
        additional_gids: None,
    })
}

/// The user that a text of `Config.User` means: `user`, `uid`, `user:group`, `uid:gid`, `uid:group` or `user:gid`, cut at the
/// first colon. A part in ASCII digits alone is an ID and is not looked up, but for the own group of a user without a group, which
/// is 0 where the container does not have the user. The additional groups of a user by name are its own group and then the others
/// that name it. Fails with `UnknownUser`, `UnknownGroup` or `NoId`, or with `Memory`.
pub fn resolve<A: Accounts>(
    alloc: Global,
    text: &str,
    accounts: &A,
) -> Result<Resolved, ConvertError>
    ensures ok { IfOk result (λ r. Resolves (A.is_user accounts.now) (A.is_own_group accounts.now) (A.is_group accounts.now) (A.are_groups accounts.now) text.now r.uid r.gid (option_map (λ v. v.items) r.additional_gids)) }
    ensures err { IfErr result (λ e. e ≢ ConvertError.Memory → RefusesUser (A.is_user accounts.now) (A.is_group accounts.now) text.now e) }
{
    match text.split_once(':') {
        Some((user, group)) => with_group(user.as_bytes(), group.as_bytes(), accounts),
        None => alone(alloc, text.as_bytes(), accounts),
    }
}
