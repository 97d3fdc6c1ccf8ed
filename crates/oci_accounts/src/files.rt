//! Users and groups of the texts of passwd(5) and group(5).
ghost use Rattle.std.specs.Prelude.{◌≡◌, map, IfOk, OnOk};
ghost use Rattle.oci_accounts.specs.Lines.{lines_of};
ghost use Rattle.oci_accounts.specs.Files.{AddsGroups};

use crate::accounts::{Accounts, UserIds};
use crate::lines::{group_in, joined_in, own_group_in, user_in};
use std::alloc::{AllocError, Global};

/// The users of a text of passwd(5) and the groups of a text of group(5). Of lines for one name, or for one ID, the first counts.
///
/// A line of passwd(5) is for a user if it has at least four fields between colons, the first one a name, the third and the fourth
/// one an ID; a line of group(5) is for a group if it has at least three, the first one a name, the third one an ID. A name is not
/// empty and does not begin with a space, a tab, `#`, `+` or `-`. An ID is ASCII digits for a number of at most 4294967294. All other
/// lines are skipped: comments, empty lines, entries of other databases, and malformed lines, whose missing or unreadable
/// ID is never taken as 0. A carriage return is a byte like any other, and so is one that is not UTF-8.
#[derive(Drop)]
pub struct AccountFiles<'a> {
    passwd: Vec<&'a [u8]>,
    group: Vec<&'a [u8]>,
}

/// The lines of a text. Fails if out of memory.
fn lines<'a>(alloc: Global, text: &'a [u8]) -> Result<Vec<&'a [u8]>, AllocError>
    ensures { IfOk result (λ v. map (λ line. line.now) v.items ≡ lines_of text.now) }
{
    text.split(|b| *b == b'\n').collect(alloc)
}

/// Adds the ID of the group that a line is for, if that group has this member. Fails if out of memory.
fn add_group(gids: &mut Vec<u32>, line: &[u8], member: &[u8]) -> Result<(), AllocError>
    ensures { OnOk result (AddsGroups member.now line.now gids.old.items gids.new.items) }
{
    let Some(gid) = joined_in(line, member) else {
        return Ok(());
    };
    gids.push(gid)?;
    Ok(())
}

impl<'a> AccountFiles<'a> {
    ghost use Rattle.oci_accounts.specs.Files.{passwd_of, group_of};

    /// The users and groups of the texts of two files; an empty text has none. Fails if out of memory.
    pub fn new(alloc: Global, passwd: &'a [u8], group: &'a [u8]) -> Result<Self, AllocError>
        ensures users { IfOk result (λ files. passwd_of files ≡ lines_of passwd.now) }
        ensures groups { IfOk result (λ files. group_of files ≡ lines_of group.now) }
    {
        Ok(AccountFiles {
            passwd: lines(alloc, passwd)?,
            group: lines(alloc, group)?,
        })
    }
}

impl Accounts for AccountFiles<'_> {
    ghost use Rattle.oci_accounts.specs.Files.{IsUser, IsOwnGroup, IsGroup, AreGroups, passwd_of, group_of};

    ghost is_user = { λ files name uid gid. IsUser (passwd_of files) name uid gid };

    ghost is_own_group = { λ files uid gid. IsOwnGroup (passwd_of files) uid gid };

    ghost is_group = { λ files name gid. IsGroup (group_of files) name gid };

    ghost are_groups = { λ files name gids. AreGroups name (group_of files) gids };

    fn user(&self, name: &[u8]) -> Option<UserIds> {
        for line in &self.passwd {
            if let Some(ids) = user_in(line, name) {
                return Some(ids);
            }
        }
        None
    }

    fn own_group(&self, uid: u32) -> Option<u32> {
        for line in &self.passwd {
            if let Some(gid) = own_group_in(line, uid) {
                return Some(gid);
            }
        }
        None
    }

    fn group(&self, name: &[u8]) -> Option<u32> {
        for line in &self.group {
            if let Some(gid) = group_in(line, name) {
                return Some(gid);
            }
        }
        None
    }

    fn groups_of(&self, alloc: Global, name: &[u8]) -> Result<Vec<u32>, AllocError> {
        let mut gids = Vec::new(alloc);
        for line in &self.group {
            add_group(&mut gids, line, name)?;
        }
        Ok(gids)
    }
}
