//! Lines of passwd(5) and group(5).
ghost use Rattle.std.specs.Prelude.{◌≡◌, ◌↔◌, ℕ, List, IsTrue, IfSome, IsNone, [], slice_get, unwrap_or};
ghost use Rattle.std.specs.Option.{option_copied};
ghost use Rattle.oci_accounts.specs.Lines.{fields_of, begins_no_name, IsName, IsUserLine, IsGroupLine, members_in, IsMember, OwnsGroup, IsForGroup, Joins, NameAt, IdAt};

use crate::accounts::UserIds;
use crate::ids::id;

/// A user's name and IDs, as a line of passwd(5) has them.
#[derive(Clone, Copy)]
struct UserLine<'a> {
    name: &'a [u8],
    ids: UserIds,
}

/// A group's name, ID and members, as a line of group(5) has them; the members are one text, with commas between.
#[derive(Clone, Copy)]
struct GroupLine<'a> {
    name: &'a [u8],
    gid: u32,
    members: &'a [u8],
}

/// The field of this index, from 0 on.
fn field(line: &[u8], index: usize) -> Option<&[u8]>
    ensures { option_copied result ≡ slice_get (fields_of line.now) index }
{
    line.split(|b| *b == b':').nth(index)
}

/// Whether no name begins with this byte.
fn begins_no_name(b: u8) -> bool
    ensures { result ≡ begins_no_name b }
{
    matches!(b, b' ' | b'\t' | b'#' | b'+' | b'-')
}

/// Whether a text can be a name.
fn is_name(text: &[u8]) -> bool
    ensures { IsTrue result ↔ IsName text.now }
{
    match text.first() {
        Some(b) => !begins_no_name(*b),
        None => false,
    }
}

/// The name that the first field is.
fn name_of(line: &[u8]) -> Option<&[u8]>
    ensures some { IfSome result (λ name. NameAt line.now 0 name.now) }
    ensures none { IsNone result → (name : List ℕ) → ¬ NameAt line.now 0 name }
{
    field(line, 0).filter(|name| is_name(name))
}

/// The ID that the field of this index writes.
fn id_at(line: &[u8], index: usize) -> Option<u32>
    ensures some { IfSome result (λ id. IdAt line.now index id) }
    ensures none { IsNone result → (id : ℕ) → ¬ IdAt line.now index id }
{
    id(field(line, index)?)
}

/// The members of a group, in one text; nothing where that field is missing.
fn members_of(line: &[u8]) -> &[u8]
    ensures { result.now ≡ unwrap_or (slice_get (fields_of line.now) 3) [] }
{
    match field(line, 3) {
        Some(members) => members,
        None => &[],
    }
}

/// What a line of passwd(5) says; `None` for a comment, an empty line and a malformed one.
fn user_line(line: &[u8]) -> Option<UserLine<'_>>
    ensures some { IfSome result (λ u. IsUserLine line.now u.name.now u.ids.uid u.ids.gid) }
    ensures none { IsNone result → (name : List ℕ) (uid gid : ℕ) → ¬ IsUserLine line.now name uid gid }
{
    let name = name_of(line)?;
    let uid = id_at(line, 2)?;
    let gid = id_at(line, 3)?;
    let ids = UserIds { uid, gid };
    Some(UserLine { name, ids })
}

/// What a line of group(5) says; `None` for a comment, an empty line and a malformed one.
fn group_line(line: &[u8]) -> Option<GroupLine<'_>>
    ensures some { IfSome result (λ g. (rest : List (List ℕ)) × IsGroupLine line.now g.name.now g.gid rest × (g.members.now ≡ members_in rest)) }
    ensures none { IsNone result → (name : List ℕ) (gid : ℕ) (rest : List (List ℕ)) → ¬ IsGroupLine line.now name gid rest }
{
    let name = name_of(line)?;
    let gid = id_at(line, 2)?;
    let members = members_of(line);
    Some(GroupLine { name, gid, members })
}

/// Whether a name is one of those between commas.
fn is_member(members: &[u8], name: &[u8]) -> bool
    ensures { IsTrue result ↔ IsMember members.now name.now }
{
    is_name(name) && members.split(|b| *b == b',').any(|member| name == member)
}

/// The IDs of the user of this name, if the line is for that user.
pub(crate) fn user_in(line: &[u8], name: &[u8]) -> Option<UserIds>
    ensures some { IfSome result (λ u. IsUserLine line.now name.now u.uid u.gid) }
    ensures none { IsNone result → (uid gid : ℕ) → ¬ IsUserLine line.now name.now uid gid }
{
    let user = user_line(line)?;
    if user.name == name {
        Some(user.ids)
    } else {
        None
    }
}

/// The own group of the user of this ID, if the line is for that user.
pub(crate) fn own_group_in(line: &[u8], uid: u32) -> Option<u32>
    ensures some { IfSome result (λ gid. OwnsGroup uid line.now gid) }
    ensures none { IsNone result → (gid : ℕ) → ¬ OwnsGroup uid line.now gid }
{
    let user = user_line(line)?;
    if user.ids.uid == uid {
        Some(user.ids.gid)
    } else {
        None
    }
}

/// The ID of the group of this name, if the line is for that group.
pub(crate) fn group_in(line: &[u8], name: &[u8]) -> Option<u32>
    ensures some { IfSome result (λ gid. IsForGroup name.now line.now gid) }
    ensures none { IsNone result → (gid : ℕ) → ¬ IsForGroup name.now line.now gid }
{
    let group = group_line(line)?;
    if group.name == name {
        Some(group.gid)
    } else {
        None
    }
}

/// The ID of the group that the line is for, if that group has this member.
pub(crate) fn joined_in(line: &[u8], member: &[u8]) -> Option<u32>
    ensures some { IfSome result (λ gid. Joins member.now line.now gid) }
    ensures none { IsNone result → (gid : ℕ) → ¬ Joins member.now line.now gid }
{
    let group = group_line(line)?;
    if is_member(group.members, member) {
        Some(group.gid)
    } else {
        None
    }
}
