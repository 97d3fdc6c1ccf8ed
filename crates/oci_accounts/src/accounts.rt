//! What a container's users and groups are asked for.
ghost use Rattle.std.specs.Prelude.{◌≡◌, ℕ, List, [], IfOk, IfSome, IsNone};

use std::alloc::{AllocError, Global};

/// The ID of a user and that of its own group.
#[derive(Clone, Copy, Debug, PartialEq, Eq)]
pub struct UserIds {
    pub uid: u32,
    pub gid: u32,
}

/// The users and groups in a container's context. A lookup cannot fail: what may fail, such as a network, is read beforehand. Names
/// are bytes, as they are in passwd(5) and group(5).
pub trait Accounts {
    /// The user of this name has this ID, and its own group that.
    ghost is_user: { Self → List ℕ → ℕ → ℕ → Type 0 };

    /// The user of this ID has that group as its own.
    ghost is_own_group: { Self → ℕ → ℕ → Type 0 };

    /// The group of this name has this ID.
    ghost is_group: { Self → List ℕ → ℕ → Type 0 };

    /// The groups that name this user as a member have these IDs.
    ghost are_groups: { Self → List ℕ → List ℕ → Type 0 };

    /// The IDs of the user of a name; `None` exactly if there is no such user.
    fn user(&self, name: &[u8]) -> Option<UserIds>
        ensures some { IfSome result (λ u. is_user self.now name.now u.uid u.gid) }
        ensures none { IsNone result → (uid gid : ℕ) → ¬ is_user self.now name.now uid gid };

    /// The own group of the user of an ID; `None` exactly if there is no such user.
    fn own_group(&self, uid: u32) -> Option<u32>
        ensures some { IfSome result (λ gid. is_own_group self.now uid gid) }
        ensures none { IsNone result → (gid : ℕ) → ¬ is_own_group self.now uid gid };

    /// The ID of the group of a name; `None` exactly if there is no such group.
    fn group(&self, name: &[u8]) -> Option<u32>
        ensures some { IfSome result (λ gid. is_group self.now name.now gid) }
        ensures none { IsNone result → (gid : ℕ) → ¬ is_group self.now name.now gid };

    /// The IDs of the groups that name a user as a member. Fails if out of memory.
    fn groups_of(&self, alloc: Global, name: &[u8]) -> Result<Vec<u32>, AllocError>
        ensures { IfOk result (λ gids. are_groups self.now name.now gids.items) };
}

/// No user and no group: only numbers can be resolved.
#[derive(Clone, Copy, Debug)]
pub struct NoAccounts;

impl Accounts for NoAccounts {
    ghost is_user = { λ _ _ _ _. ⊥ };

    ghost is_own_group = { λ _ _ _. ⊥ };

    ghost is_group = { λ _ _ _. ⊥ };

    ghost are_groups = { λ _ _ gids. gids ≡ [] };

    fn user(&self, _name: &[u8]) -> Option<UserIds> {
        None
    }

    fn own_group(&self, _uid: u32) -> Option<u32> {
        None
    }

    fn group(&self, _name: &[u8]) -> Option<u32> {
        None
    }

    fn groups_of(&self, alloc: Global, _name: &[u8]) -> Result<Vec<u32>, AllocError> {
        Ok(Vec::new(alloc))
    }
}
