//! What is known of an entry.
ghost use Rattle.std.specs.Prelude.{IfOk};
ghost use Rattle.tar.specs.Entries.{member_of};
ghost use Rattle.oci_layers.specs.Decided.{AreFactsOf};

use crate::name::{Name, name_of};
use crate::tail::{Tail, tail_of};
use std::alloc::{AllocError, Global};
use tar::Entry;
use tar_folder::{normal_path, path_of_entry};

/// What is known of an entry.
#[derive(Drop)]
pub struct Facts<'e> {
    pub name: Name<'e>,
    /// Of the target of a link.
    pub link: Name<'e>,
    /// The path at which it is put, if it has one.
    pub path: Option<String>,
    pub tail: Tail,
    /// The path that a hard link leads to.
    pub target: Option<String>,
}

/// What is known of an entry. Fails if out of memory.
pub fn facts_of<'e>(alloc: Global, entry: &'e Entry) -> Result<Facts<'e>, AllocError>
    ensures { IfOk result (λ f. AreFactsOf f (member_of entry.now)) }
{
    let name = name_of(alloc, entry.name.as_slice())?;
    let link = name_of(alloc, entry.link.as_slice())?;
    let path = path_of_entry(alloc, entry)?;
    let tail = tail_of(alloc, &path)?;
    let target = normal_path(alloc, entry.link.as_slice())?;
    Ok(Facts {
        name,
        link,
        path,
        tail,
        target,
    })
}
