//! What lies below `blobs` in an archive.
ghost use Rattle.std.specs.Prelude.{IfOk, OnOk};
ghost use Rattle.tar.specs.Entries.{member_of};
ghost use Rattle.oci_archive.specs.Layouts.{name_of};
ghost use Rattle.oci_archive.specs.Listings.{AddsName, IsListOf};

use crate::name::name_of_entry;
use oci_layout::Listed;
use std::alloc::{AllocError, Global};
use tar::{Entry, Kind, Place};

/// The paths of all entries below `blobs` but directories, in their order. Fails if out of memory.
pub fn list_places(alloc: Global, places: &[Place]) -> Result<Vec<Listed>, AllocError>
    ensures { IfOk result (λ v. IsListOf places.now v.items) }
{
    let mut listed = Vec::new(alloc);
    'each: for at in 0..places.len() {
        add_entry(alloc, &places[at].entry, &mut listed)?;
    }
    Ok(listed)
}

/// Adds an entry, if it is below `blobs` and no directory.
fn add_entry(alloc: Global, entry: &Entry, listed: &mut Vec<Listed>) -> Result<(), AllocError>
    ensures { OnOk result (AddsName (name_of (member_of entry.now)) listed.old.items listed.new.items) }
{
    let Some(path) = name_of_entry(alloc, entry)? else {
        return Ok(());
    };
    let size = size_of(entry);
    listed.push(Listed {
        path,
        size,
        fault: None,
    })?;
    Ok(())
}

/// The size of a file.
fn size_of(entry: &Entry) -> Option<u64> {
    match entry.kind {
        Kind::File => Some(entry.size),
        _ => None,
    }
}
