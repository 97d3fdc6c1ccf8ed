//! Which entries of an archive that `docker save` wrote are refused.
ghost use Rattle.std.specs.Prelude.{◌≡◌, IfOk};
ghost use Rattle.std.specs.List.{filter};
ghost use Rattle.tar.specs.Entries.{member_of};
ghost use Rattle.tar_folder.specs.Marks.{extents};
ghost use Rattle.oci_saved.specs.Entries.{is_link_fault as is_link, is_refused as refused, leads_within as leads, refused_in};

use crate::files::is_symbolic_link;
use crate::link::target_of;
use std::alloc::{AllocError, Global};
use tar::Entry;
use tar_folder::{EntryFault, EntryFinding, Index, entry_findings, path_of_entry};

/// The entries that are refused, in their order, each with its first violation: those that tools do not unpack alike, as `entry_findings`
/// lists them, but for a symbolic link whose path no other entry has and that leads to a place within the folder. Docker wrote such links
/// for layers that are equal, and others write them for old readers. Fails if out of memory.
pub fn refused_entries(alloc: Global, index: &Index) -> Result<Vec<EntryFinding>, AllocError>
    ensures { IfOk result (λ v. v.items ≡ refused_in (extents index.now.places.items)) }
{
    let found = entry_findings(alloc, index)?;
    refused_of(alloc, index, found.as_slice())
}

/// Those of these findings that stay.
fn refused_of(
    alloc: Global,
    index: &Index,
    found: &[EntryFinding],
) -> Result<Vec<EntryFinding>, AllocError>
    ensures { IfOk result (λ v. v.items ≡ filter (refused (extents index.now.places.items)) found.now) }
{
    let mut left = Vec::new(alloc);
    'each: for finding in found {
        if is_refused(alloc, index, *finding)? {
            left.push(*finding)?;
        }
    }
    Ok(left)
}

fn is_refused(alloc: Global, index: &Index, finding: EntryFinding) -> Result<bool, AllocError>
    ensures { IfOk result (λ is. is ≡ refused (extents index.now.places.items) finding) }
{
    if !is_link_fault(finding.fault) {
        return Ok(true);
    }
    match index.places.get(finding.place) {
        Some(place) => Ok(!leads_within(alloc, &place.entry)?),
        None => Ok(true),
    }
}

fn is_link_fault(fault: EntryFault) -> bool
    ensures { result ≡ is_link fault }
{
    match fault {
        EntryFault::Link => true,
        _ => false,
    }
}

/// Whether an entry is a symbolic link that leads to a place within the folder.
fn leads_within(alloc: Global, entry: &Entry) -> Result<bool, AllocError>
    ensures { IfOk result (λ is. is ≡ leads (member_of entry.now)) }
{
    if !is_symbolic_link(entry.kind) {
        return Ok(false);
    }
    match path_of_entry(alloc, entry)? {
        Some(path) => {
            let target = target_of(alloc, path.as_str(), entry.link.as_slice())?;
            Ok(target.is_some())
        }
        None => Ok(false),
    }
}
