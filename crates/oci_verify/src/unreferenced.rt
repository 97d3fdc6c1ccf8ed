//! What lies in a layout, and nothing that is reached refers to it.
ghost use Rattle.std.specs.Prelude.{◌≡◌, ◌↔◌, true, None, IfOk, IsTrue, string_bytes};
ghost use Rattle.std.specs.BTreeSet.{contains_text};
ghost use Rattle.std.specs.List.{All};
ghost use Rattle.oci_verify.specs.Layouts.{ArePathsOf};

use crate::marker::fault_of_file;
use oci_findings::contents::reason_text;
use oci_findings::{FileFault, Finding, Severity};
use oci_layout::{Listed, Walk, blob_path};
use std::alloc::{AllocError, Global};
use std::collections::BTreeSet;

/// The paths of the contents that a walk reached. Fails if out of memory.
pub fn paths_of(walk: &Walk, alloc: Global) -> Result<BTreeSet<String>, AllocError>
    ensures { IfOk result (λ s. ArePathsOf walk.now.claims.items (contains_text s)) }
{
    let mut paths = BTreeSet::new(alloc);
    'each: for claim in &walk.claims {
        let path = blob_path(alloc, &claim.digest)?;
        drop(paths.insert(path)?);
    }
    Ok(paths)
}

/// Whether no folder was cut.
pub fn are_whole(listed: &[Listed]) -> bool
    ensures { IsTrue result ↔ All (λ l. l.fault ≡ None) listed.now }
{
    listed.iter().all(|one| one.fault.is_none())
}

/// Whether each name is one of these paths.
pub fn are_reached(listed: &[Listed], reached: &BTreeSet<String>) -> bool
    ensures { IsTrue result ↔ All (λ l. contains_text reached.now (string_bytes l.path) ≡ true) listed.now }
{
    'each: for place in 0..listed.len() {
        if !is_reached(&listed[place], reached) {
            return false;
        }
    }
    true
}

/// Whether a name is one of these paths.
fn is_reached(listed: &Listed, reached: &BTreeSet<String>) -> bool
    ensures { result ≡ contains_text reached.now (string_bytes listed.now.path) }
{
    reached.contains(listed.path.as_str())
}

/// A note on a name below `blobs` that is none of the paths which were reached; an error on a folder that cannot be listed. Fails if out
/// of memory.
pub fn listed_finding(
    listed: &Listed,
    reached: &BTreeSet<String>,
    alloc: Global,
) -> Result<Option<Finding<'static>>, AllocError> {
    Ok(match &listed.fault {
        Some(why) => {
            let why = reason_text(why, alloc)?;
            Some(fault_of_file(FileFault::Unlisted(why), alloc))
        }
        None if reached.contains(listed.path.as_str()) => None,
        None => Some(Finding {
            severity: Severity::Note,
            ..fault_of_file(FileFault::Unreferenced, alloc)
        }),
    })
}
