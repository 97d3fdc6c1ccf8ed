//! Names below `blobs`.
ghost use Rattle.std.specs.Prelude.{◌≡◌, Some, IfOk, option_map, string_bytes};
ghost use Rattle.tar.specs.Entries.{member_of};
ghost use Rattle.oci_archive.specs.Layouts.{kept_below, name_of};

use std::alloc::{AllocError, Global};
use tar::Entry;
use tar_folder::{is_directory, path_of_entry};

/// Where an entry is put, if that is below `blobs` and it is no directory. Fails if out of memory.
pub fn name_of_entry(alloc: Global, entry: &Entry) -> Result<Option<String>, AllocError>
    ensures { IfOk result (λ path. option_map string_bytes path ≡ name_of (member_of entry.now)) }
{
    if is_directory(entry.kind) {
        return Ok(None);
    }
    match path_of_entry(alloc, entry)? {
        Some(path) => Ok(kept_below(path)),
        None => Ok(None),
    }
}

fn kept_below(path: String) -> Option<String>
    ensures { option_map string_bytes result ≡ kept_below (Some (string_bytes path)) }
{
    if path.as_bytes().starts_with(b"blobs/") {
        Some(path)
    } else {
        None
    }
}
