//! Names, taken apart.
ghost use Rattle.std.specs.Prelude.{◌≡◌, None, bytes_eq, IfOk};
ghost use Rattle.std.specs.List.{filter, last_or, list_any};
ghost use Rattle.tar_folder.specs.Parts.{texts_of};
ghost use Rattle.tar_folder.specs.Paths.{parts_of as parts, is_name as names, is_above, is_absolute as begins_at_root};
ghost use Rattle.oci_layers.specs.Names.{IsNameOf, text_in};

use std::alloc::{AllocError, Global};

/// What is known of the name of an entry, or of the target of a link.
#[derive(Drop)]
pub struct Name<'n> {
    /// Its last part but for `.` and empty ones.
    pub base: Option<&'n [u8]>,
    /// Whether it begins with a slash, or has a part `..`.
    pub leads_out: bool,
}

/// What is known of a name. Fails if out of memory.
pub fn name_of<'n>(alloc: Global, path: &'n [u8]) -> Result<Name<'n>, AllocError>
    ensures { IfOk result (λ n. IsNameOf n path.now) }
{
    let parts = parts_of(alloc, path)?;
    let base = last_name(parts.as_slice());
    let leads_out = is_absolute(path) || goes_up(parts.as_slice());
    Ok(Name { base, leads_out })
}

/// The parts between slashes.
fn parts_of<'n>(alloc: Global, path: &'n [u8]) -> Result<Vec<&'n [u8]>, AllocError>
    ensures { IfOk result (λ v. texts_of v.items ≡ parts path.now) }
{
    path.split(|b| *b == b'/').collect(alloc)
}

/// The last part that is a name.
fn last_name<'n>(parts: &[&'n [u8]]) -> Option<&'n [u8]>
    ensures { text_in result ≡ last_or None (filter names (texts_of parts.now)) }
{
    let mut last = None;
    'parts: for part in parts {
        if is_name(*part) {
            last = Some(*part);
        }
    }
    last
}

/// Whether it is not empty, and not `.`.
fn is_name(part: &[u8]) -> bool
    ensures { result ≡ names part.now }
{
    !(part.is_empty() || is_text(part, "."))
}

/// Whether one of the parts is `..`.
fn goes_up(parts: &[&[u8]]) -> bool
    ensures { result ≡ list_any is_above (texts_of parts.now) }
{
    'parts: for part in parts {
        if is_text(*part, "..") {
            return true;
        }
    }
    false
}

/// Whether a path begins with a slash.
fn is_absolute(path: &[u8]) -> bool
    ensures { result ≡ begins_at_root path.now }
{
    if path.is_empty() {
        return false;
    }
    path[0] == b'/'
}

/// Whether the bytes are those of the text.
pub fn is_text(bytes: &[u8], text: &str) -> bool
    ensures { result ≡ bytes_eq bytes.now text.now }
{
    *bytes == *text.as_bytes()
}
