//! What the path of an entry says of whiteouts.
ghost use Rattle.std.specs.Prelude.{◌≡◌, Some, option_map, string_bytes, IfOk};
ghost use Rattle.tar_folder.specs.Parts.{behind};
ghost use Rattle.oci_layers.specs.Tails.{IsTailOf, behind_mark as rest_of, deleted, folder_in, name_in};

use std::alloc::{AllocError, Global};

/// What the path of an entry says of whiteouts.
#[derive(Drop)]
pub struct Tail {
    /// The path that it deletes, as a whiteout of one name.
    pub hidden: Option<String>,
    /// Its folder, as a whiteout.
    pub marked: Option<String>,
    /// Its folder, as no whiteout.
    pub plain: Option<String>,
}

/// What is known of a path, if there is one. Fails if out of memory.
pub fn tail_of(alloc: Global, path: &Option<String>) -> Result<Tail, AllocError>
    ensures { IfOk result (λ t. IsTailOf t (option_map string_bytes path.now)) }
{
    match path {
        Some(text) => tail_of_path(alloc, text.as_str()),
        None => Ok(Tail {
            hidden: None,
            marked: None,
            plain: None,
        }),
    }
}

fn tail_of_path(alloc: Global, path: &str) -> Result<Tail, AllocError>
    ensures { IfOk result (λ t. IsTailOf t (Some path.now)) }
{
    let (folder, name) = cut(path);
    match behind_mark(name) {
        Some(rest) => Ok(Tail {
            hidden: hidden_path(alloc, folder, name, rest)?,
            marked: Some(String::from_str(alloc, folder)?),
            plain: None,
        }),
        None if path.is_empty() => Ok(Tail {
            hidden: None,
            marked: None,
            plain: None,
        }),
        None => Ok(Tail {
            hidden: None,
            marked: None,
            plain: Some(String::from_str(alloc, folder)?),
        }),
    }
}

/// The path before the last slash, and the name behind it.
fn cut(path: &str) -> (&str, &str)
    ensures folder { result.0.now ≡ folder_in path.now }
    ensures name { result.1.now ≡ name_in path.now }
{
    match path.rsplit_once('/') {
        Some((folder, name)) => (folder, name),
        None => ("", path),
    }
}

/// The rest of the name of a whiteout, behind its mark.
fn behind_mark(name: &str) -> Option<&str>
    ensures { option_map (λ t. t.now) result ≡ rest_of name.now }
{
    name.strip_prefix(".wh.")
}

/// The path that a whiteout deletes, if it is that of a name.
fn hidden_path(
    alloc: Global,
    folder: &str,
    name: &str,
    rest: &str,
) -> Result<Option<String>, AllocError>
    ensures { IfOk result (λ path. option_map string_bytes path ≡ deleted folder.now name.now rest.now) }
{
    if name == ".wh..wh..opq" {
        return Ok(None);
    }
    Ok(Some(joined(alloc, folder, rest)?))
}

/// A name in a folder.
fn joined(alloc: Global, folder: &str, name: &str) -> Result<String, AllocError>
    ensures { IfOk result (λ path. string_bytes path ≡ behind folder.now name.now) }
{
    let mut path = String::from_str(alloc, folder)?;
    if !path.is_empty() {
        path.push_str("/")?;
    }
    path.push_str(name)?;
    Ok(path)
}
