//! By which descriptors a content of an image layout was reached.
ghost use Rattle.std.specs.Prelude.{◌≡◌, ◌++◌, IfOk, string_bytes};
ghost use Rattle.std.specs.Fmt.{decimal};
ghost use Rattle.oci_findings.specs.Contents.{descriptor_pointer};

use oci_layout::{Role, Walk, blob_path};
use std::alloc::{AllocError, Global};

/// How many descriptors of a path of claims are shown, the innermost ones: a stranger's documents may nest thousands deep.
const SHOWN: usize = 32;

/// A descriptor: its file, and its JSON pointer there.
#[derive(Drop)]
pub struct Claimant {
    /// The path of the file in its layout.
    pub file: String,
    /// The pointer of the descriptor in the file.
    pub pointer: String,
}

impl Claimant {
    /// The file, `#` and the pointer.
    pub fn text(&self, alloc: Global) -> Result<String, AllocError> {
        let (file, pointer) = (self.file.as_str(), self.pointer.as_str());
        format!(in alloc; "{file}#{pointer}")
    }
}

/// The descriptors by which a content was reached first.
#[derive(Drop)]
pub struct Claims {
    /// Each is in the file to which the one before it refers; the last refers to the content.
    pub path: Vec<Claimant>,
    /// Whether the first are left out, since there are too many.
    pub is_cut: bool,
}

impl Claims {
    /// None, as of `index.json`.
    pub fn none(alloc: Global) -> Claims {
        Claims {
            path: Vec::new(alloc),
            is_cut: false,
        }
    }

    /// Those by which the content at a place of a walk was reached first, from `index.json` on. Fails if out of memory.
    pub fn of(walk: &Walk, place: usize, alloc: Global) -> Result<Claims, AllocError> {
        let mut path = Vec::new(alloc);
        let mut at = place;
        for _ in 0..SHOWN {
            let (Some(claim), Some(mention)) = (walk.claims.get(at), walk.mentions.get(at)) else {
                break;
            };
            path.push(Claimant {
                file: claiming_file(walk, mention.by, alloc)?,
                pointer: pointer_of(claim.role, mention.at, alloc)?,
            })?;
            match mention.by {
                Some(by) => at = by,
                None => {
                    path.reverse();
                    return Ok(Claims {
                        path,
                        is_cut: false,
                    });
                }
            }
        }
        path.reverse();
        Ok(Claims { path, is_cut: true })
    }

    /// The text of each, from the outermost on, behind `..` where the first are left out. Fails if out of memory.
    pub fn texts(&self, alloc: Global) -> Result<Vec<String>, AllocError> {
        let mut texts = Vec::new(alloc);
        if self.is_cut {
            texts.push(String::from_str(alloc, "..")?)?;
        }
        for claimant in &self.path {
            texts.push(claimant.text(alloc)?)?;
        }
        Ok(texts)
    }
}

/// The file of the claim at this place of a walk, or else `index.json`.
fn claiming_file(walk: &Walk, by: Option<usize>, alloc: Global) -> Result<String, AllocError> {
    match by.and_then(|at| walk.claims.get(at)) {
        Some(claim) => blob_path(alloc, &claim.digest),
        None => String::from_str(alloc, "index.json"),
    }
}

/// The JSON pointer of a descriptor in its document, by its role and its index among the document's descriptors.
pub(crate) fn pointer_of(role: Role, at: usize, alloc: Global) -> Result<String, AllocError>
    ensures { IfOk result (λ p. string_bytes p ≡ descriptor_pointer role at) }
{
    match role {
        Role::Manifest => numbered("/manifests/", at, alloc),
        Role::Config => String::from_str(alloc, "/config"),
        // the first descriptor of a manifest is its configuration
        Role::Layer => numbered("/layers/", at.saturating_sub(1), alloc),
        Role::Blob => numbered("/blobs/", at, alloc),
        Role::Subject => String::from_str(alloc, "/subject"),
    }
}

fn numbered(array: &str, index: usize, alloc: Global) -> Result<String, AllocError>
    ensures { IfOk result (λ p. string_bytes p ≡ array.now ++ decimal index) }
{
    let mut pointer = String::from_str(alloc, array)?;
    let digits = index.to_string(alloc)?;
    pointer.push_str(digits.as_str())?;
    Ok(pointer)
}
