//! A store that keeps only what verifies: an example of verdicts in use.
ghost use Rattle.std.specs.Prelude.{◌≡◌, ◌∷◌, ◌++◌, [], IfOk, OnErr};
ghost use Rattle.std.specs.List.{All};
ghost use Rattle.oci_content.specs.Content.{Tells};
ghost use Rattle.oci_layout.specs.Shelf.{IsRight};

use oci_content::{Verdict, verify};
use oci_descriptor::Descriptor;
use oci_text::Digest;
use std::alloc::{AllocError, Global};

/// A content that is kept under a digest.
#[derive(Drop)]
pub struct Content {
    pub digest: Digest,
    pub bytes: Vec<u8>,
}

/// Contents that were verified before they were kept.
#[derive(Drop)]
pub struct Shelf {
    pub contents: Vec<Content>,
}

impl Shelf {
    /// A shelf that keeps nothing.
    pub fn new(alloc: Global) -> Shelf
        ensures { result.contents.items ≡ [] }
    {
        Shelf {
            contents: Vec::new(alloc),
        }
    }

    /// Keeps a content under its descriptor's digest, if it has the size and the digest that the descriptor says; otherwise nothing
    /// is kept, and the verdict says why. Fails if out of memory; then nothing is kept.
    pub fn put(&mut self, descriptor: &Descriptor, bytes: Vec<u8>) -> Result<Verdict, AllocError>
        ensures kept { IfOk result (λ v. v ≡ Verdict.Same → self.new.contents.items ≡ self.old.contents.items ++ record { digest = descriptor.now.digest; bytes = bytes } ∷ []) }
        ensures refused { IfOk result (λ v. ¬ (v ≡ Verdict.Same) → self.new.contents.items ≡ self.old.contents.items) }
        ensures err { OnErr result (self.new.contents.items ≡ self.old.contents.items) }
        ensures tells { IfOk result (Tells descriptor.now.digest descriptor.now.size bytes.items) }
        ensures right { All IsRight self.old.contents.items → All IsRight self.new.contents.items }
    {
        match verify(descriptor, bytes.as_slice()) {
            Verdict::Same => {
                let Ok(digest) = descriptor.digest().clone() else {
                    return Err(AllocError);
                };
                self.contents.push(Content { digest, bytes })?;
                Ok(Verdict::Same)
            }
            other => Ok(other),
        }
    }
}
