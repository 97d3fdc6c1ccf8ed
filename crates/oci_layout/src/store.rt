//! Stores of contents, and image layouts.
ghost use Rattle.std.specs.Prelude.{◌≡◌, ◌<◌, true, length, IfOk, IfSome, IsOk};
ghost use Rattle.oci_content.specs.Content.{Tells};
ghost use Rattle.oci_layout.specs.Looks.{Gives, IsCut};
ghost use Rattle.oci_layout.specs.Names.{IsListing};

use oci_content::Verdict;
use oci_text::Digest;
use std::alloc::{AllocError, Global};
use std::io;
use std::io::Read;

/// What a store has under a name.
pub enum Opened<B> {
    /// Nothing.
    Missing,
    /// Something that cannot be read, or is no regular file, and why.
    Unreadable(io::Error),
    /// A reader of the content, and the content's length where the store knows it beforehand.
    Content(B, Option<u64>),
}

/// Contents by their digests.
pub trait Store {
    ghost use Rattle.std.specs.Prelude.{Bool};
    ghost use Rattle.oci_layout.specs.Looks.{Contents};

    type Blob: Read + Drop;

    // the contents by digest, where they are known
    ghost contents: { Self → Contents };

    // whether all that is kept can be read, as what is in memory, and no read fails
    ghost steady: { Self → Bool };

    /// What there is under a digest. Fails if out of memory.
    fn open(&self, alloc: Global, digest: &Digest) -> Result<Opened<Self::Blob>, AllocError>
        ensures { IfOk result (Gives Self.Blob.remaining (steady self.now) (contents self.now) digest.now) };

    /// The verdict on all that is left to read of a content, by the text of a digest and a size, read in pieces of the buffer's length.
    /// Fails where a read fails.
    fn verify(
        &self,
        blob: &mut Self::Blob,
        digest: &str,
        size: u64,
        buffer: &mut [u8],
    ) -> io::Result<Verdict>
        requires { 0 < length buffer.old }
        ensures tells { IfOk result (λ v. IfSome (Self.Blob.remaining blob.old) (λ bytes. Tells digest.now size bytes v)) }
        ensures sure { steady self.now ≡ true → IsOk result };

    /// All that is left to read of a content, or a beginning of it that is longer than `size`, read in pieces of the buffer's length; why
    /// not, where a read fails. Fails if out of memory.
    fn read(
        &self,
        alloc: Global,
        blob: &mut Self::Blob,
        size: u64,
        buffer: &mut [u8],
    ) -> Result<io::Result<Vec<u8>>, AllocError>
        requires { 0 < length buffer.old }
        ensures cut { IfOk result (λ read. IfOk read (λ bytes. IfSome (Self.Blob.remaining blob.old) (λ all. IsCut bytes.items all size))) }
        ensures sure { steady self.now ≡ true → IfOk result IsOk };
}

/// A name below `blobs`.
#[derive(Debug, Drop)]
pub struct Listed {
    /// The path in the layout; of a folder that cannot be listed, or not to its end, the folder's.
    pub path: String,
    /// The size in bytes, if it is a file.
    pub size: Option<u64>,
    /// Why it is a folder that cannot be listed to its end, if it is one.
    pub fault: Option<io::Error>,
}

/// A store that is an image layout (image specification, "Image Layout").
pub trait ImageLayout: Store {
    ghost use Rattle.std.specs.Prelude.{ℕ, List};
    ghost use Rattle.oci_layout.specs.Looks.{Contents};

    // the files beside `blobs` by name, where they are known
    ghost tops: { Self → Contents };

    // the paths of what lies below `blobs`
    ghost names: { Self → List ℕ → Type 0 };

    /// What there is under a name beside `blobs`, as `index.json`. Fails if out of memory.
    fn top(&self, alloc: Global, name: &str) -> Result<Opened<Self::Blob>, AllocError>
        ensures { IfOk result (Gives Self.Blob.remaining (Self.steady self.now) (tops self.now) name.now) };

    /// What there is below `blobs`. Fails if out of memory.
    fn list(&self, alloc: Global) -> Result<Vec<Listed>, AllocError>
        ensures { IfOk result (λ v. IsListing (Self.steady self.now) (names self.now) v.items) };
}
