//! An archive as an image layout.
ghost use Rattle.std.specs.Prelude.{◌≡◌, ℕ, List, Some, IfOk};
ghost use Rattle.tar_folder.specs.Folders.{file_at};
ghost use Rattle.tar_folder.specs.Marks.{extents};
ghost use Rattle.oci_layout.specs.Looks.{Gives};
ghost use Rattle.oci_archive.specs.Layouts.{tops_at};

use crate::list::list_places;
use crate::source::Source;
use oci_content::Verdict;
use oci_layout::{ImageLayout, Listed, Opened, Store, blob_path};
use oci_text::Digest;
use std::alloc::{AllocError, Global};
use std::io;
use tar_folder::{Extent, Index};

/// The image layout that an archive holds: its index, and the bytes in which its contents lie.
pub struct Packed<'a, S> {
    pub source: &'a S,
    pub index: &'a Index,
}

impl<'a, S> Drop for Packed<'a, S> {
    fn drop(self) {
        let Packed { source, index } = self;
    }
}

impl<'a, S: Source> Packed<'a, S> {
    /// What there is at a path. Fails if out of memory.
    fn open_path(&self, alloc: Global, path: &str) -> Result<Opened<S::Part>, AllocError>
        ensures { IfOk result (Gives S.Part.remaining (S.steady self.now.source.now) (tops_at self.now.index.now.places.items (S.bytes self.now.source.now)) path.now) }
    {
        let found = self.index.extent_at(alloc, path)?;
        match found {
            None => Ok(Opened::Missing),
            Some(extent) => Ok(self.opened(extent)),
        }
    }

    /// What there is at a path whose content lies there.
    fn opened(&self, extent: Extent) -> Opened<S::Part>
        ensures { (path : List ℕ) → Some extent ≡ file_at (extents self.now.index.now.places.items) path
            → Gives S.Part.remaining (S.steady self.now.source.now) (tops_at self.now.index.now.places.items (S.bytes self.now.source.now)) path result }
    {
        match self.source.part(extent.offset, extent.size) {
            Err(fault) => Opened::Unreadable(fault),
            Ok((part, size)) => Opened::Content(part, Some(size)),
        }
    }
}

impl<'a, S: Source> Store for Packed<'a, S> {
    ghost use Rattle.oci_archive.specs.Layouts.{contents_at};

    type Blob = S::Part;

    ghost contents = { λ p. contents_at p.index.now.places.items (S.bytes p.source.now) };

    ghost steady = { λ p. S.steady p.source.now };

    fn open(&self, alloc: Global, digest: &Digest) -> Result<Opened<S::Part>, AllocError> {
        let path = blob_path(alloc, digest)?;
        self.open_path(alloc, path.as_str())
    }

    fn verify(
        &self,
        blob: &mut S::Part,
        digest: &str,
        size: u64,
        buffer: &mut [u8],
    ) -> io::Result<Verdict> {
        self.source.verify(blob, digest, size, buffer)
    }

    fn read(
        &self,
        alloc: Global,
        blob: &mut S::Part,
        size: u64,
        buffer: &mut [u8],
    ) -> Result<io::Result<Vec<u8>>, AllocError> {
        self.source.read(alloc, blob, size, buffer)
    }
}

impl<'a, S: Source> ImageLayout for Packed<'a, S> {
    ghost use Rattle.oci_archive.specs.Layouts.{names_in};
    ghost use Rattle.tar_folder.specs.Marks.{extents};
    ghost use Rattle.oci_archive.specs.Layouts.{tops_at};

    ghost tops = { λ p. tops_at p.index.now.places.items (S.bytes p.source.now) };

    ghost names = { λ p. names_in (extents p.index.now.places.items) };

    fn top(&self, alloc: Global, name: &str) -> Result<Opened<S::Part>, AllocError> {
        self.open_path(alloc, name)
    }

    fn list(&self, alloc: Global) -> Result<Vec<Listed>, AllocError> {
        list_places(alloc, self.index.places.as_slice())
    }
}
