//! The files of an archive that `docker save` wrote.
ghost use Rattle.std.specs.Prelude.{◌≡◌, ◌<◌, length, option_map, IfOk, IfSome};
ghost use Rattle.tar.specs.Entries.{member_of};
ghost use Rattle.tar_folder.specs.Marks.{bytes_at, extents};
ghost use Rattle.oci_layout.specs.Sound.{IsReadOf, IsTop};
ghost use Rattle.oci_saved.specs.Files.{files_at, is_saved, IsJudged, IsJudgedOf};
ghost use Rattle.oci_saved.specs.Links.{content_at, linked_at, member_at, of_link, is_symbolic_link as is_link};

use crate::link::target_of;
use oci_archive::Source;
use oci_content::Verdict;
use oci_layout::Top;
use std::alloc::{AllocError, Global};
use std::io;
use tar::{Entry, Kind};
use tar_folder::{Extent, Index};

/// Whether an archive has what `docker save` writes: `manifest.json` once, and no `oci-layout`, which marks an image layout.
pub fn is_saved_archive(index: &Index) -> bool
    ensures { result ≡ is_saved (extents index.now.places.items) }
{
    index.place_of("manifest.json").is_some() && index.place_of("oci-layout").is_none()
}

/// Where the content of the file at a path lies, or that of the file to which the symbolic link there leads, by the path from the folder in
/// which the archive is unpacked. None if no file is there, or more than one entry, or a link that leads out of the folder. A link behind a
/// link is not followed. Fails if out of memory.
pub fn extent_at(alloc: Global, index: &Index, path: &str) -> Result<Option<Extent>, AllocError>
    ensures { IfOk result (λ found. found ≡ content_at (extents index.now.places.items) path.now) }
{
    match index.extent_at(alloc, path)? {
        Some(extent) => Ok(Some(extent)),
        None => linked_at(alloc, index, path),
    }
}

/// The same of a symbolic link at the path.
fn linked_at(alloc: Global, index: &Index, path: &str) -> Result<Option<Extent>, AllocError>
    ensures { IfOk result (λ found. found ≡ linked_at (extents index.now.places.items) path.now) }
{
    match entry_at(index, path) {
        Some(entry) => extent_of_link(alloc, index, path, entry),
        None => Ok(None),
    }
}

/// The one entry at a path.
fn entry_at<'i>(index: &'i Index, path: &str) -> Option<&'i Entry>
    ensures { option_map (λ e. member_of e.now) result ≡ member_at (extents index.now.places.items) path.now }
{
    let at = index.place_of(path)?;
    match index.places.get(at) {
        Some(place) => Some(&place.entry),
        None => None,
    }
}

fn extent_of_link(
    alloc: Global,
    index: &Index,
    path: &str,
    entry: &Entry,
) -> Result<Option<Extent>, AllocError>
    ensures { IfOk result (λ found. found ≡ of_link (extents index.now.places.items) path.now (member_of entry.now)) }
{
    if !is_symbolic_link(entry.kind) {
        return Ok(None);
    }
    match target_of(alloc, path, entry.link.as_slice())? {
        Some(target) => index.extent_at(alloc, target.as_str()),
        None => Ok(None),
    }
}

/// Whether it is a symbolic link's kind.
pub fn is_symbolic_link(kind: Kind) -> bool
    ensures { result ≡ is_link kind }
{
    match kind {
        Kind::SymbolicLink => true,
        _ => false,
    }
}

/// What was found of a file beside a digest.
#[derive(Drop)]
pub enum Judged {
    /// No file is there.
    Missing,
    /// It cannot be read.
    Unreadable(io::Error),
    /// The verdict on its content.
    Content(Verdict),
}

/// The files of an archive: its index, and the bytes in which their contents lie.
pub struct Files<'a, S> {
    pub source: &'a S,
    pub index: &'a Index,
}

impl<'a, S> Drop for Files<'a, S> {
    fn drop(self) {
        let Files { source, index } = self;
    }
}

impl<'a, S: Source> Files<'a, S> {
    /// Reads the file at a path whole, unless it is larger than the limit. Fails if out of memory.
    pub fn read(
        &self,
        alloc: Global,
        path: &str,
        limit: u64,
        buffer: &mut [u8],
    ) -> Result<Top, AllocError>
        requires { 0 < length buffer.old }
        ensures { IfOk result (IsTop limit (S.steady self.now.source.now) (files_at self.now.index.now.places.items (S.bytes self.now.source.now)) path.now) }
    {
        match extent_at(alloc, self.index, path)? {
            Some(extent) => read_extent(alloc, self.source, extent, limit, buffer),
            None => Ok(Top::Missing),
        }
    }

    /// The verdict on the file at a path by the text of a digest. It is read in pieces of the buffer's length. Fails if out of memory.
    pub fn judge(
        &self,
        alloc: Global,
        path: &str,
        digest: &str,
        buffer: &mut [u8],
    ) -> Result<Judged, AllocError>
        requires { 0 < length buffer.old }
        ensures { IfOk result (IsJudged (S.steady self.now.source.now) (files_at self.now.index.now.places.items (S.bytes self.now.source.now)) path.now digest.now) }
    {
        match extent_at(alloc, self.index, path)? {
            Some(extent) => Ok(judge_extent(self.source, extent, digest, buffer)),
            None => Ok(Judged::Missing),
        }
    }
}

/// Reads what lies there, unless it is larger than the limit.
fn read_extent<S: Source>(
    alloc: Global,
    source: &S,
    extent: Extent,
    limit: u64,
    buffer: &mut [u8],
) -> Result<Top, AllocError>
    requires { 0 < length buffer.old }
    ensures { IfOk result (λ top. IfSome (S.bytes source.now) (λ bytes. IsReadOf limit (S.steady source.now) (bytes_at bytes extent) top)) }
{
    match source.part(extent.offset, extent.size) {
        Err(why) => Ok(Top::Unreadable(why)),
        Ok((mut part, _)) => read_part(alloc, source, &mut part, limit, buffer),
    }
}

/// Reads all that is left of a part, unless it is larger than the limit.
fn read_part<S: Source>(
    alloc: Global,
    source: &S,
    part: &mut S::Part,
    limit: u64,
    buffer: &mut [u8],
) -> Result<Top, AllocError>
    requires { 0 < length buffer.old }
    ensures { IfOk result (λ top. IfSome (S.Part.remaining part.old) (λ bytes. IsReadOf limit (S.steady source.now) bytes top)) }
{
    match source.read(alloc, part, limit, buffer)? {
        Err(why) => Ok(Top::Unreadable(why)),
        Ok(bytes) => {
            if bytes.len() as u64 > limit {
                Ok(Top::TooLarge)
            } else {
                Ok(Top::Bytes(bytes))
            }
        }
    }
}

/// The verdict on what lies there.
fn judge_extent<S: Source>(source: &S, extent: Extent, digest: &str, buffer: &mut [u8]) -> Judged
    requires { 0 < length buffer.old }
    ensures { IfSome (S.bytes source.now) (λ bytes. IsJudgedOf (S.steady source.now) digest.now (bytes_at bytes extent) result) }
{
    match source.part(extent.offset, extent.size) {
        Err(why) => Judged::Unreadable(why),
        Ok((mut part, size)) => match source.verify(&mut part, digest, size, buffer) {
            Ok(verdict) => Judged::Content(verdict),
            Err(why) => Judged::Unreadable(why),
        },
    }
}
