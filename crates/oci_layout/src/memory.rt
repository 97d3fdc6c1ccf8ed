//! A store in memory.
ghost use Rattle.std.specs.Prelude.{◌≡◌, Some, true, option_map, IfOk, IfSome, OnOk, IsOk};
ghost use Rattle.oci_content.specs.Content.{Tells};
ghost use Rattle.oci_layout.specs.Looks.{Gives, IsCut, IsReadable};
ghost use Rattle.oci_layout.specs.Memory.{content_of};
ghost use Rattle.oci_layout.specs.Names.{AddsName, IsKeptAt, IsListing};

use crate::path::blob_path;
use crate::store::{ImageLayout, Listed, Opened, Store};
use oci_content::{Verdict, verify_bytes};
use oci_text::{Digest, is_digest};
use std::alloc::{AllocError, Global};
use std::io;

/// A content and the name under which it is kept: the text of a digest, which need not be its own, or the name of a file beside
/// `blobs`.
#[derive(Clone, Copy)]
pub struct Kept<'a> {
    pub name: &'a str,
    pub bytes: &'a [u8],
}

/// A store of contents in memory, in which the first content of a name is given.
#[derive(Clone, Copy)]
pub struct Memory<'a> {
    pub kept: &'a [Kept<'a>],
}

/// The content that is kept under a name.
pub fn find<'a>(kept: &'a [Kept<'a>], name: &str) -> Option<&'a [u8]>
    ensures { option_map (λ b. b.now) result ≡ content_of kept.now name.now }
{
    'kept: for one in kept {
        if one.name == name {
            return Some(one.bytes);
        }
    }
    None
}

impl<'a> Store for Memory<'a> {
    ghost use Rattle.std.specs.Prelude.{Some, true};

    type Blob = &'a [u8];

    ghost contents = { λ s. Some (content_of s.kept.now) };

    ghost steady = { λ _. true };

    fn open(&self, _alloc: Global, digest: &Digest) -> Result<Opened<&'a [u8]>, AllocError>
        ensures gives { IfOk result (Gives (λ blob. Some blob.now) true (Some (content_of self.now.kept.now)) digest.now) }
        ensures readable { IfOk result IsReadable }
    {
        match find(self.kept, digest.as_ref()) {
            Some(bytes) => Ok(Opened::Content(bytes, Some(bytes.len() as u64))),
            None => Ok(Opened::Missing),
        }
    }

    fn verify(
        &self,
        blob: &mut &'a [u8],
        digest: &str,
        size: u64,
        _buffer: &mut [u8],
    ) -> io::Result<Verdict>
        ensures tells { IfOk result (Tells digest.now size blob.old.now) }
        ensures sure { IsOk result }
    {
        Ok(verify_bytes(digest, size, *blob))
    }

    fn read(
        &self,
        alloc: Global,
        blob: &mut &'a [u8],
        size: u64,
        _buffer: &mut [u8],
    ) -> Result<io::Result<Vec<u8>>, AllocError>
        ensures cut { IfOk result (λ read. IfOk read (λ bytes. IsCut bytes.items blob.old.now size)) }
        ensures sure { IfOk result IsOk }
    {
        Ok(Ok(Vec::from_slice(alloc, cut_off(*blob, size))?))
    }
}

/// All the bytes, or the first of them, one more than `size`.
fn cut_off(bytes: &[u8], size: u64) -> &[u8]
    ensures { IsCut result.now bytes.now size }
{
    if bytes.len() as u64 > size {
        &bytes[..size as usize + 1]
    } else {
        bytes
    }
}

impl<'a> ImageLayout for Memory<'a> {
    ghost use Rattle.std.specs.Prelude.{Some};
    ghost use Rattle.oci_layout.specs.Names.{IsKeptAt};

    ghost tops = { λ s. Some (content_of s.kept.now) };

    ghost names = { λ s. IsKeptAt s.kept.now };

    fn top(&self, _alloc: Global, name: &str) -> Result<Opened<&'a [u8]>, AllocError>
        ensures gives { IfOk result (Gives (λ blob. Some blob.now) true (Some (content_of self.now.kept.now)) name.now) }
        ensures readable { IfOk result IsReadable }
    {
        match find(self.kept, name) {
            Some(bytes) => Ok(Opened::Content(bytes, Some(bytes.len() as u64))),
            None => Ok(Opened::Missing),
        }
    }

    fn list(&self, alloc: Global) -> Result<Vec<Listed>, AllocError> {
        list_kept(self.kept, alloc)
    }
}

/// The paths of what is kept under digests.
fn list_kept(kept: &[Kept<'_>], alloc: Global) -> Result<Vec<Listed>, AllocError>
    ensures { IfOk result (λ v. IsListing true (IsKeptAt kept.now) v.items) }
{
    let mut listed = Vec::new(alloc);
    'each: for place in 0..kept.len() {
        add_listed(&kept[place], &mut listed, alloc)?;
    }
    Ok(listed)
}

/// Adds the path of a content, if it is kept under a digest.
fn add_listed(kept: &Kept<'_>, listed: &mut Vec<Listed>, alloc: Global) -> Result<(), AllocError>
    ensures { OnOk result (AddsName kept.now.name.now listed.old.items listed.new.items) }
{
    if !is_digest(kept.name) {
        return Ok(());
    }
    let Ok(digest) = Digest::from_str(alloc, kept.name) else {
        return Err(AllocError);
    };
    let path = blob_path(alloc, &digest)?;
    let size = Some(kept.bytes.len() as u64);
    listed.push(Listed {
        path,
        size,
        fault: None,
    })?;
    Ok(())
}
