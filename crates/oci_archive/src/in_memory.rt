//! A source in memory.
ghost use Rattle.std.specs.Prelude.{◌≡◌, Some, true, take, drop, IfOk, IsOk};
ghost use Rattle.oci_content.specs.Content.{Tells};
ghost use Rattle.oci_layout.specs.Looks.{IsCut};
ghost use Rattle.oci_archive.specs.Sources.{part_of, GivesPart};

use crate::source::Source;
use oci_content::{Verdict, verify_bytes};
use std::alloc::{AllocError, Global};
use std::io;

/// Bytes in memory.
#[derive(Clone, Copy)]
pub struct InMemory<'a> {
    pub bytes: &'a [u8],
}

impl<'a> Source for InMemory<'a> {
    ghost use Rattle.std.specs.Prelude.{Some, true};

    type Part = &'a [u8];

    ghost bytes = { λ s. Some s.bytes.now };

    ghost steady = { λ _. true };

    fn part(&self, at: u64, size: u64) -> io::Result<(&'a [u8], u64)>
        ensures { GivesPart (λ part. Some part.now) true (Some self.now.bytes.now) at size result }
    {
        let part = part(self.bytes, at, size);
        Ok((part, part.len() as u64))
    }

    fn verify(
        &self,
        part: &mut &'a [u8],
        digest: &str,
        size: u64,
        _buffer: &mut [u8],
    ) -> io::Result<Verdict>
        ensures tells { IfOk result (Tells digest.now size part.old.now) }
        ensures sure { IsOk result }
    {
        Ok(verify_bytes(digest, size, *part))
    }

    fn read(
        &self,
        alloc: Global,
        part: &mut &'a [u8],
        size: u64,
        _buffer: &mut [u8],
    ) -> Result<io::Result<Vec<u8>>, AllocError>
        ensures cut { IfOk result (λ read. IfOk read (λ bytes. IsCut bytes.items part.old.now size)) }
        ensures sure { IfOk result IsOk }
    {
        Ok(Ok(Vec::from_slice(alloc, cut_off(*part, size))?))
    }
}

/// At most so many bytes from this place on.
fn part(bytes: &[u8], at: u64, size: u64) -> &[u8]
    ensures { result.now ≡ part_of bytes.now at size }
{
    front(behind(bytes, at), size)
}

/// The bytes from this place on.
fn behind(bytes: &[u8], at: u64) -> &[u8]
    ensures { result.now ≡ drop at bytes.now }
{
    if at < bytes.len() as u64 {
        &bytes[at as usize..]
    } else {
        &bytes[bytes.len()..]
    }
}

/// At most so many bytes.
fn front(bytes: &[u8], size: u64) -> &[u8]
    ensures { result.now ≡ take size bytes.now }
{
    if size < bytes.len() as u64 {
        &bytes[..size as usize]
    } else {
        bytes
    }
}

/// All the bytes, or the first of them, one more than `size`.
fn cut_off(bytes: &[u8], size: u64) -> &[u8]
    ensures { IsCut result.now bytes.now size }
{
    if bytes.len() as u64 > size {
        &bytes[..size as usize + 1]
    } else {
        bytes
    }
}
