//! A file as a source. What it holds no contract can say.
ghost use Rattle.std.specs.Prelude.{None, false};

use crate::source::Source;
use oci_content::{Verdict, verify_reader_bytes};
use oci_layout::pieces::read_sized;
use std::alloc::{AllocError, Global};
use std::io;
use std::io::Read;
use std::os::unix::fs::FileExt;

/// An open file. It is read at offsets, so its position is left where it is, and it may have no name any more.
#[derive(Clone, Copy)]
pub struct OnDisk<'a, F> {
    pub file: &'a F,
}

/// A part of a file: so many bytes from an offset on, as far as the file has them.
#[derive(Drop)]
pub struct Part<'a, F> {
    file: &'a F,
    offset: u64,
    left: u64,
}

impl<'a, F: FileExt> Read for Part<'a, F> {
    fn read(&mut self, buf: &mut [u8]) -> io::Result<usize> {
        let most = (buf.len() as u64).min(self.left) as usize;
        let count = self.file.read_at(&mut buf[..most], self.offset)?;
        self.offset = self.offset.saturating_add(count as u64);
        self.left = self.left.saturating_sub(count as u64);
        Ok(count)
    }
}

impl<'a, F: FileExt> Source for OnDisk<'a, F> {
    ghost use Rattle.std.specs.Prelude.{None, false};

    type Part = Part<'a, F>;

    ghost bytes = { λ _. None };

    ghost steady = { λ _. false };

    fn part(&self, at: u64, size: u64) -> io::Result<(Part<'a, F>, u64)> {
        let part = Part {
            file: self.file,
            offset: at,
            left: size,
        };
        Ok((part, size))
    }

    fn verify(
        &self,
        part: &mut Part<'a, F>,
        digest: &str,
        size: u64,
        buffer: &mut [u8],
    ) -> io::Result<Verdict> {
        verify_reader_bytes(digest, size, part, buffer)
    }

    fn read(
        &self,
        alloc: Global,
        part: &mut Part<'a, F>,
        size: u64,
        buffer: &mut [u8],
    ) -> Result<io::Result<Vec<u8>>, AllocError> {
        read_sized(alloc, part, size, buffer)
    }
}
