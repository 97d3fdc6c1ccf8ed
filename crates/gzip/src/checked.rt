//! The checksum and the length of a member's text (2.3.1, CRC32 and ISIZE).
ghost use Rattle.std.specs.Prelude.{ℕ, List, []};
ghost use Rattle.gzip.specs.Sums.{HasSums};

use crc32::Crc32;
use inflate::Sink;
use std::io;

/// A sink that keeps the checksum and the length of what it takes.
#[derive(Drop)]
pub struct Checked<S: Sink + Drop> {
    pub sink: S,
    pub crc: Crc32,
    pub length: u32,
}

impl<S: Sink + Drop> Sink for Checked<S> {
    ghost holds = { λ c before t. HasSums (S.holds c.sink []) c.crc c.length before t };

    fn take(&mut self, piece: &[u8]) -> io::Result<()> {
        self.crc.update(piece);
        let count = (piece.len() & 0xffff_ffff) as u32;
        self.length = self.length.wrapping_add(count);
        self.sink.take(piece)?;
        Ok(())
    }
}
