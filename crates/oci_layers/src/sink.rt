//! A sink that hashes.
ghost use Rattle.std.specs.Prelude.{◌++◌};
ghost use Rattle.oci_layers.specs.Hashed.{HasHashed};

use inflate::Sink;
use oci_content::Hasher;
use std::io;

/// A sink that hashes what it takes.
#[derive(Drop)]
pub struct HashingSink {
    pub hasher: Hasher,
}

impl Sink for HashingSink {
    ghost holds = { λ s before t. HasHashed s.hasher (before ++ t) };

    fn take(&mut self, piece: &[u8]) -> io::Result<()> {
        self.hasher.update(piece);
        Ok(())
    }
}
