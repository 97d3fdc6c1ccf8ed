//! Digests of bytes and of what a reader gives.
ghost use Rattle.std.specs.Prelude.{◌≡◌, ◌++◌, [], ℕ, ◌<◌, List, IfOk, IfSome, length};
ghost use Rattle.oci_content.specs.declared.algorithm.Algorithm.{Algorithm};
ghost use Rattle.oci_content.specs.Content.{checksum_of};
ghost use Rattle.oci_content.specs.Hashing.{Holds};

use crate::algorithm::Algorithm;
use crate::checksum::Checksum;
use sha2::{Digest, Sha256, Sha384, Sha512};
use std::io;
use std::io::{ErrorKind, Read};

/// A hasher of one of the algorithms, which takes a content piece by piece.
#[derive(Drop)]
pub enum Hasher {
    Sha256(Sha256),
    Sha384(Sha384),
    Sha512(Sha512),
}

impl Hasher {
    /// A hasher that has taken nothing.
    pub fn new(algorithm: Algorithm) -> Hasher
        ensures { Holds algorithm result [] }
    {
        match algorithm {
            Algorithm::Sha256 => Hasher::Sha256(Sha256::new()),
            Algorithm::Sha384 => Hasher::Sha384(Sha384::new()),
            Algorithm::Sha512 => Hasher::Sha512(Sha512::new()),
        }
    }

    /// Takes the next piece.
    pub fn update(&mut self, piece: &[u8])
        ensures { (a : Algorithm) (m : List ℕ) → Holds a self.old m → Holds a self.new (m ++ piece.now) }
    {
        match self {
            Hasher::Sha256(hasher) => hasher.update(piece),
            Hasher::Sha384(hasher) => hasher.update(piece),
            Hasher::Sha512(hasher) => hasher.update(piece),
        }
    }

    /// The checksum of all pieces, one after the other.
    pub fn finish(self) -> Checksum
        ensures { (a : Algorithm) (m : List ℕ) → Holds a self m → result ≡ checksum_of a m }
    {
        match self {
            Hasher::Sha256(hasher) => Checksum::Sha256(hasher.finalize()),
            Hasher::Sha384(hasher) => Checksum::Sha384(hasher.finalize()),
            Hasher::Sha512(hasher) => Checksum::Sha512(hasher.finalize()),
        }
    }
}

/// The digest of the bytes by an algorithm.
pub fn digest_of(algorithm: Algorithm, bytes: &[u8]) -> Checksum
    ensures { result ≡ checksum_of algorithm bytes.now }
{
    let mut hasher = Hasher::new(algorithm);
    hasher.update(bytes);
    hasher.finish()
}

/// The digest of all that is left to read, in pieces of the buffer's length. Fails with the reader's first error, an interrupted
/// read included.
pub fn digest_of_reader<R: Read>(
    algorithm: Algorithm,
    reader: &mut R,
    buffer: &mut [u8],
) -> io::Result<Checksum>
    requires { 0 < length buffer.old }
    ensures { IfOk result (λ sum. IfSome (R.remaining reader.old) (λ bytes. sum ≡ checksum_of algorithm bytes)) }
{
    let mut hasher = Hasher::new(algorithm);
    'pieces: for _ in 0..u64::MAX {
        let count = reader.read(buffer)?;
        if count == 0 {
            return Ok(hasher.finish());
        }
        hasher.update(&buffer[..count]);
    }
    Err(io::Error::from(ErrorKind::Other))
}
