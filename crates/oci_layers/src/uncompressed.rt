//! The checksum of a layer's archive.
ghost use Rattle.std.specs.Io.KnownBytes.{prepend_known, IsAtEnd};
ghost use Rattle.std.specs.Prelude.{◌≡◌, ◌↔◌, ◌<◌, ◌≤◌, ℕ, List, length, false, Some, Err, IfOk, IfErr, IfSome, IsSomeAnd};
ghost use Rattle.deflate.specs.Bits.{AreBelow};
ghost use Rattle.gzip.specs.Gzip.{IsGzip};
ghost use Rattle.oci_content.specs.Content.{checksum_of};
ghost use Rattle.oci_layers.specs.Encodings.{IsUncompressed, encoding_at_front, is_decoded};
ghost use Rattle.oci_layers.specs.Errors.{IsNotGzip, IsOutside};
ghost use Rattle.oci_layers.specs.declared.encoding.Encoding.{Encoding};

use crate::encoding::{Encoding, encoding_of_front};
use crate::error::LayerError;
use crate::sink::HashingSink;
use oci_content::{Algorithm, Checksum, Hasher, digest_of_reader};
use std::alloc::Global;
use std::io::Read;
use tar::front::read_front;

/// How many bytes are read at once.
const PIECE: usize = 65536;

/// How many bytes tell the encoding.
const FRONT: usize = 6;

/// The checksum of the archive that the reader gives, as a layer of this encoding; by SHA-256 or another algorithm that its configuration
/// names, it is the layer's DiffID (image specification, "Layer DiffID"). It takes about half a megabyte of memory, however long the layer
/// is. That the bytes are an archive is not looked at.
///
/// # Errors
///
/// - `NotGzip`: a layer in gzip's format is no gzip file (RFC 1952).
/// - `NotDecoded`: a layer in Zstandard's format. It is not read.
/// - `Io`, `Memory`: the reader failed, an interrupted read included, or memory ran out. Nothing is said of the bytes.
pub fn diff_id<R: Read + Drop>(
    alloc: Global,
    encoding: Encoding,
    algorithm: Algorithm,
    reader: R,
) -> Result<Checksum, LayerError>
    ensures ok { IfOk result (λ sum. IfSome (R.remaining reader) (λ bytes. AreBelow 256 bytes
        → (text : List ℕ) × IsUncompressed encoding bytes text × (sum ≡ checksum_of algorithm text))) }
    ensures not_gzip { IfErr result (λ e. IsNotGzip e → (encoding ≡ Encoding.Gzip) × IfSome (R.remaining reader) (λ bytes. AreBelow 256 bytes
        → (text : List ℕ) → ¬ IsGzip bytes text)) }
    ensures not_decoded { (result ≡ Err LayerError.NotDecoded) ↔ (encoding ≡ Encoding.Zstd) }
{
    match encoding {
        Encoding::Plain => checksum_of_plain(alloc, algorithm, reader),
        Encoding::Gzip => checksum_of_gzip(alloc, algorithm, reader),
        Encoding::Zstd => Err(LayerError::NotDecoded),
    }
}

/// The checksum of what the reader gives.
fn checksum_of_plain<R: Read + Drop>(
    alloc: Global,
    algorithm: Algorithm,
    reader: R,
) -> Result<Checksum, LayerError>
    ensures ok { IfOk result (λ sum. IfSome (R.remaining reader) (λ bytes. sum ≡ checksum_of algorithm bytes)) }
    ensures err { IfErr result IsOutside }
{
    let mut reader = reader;
    let mut buffer = vec![in alloc; 0; PIECE]?;
    let sum = digest_of_reader(algorithm, &mut reader, buffer.as_mut_slice())?;
    Ok(sum)
}

/// The checksum of the text of the gzip file that the reader gives.
fn checksum_of_gzip<R: Read + Drop>(
    alloc: Global,
    algorithm: Algorithm,
    reader: R,
) -> Result<Checksum, LayerError>
    ensures ok { IfOk result (λ sum. IfSome (R.remaining reader) (λ bytes. AreBelow 256 bytes
        → (text : List ℕ) × IsGzip bytes text × (sum ≡ checksum_of algorithm text))) }
    ensures err { IfErr result (λ e. IsNotGzip e → IfSome (R.remaining reader) (λ bytes. AreBelow 256 bytes → (text : List ℕ) → ¬ IsGzip bytes text)) }
    ensures decoded { ¬ (result ≡ Err LayerError.NotDecoded) }
{
    let sink = HashingSink {
        hasher: Hasher::new(algorithm),
    };
    match gzip::decode(alloc, reader, sink) {
        Ok(done) => {
            let HashingSink { hasher } = done;
            Ok(hasher.finish())
        }
        Err(error) => Err(LayerError::from(error)),
    }
}

/// The checksum of the archive that the reader gives as a layer, by the encoding that its first bytes show (`encoding_of_front`). Nothing
/// is read twice, so it may be a pipe.
///
/// # Errors
///
/// Those of `diff_id`; `NotDecoded` where the bytes begin as Zstandard's, bzip2's or xz's.
pub fn uncompressed_checksum<R: Read + Drop>(
    alloc: Global,
    algorithm: Algorithm,
    reader: R,
) -> Result<Checksum, LayerError>
    ensures ok { IfOk result (λ sum. IfSome (R.remaining reader) (λ bytes. AreBelow 256 bytes
        → IsSomeAnd (encoding_at_front bytes) (λ e. (text : List ℕ) × IsUncompressed e bytes text × (sum ≡ checksum_of algorithm text)))) }
    ensures not_gzip { IfErr result (λ e. IsNotGzip e → IfSome (R.remaining reader) (λ bytes. (encoding_at_front bytes ≡ Some Encoding.Gzip)
        × (AreBelow 256 bytes → (text : List ℕ) → ¬ IsGzip bytes text))) }
    ensures not_decoded { result ≡ Err LayerError.NotDecoded → IfSome (R.remaining reader) (λ bytes. is_decoded (encoding_at_front bytes) ≡ false) }
{
    let mut reader = reader;
    let front = read_front(alloc, &mut reader, FRONT)?;
    checksum_behind(alloc, algorithm, front.as_slice(), reader)
}

/// The same, of these first bytes and what the reader gives behind them.
fn checksum_behind<R: Read + Drop>(
    alloc: Global,
    algorithm: Algorithm,
    front: &[u8],
    reader: R,
) -> Result<Checksum, LayerError>
    requires most { length front.now ≤ 6 }
    requires end { length front.now < 6 → IsAtEnd (R.remaining reader) }
    ensures ok { IfOk result (λ sum. IfSome (prepend_known front.now (R.remaining reader)) (λ bytes. AreBelow 256 bytes
        → IsSomeAnd (encoding_at_front bytes) (λ e. (text : List ℕ) × IsUncompressed e bytes text × (sum ≡ checksum_of algorithm text)))) }
    ensures not_gzip { IfErr result (λ e. IsNotGzip e → IfSome (prepend_known front.now (R.remaining reader)) (λ bytes. (encoding_at_front bytes ≡ Some Encoding.Gzip)
        × (AreBelow 256 bytes → (text : List ℕ) → ¬ IsGzip bytes text))) }
    ensures not_decoded { result ≡ Err LayerError.NotDecoded → IfSome (prepend_known front.now (R.remaining reader)) (λ bytes. is_decoded (encoding_at_front bytes) ≡ false) }
{
    match encoding_of_front(front) {
        Some(encoding) => diff_id(alloc, encoding, algorithm, front.chain(reader)),
        None => Err(LayerError::NotDecoded),
    }
}
