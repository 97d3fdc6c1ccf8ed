//! Members (2.2).
ghost use Rattle.std.specs.Prelude.{◌≡◌, ◌++◌, ℕ, List, [], Some, MatchResult};
ghost use Rattle.deflate.specs.Bits.{AreBelow};
ghost use Rattle.deflate.specs.Deflate.{Denotes};
ghost use Rattle.gzip.specs.Gzip.{IsMember, IsGzip, trailer};
ghost use Rattle.gzip.specs.Errors.{IsRefused};
ghost use Rattle.gzip.specs.Reading.{IsLeft, IsEnd};
ghost use Rattle.gzip.specs.Sums.{HasSums};

use crate::bytes::four_bytes;
use crate::checked::Checked;
use crate::error::GzipError;
use crate::header::read_header;
use crc32::Crc32;
use inflate::{Bits, ByteSource, Decoder, Fault, Output, ReaderSource, Sink, Window};
use std::alloc::Global;
use std::io::Read;

/// Reads a gzip file (RFC 1952) to the end of the reader, hands its text to the sink piece by piece, and returns the sink.
///
/// A file is one member or more and nothing else (2.2). Checked are the form of each header, its checksum where it has one, the
/// compressed text (RFC 1951), its CRC-32 and its length modulo 2 ^ 32 (2.3). Names, comments, extra fields and times are read over.
/// It takes about half a megabyte of memory, however long the text is. After an error the sink may have taken a part of a text.
///
/// # Errors
///
/// - `Header`: ID1, ID2 or CM is another than that of a member, or a reserved flag is set. `TrailingData`: ID1 is another behind a
///   member, zeros among them.
/// - `HeaderChecksum`, `Checksum`, `Length`: what a member says of its header or its text is not so.
/// - `Text`: the compressed text is not as RFC 1951 says, the file ends too early, or memory, the reader or the sink failed.
pub fn decode<R: Read + Drop, S: Sink + Drop>(
    alloc: Global,
    reader: R,
    sink: S,
) -> Result<S, GzipError>
    ensures { (bytes t : List ℕ) → AreBelow 256 bytes → R.remaining reader ≡ Some bytes → S.holds sink [] t
        → MatchResult result
        (λ s. (text : List ℕ) × IsGzip bytes text × S.holds s [] (t ++ text))
        (λ e. IsRefused e → (text : List ℕ) → IsGzip bytes text → ⊥) }
{
    let mut source = ReaderSource::new(alloc, reader)?;
    let sink = members(alloc, &mut source, sink)?;
    Ok(sink)
}

/// Reads members up to the end of the source.
fn members<B: ByteSource, S: Sink + Drop>(
    alloc: Global,
    source: &mut B,
    sink: S,
) -> Result<S, GzipError>
    ensures { (bytes t : List ℕ) → AreBelow 256 bytes → B.left source.old ≡ Some bytes → S.holds sink [] t
        → MatchResult result
        (λ s. (text : List ℕ) × IsGzip bytes text × S.holds s [] (t ++ text))
        (λ e. IsRefused e → (text : List ℕ) → IsGzip bytes text → ⊥) }
{
    let mut decoder = Decoder::new(alloc)?;
    let mut hand = Bits::new();
    let mut sink = member(alloc, source, &mut hand, &mut decoder, sink, true)?;
    'members: for _ in 0..u64::MAX {
        let is_end = at_end(source, &mut hand)?;
        if is_end {
            return Ok(sink);
        }
        sink = member(alloc, source, &mut hand, &mut decoder, sink, false)?;
    }
    Err(GzipError::Text(Fault::TooLong))
}

/// Whether no byte is left.
fn at_end<B: ByteSource>(source: &mut B, hand: &mut Bits) -> Result<bool, GzipError>
    ensures { (bytes : List ℕ) → IsLeft (B.left source.old) hand.old bytes
        → MatchResult result
        (λ is_end. IsLeft (B.left source.new) hand.new bytes × IsEnd is_end bytes)
        (λ e. IsRefused e → ⊥) }
{
    match source.refill(hand) {
        Ok(()) => Ok(hand.is_empty()),
        Err(fault) => Err(GzipError::Text(fault)),
    }
}

/// Reads a member.
fn member<B: ByteSource, S: Sink + Drop>(
    alloc: Global,
    source: &mut B,
    hand: &mut Bits,
    decoder: &mut Decoder,
    sink: S,
    is_first: bool,
) -> Result<S, GzipError>
    ensures { (bytes t : List ℕ) → IsLeft (B.left source.old) hand.old bytes → S.holds sink [] t
        → MatchResult result
        (λ s. (text rest : List ℕ) × IsMember bytes text rest × IsLeft (B.left source.new) hand.new rest × S.holds s [] (t ++ text))
        (λ e. IsRefused e → (text rest : List ℕ) → IsMember bytes text rest → ⊥) }
{
    let mut crc = Crc32::new(alloc)?;
    read_header(source, hand, &mut crc, is_first)?;
    crc.reset();
    let checked = Checked {
        sink,
        crc,
        length: 0,
    };
    let done = text(alloc, source, hand, decoder, checked)?;
    let sink = end(source, hand, done)?;
    Ok(sink)
}

/// Reads the text of a member, up to the next whole byte.
fn text<B: ByteSource, S: Sink + Drop>(
    alloc: Global,
    source: &mut B,
    hand: &mut Bits,
    decoder: &mut Decoder,
    checked: Checked<S>,
) -> Result<Checked<S>, GzipError>
    ensures { (bytes before : List ℕ) → IsLeft (B.left source.old) hand.old bytes → HasSums (S.holds checked.sink []) checked.crc checked.length before []
        → MatchResult result
        (λ k. (text rest : List ℕ) × Denotes bytes text rest × IsLeft (B.left source.new) hand.new rest × HasSums (S.holds k.sink []) k.crc k.length before text)
        (λ e. IsRefused e → (text rest : List ℕ) → Denotes bytes text rest → ⊥) }
{
    let mut window = Window::new(alloc, checked)?;
    stream(source, hand, decoder, &mut window)?;
    match window.finish() {
        Ok(checked) => Ok(checked),
        Err(fault) => Err(GzipError::Text(fault)),
    }
}

/// Reads a stream, up to the next whole byte.
fn stream<B: ByteSource, T: Output>(
    source: &mut B,
    hand: &mut Bits,
    decoder: &mut Decoder,
    output: &mut T,
) -> Result<(), GzipError>
    ensures { (bytes before : List ℕ) → IsLeft (B.left source.old) hand.old bytes → T.holds output.old before []
        → MatchResult result
        (λ _. (text rest : List ℕ) × Denotes bytes text rest × IsLeft (B.left source.new) hand.new rest × T.holds output.new before text)
        (λ e. IsRefused e → (text rest : List ℕ) → Denotes bytes text rest → ⊥) }
{
    match decoder.inflate(source, hand, output) {
        Ok(()) => {
            let odd = hand.count % 8;
            hand.skip(odd);
            Ok(())
        }
        Err(fault) => Err(GzipError::Text(fault)),
    }
}

/// Reads the end of a member: CRC32 and ISIZE.
fn end<B: ByteSource, S: Sink + Drop>(
    source: &mut B,
    hand: &mut Bits,
    checked: Checked<S>,
) -> Result<S, GzipError>
    ensures { (bytes before t : List ℕ) → IsLeft (B.left source.old) hand.old bytes → HasSums (S.holds checked.sink []) checked.crc checked.length before t
        → MatchResult result
        (λ s. (rest : List ℕ) × (bytes ≡ trailer t ++ rest) × IsLeft (B.left source.new) hand.new rest × S.holds s [] (before ++ t))
        (λ e. IsRefused e → (rest : List ℕ) → bytes ≡ trailer t ++ rest → ⊥) }
{
    let Checked { sink, crc, length } = checked;
    let sum = four_bytes(source, hand)?;
    let expected = crc.checksum();
    if sum != expected {
        return Err(GzipError::Checksum);
    }
    let count = four_bytes(source, hand)?;
    if count != length {
        return Err(GzipError::Length);
    }
    Ok(sink)
}
