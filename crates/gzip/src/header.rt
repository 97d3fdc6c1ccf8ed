//! The header of a member (2.3).
ghost use Rattle.std.specs.Prelude.{◌≡◌, ◌<◌, ◌↔◌, ◌+◌, ◌/◌, ◌%◌, ◌++◌, ◌∷◌, [], ℕ, List, length, MatchResult, IsTrue};
ghost use Rattle.crc32.specs.Message.{Holds};
ghost use Rattle.gzip.specs.Errors.{IsRefused};
ghost use Rattle.gzip.specs.Reading.{IsLeft, IsStart, IsTextField, IsExtraField, IsChecksum, IsHead};

use crate::bytes::{header_byte, skip, skip_text, two_bytes};
use crate::error::GzipError;
use crc32::Crc32;
use inflate::{Bits, ByteSource};

/// ID1 and ID2, which begin a member.
const FIRST: u8 = 31;

const SECOND: u8 = 139;

/// CM: the text is compressed by DEFLATE.
const DEFLATE: u8 = 8;

/// FLG (2.3.1): FHCRC, FEXTRA, FNAME and FCOMMENT; FTEXT, 1, says nothing of how to read.
const HEADER_CHECKSUM: u8 = 2;

const EXTRA: u8 = 4;

const NAME: u8 = 8;

const COMMENT: u8 = 16;

/// All flags; the other bits are reserved and 0.
const ALL_FLAGS: u8 = 31;

/// Reads a header. Where its first byte is not that of a member, what follows the members before is no member.
pub fn read_header<S: ByteSource>(
    source: &mut S,
    hand: &mut Bits,
    crc: &mut Crc32,
    is_first: bool,
) -> Result<(), GzipError>
    ensures { (bytes : List ℕ) → IsLeft (S.left source.old) hand.old bytes → Holds crc.old []
        → MatchResult result
        (λ _. (rest : List ℕ) × IsHead bytes rest × IsLeft (S.left source.new) hand.new rest)
        (λ e. IsRefused e → (rest : List ℕ) → IsHead bytes rest → ⊥) }
{
    let flags = start(source, hand, crc, is_first)?;
    skip(source, hand, crc, 6)?;
    let has_extra = has(flags, EXTRA);
    extra_field(source, hand, crc, has_extra)?;
    let has_name = has(flags, NAME);
    text_field(source, hand, crc, has_name)?;
    let has_comment = has(flags, COMMENT);
    text_field(source, hand, crc, has_comment)?;
    let has_checksum = has(flags, HEADER_CHECKSUM);
    checksum(source, hand, crc, has_checksum)?;
    Ok(())
}

/// ID1, ID2, CM and FLG; returns the flags.
fn start<S: ByteSource>(
    source: &mut S,
    hand: &mut Bits,
    crc: &mut Crc32,
    is_first: bool,
) -> Result<u8, GzipError>
    ensures { (bytes : List ℕ) → IsLeft (S.left source.old) hand.old bytes → Holds crc.old []
        → MatchResult result
        (λ flags. (rest : List ℕ) × IsStart bytes rest flags × IsLeft (S.left source.new) hand.new rest × Holds crc.new (31 ∷ 139 ∷ 8 ∷ flags ∷ []))
        (λ e. IsRefused e → (rest : List ℕ) (flags : ℕ) → IsStart bytes rest flags → ⊥) }
{
    let first = header_byte(source, hand, crc)?;
    if first != FIRST {
        return Err(if is_first {
            GzipError::Header
        } else {
            GzipError::TrailingData
        });
    }
    let second = header_byte(source, hand, crc)?;
    if second != SECOND {
        return Err(GzipError::Header);
    }
    let method = header_byte(source, hand, crc)?;
    if method != DEFLATE {
        return Err(GzipError::Header);
    }
    let flags = header_byte(source, hand, crc)?;
    if flags > ALL_FLAGS {
        return Err(GzipError::Header);
    }
    Ok(flags)
}

/// Whether a flag, a power of 2, is set.
fn has(flags: u8, flag: u8) -> bool
    requires { 0 < flag }
    ensures { IsTrue result ↔ (flags / flag % 2 ≡ 1) }
{
    flags / flag % 2 == 1
}

/// The field of an extra length and its bytes, where it is there.
fn extra_field<S: ByteSource>(
    source: &mut S,
    hand: &mut Bits,
    crc: &mut Crc32,
    is_there: bool,
) -> Result<(), GzipError>
    ensures { (bytes m : List ℕ) → IsLeft (S.left source.old) hand.old bytes → Holds crc.old m
        → MatchResult result
        (λ _. (piece rest : List ℕ) × IsExtraField is_there bytes piece rest × IsLeft (S.left source.new) hand.new rest × Holds crc.new (m ++ piece))
        (λ e. IsRefused e → (piece rest : List ℕ) → IsExtraField is_there bytes piece rest → ⊥) }
{
    if !is_there {
        return Ok(());
    }
    let low = header_byte(source, hand, crc)?;
    let high = header_byte(source, hand, crc)?;
    let count = u16::from_le_bytes([low, high]);
    skip(source, hand, crc, count)?;
    Ok(())
}

/// A text and the byte 0 behind it, where it is there.
fn text_field<S: ByteSource>(
    source: &mut S,
    hand: &mut Bits,
    crc: &mut Crc32,
    is_there: bool,
) -> Result<(), GzipError>
    ensures { (bytes m : List ℕ) → IsLeft (S.left source.old) hand.old bytes → Holds crc.old m
        → MatchResult result
        (λ _. (piece rest : List ℕ) × IsTextField is_there bytes piece rest × IsLeft (S.left source.new) hand.new rest × Holds crc.new (m ++ piece))
        (λ e. IsRefused e → (piece rest : List ℕ) → IsTextField is_there bytes piece rest → ⊥) }
{
    if !is_there {
        return Ok(());
    }
    skip_text(source, hand, crc)?;
    Ok(())
}

/// CRC16, where it is there.
fn checksum<S: ByteSource>(
    source: &mut S,
    hand: &mut Bits,
    crc: &Crc32,
    is_there: bool,
) -> Result<(), GzipError>
    ensures { (bytes m : List ℕ) → IsLeft (S.left source.old) hand.old bytes → Holds crc.now m
        → MatchResult result
        (λ _. (rest : List ℕ) × IsChecksum is_there m bytes rest × IsLeft (S.left source.new) hand.new rest)
        (λ e. IsRefused e → (rest : List ℕ) → IsChecksum is_there m bytes rest → ⊥) }
{
    if !is_there {
        return Ok(());
    }
    let expected = crc.checksum() & 0xffff;
    let found = two_bytes(source, hand)?;
    if u32::from(found) != expected {
        return Err(GzipError::HeaderChecksum);
    }
    Ok(())
}
