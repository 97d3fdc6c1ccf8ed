//! Whole bytes.
ghost use Rattle.std.specs.Prelude.{◌≡◌, ◌<◌, ◌++◌, ◌∷◌, [], ℕ, List, length, MatchResult};
ghost use Rattle.std.specs.Int.{w16, w32, to_le_bytes};
ghost use Rattle.crc32.specs.Message.{Holds};
ghost use Rattle.gzip.specs.Errors.{IsRefused};
ghost use Rattle.gzip.specs.Reading.{IsLeft, IsPiece, IsTextPiece};

use crate::error::GzipError;
use crc32::Crc32;
use inflate::{Bits, ByteSource, Fault, number};

/// The next byte.
pub fn byte<S: ByteSource>(source: &mut S, hand: &mut Bits) -> Result<u8, GzipError>
    ensures { (bytes : List ℕ) → IsLeft (S.left source.old) hand.old bytes
        → MatchResult result (λ b. (rest : List ℕ) × (bytes ≡ b ∷ rest) × IsLeft (S.left source.new) hand.new rest) (λ e. IsRefused e → bytes ≡ []) }
{
    match number(source, hand, 8) {
        Ok(value) => Ok(value as u8),
        Err(fault) => Err(GzipError::Text(fault)),
    }
}

/// The next byte of a header, which goes into its checksum.
pub fn header_byte<S: ByteSource>(
    source: &mut S,
    hand: &mut Bits,
    crc: &mut Crc32,
) -> Result<u8, GzipError>
    ensures { (bytes m : List ℕ) → IsLeft (S.left source.old) hand.old bytes → Holds crc.old m
        → MatchResult result (λ b. (rest : List ℕ) × (bytes ≡ b ∷ rest) × IsLeft (S.left source.new) hand.new rest × Holds crc.new (m ++ b ∷ [])) (λ e. IsRefused e → bytes ≡ []) }
{
    let value = byte(source, hand)?;
    crc.update(&[value]);
    Ok(value)
}

/// Two bytes, the lower one first.
pub fn two_bytes<S: ByteSource>(source: &mut S, hand: &mut Bits) -> Result<u16, GzipError>
    ensures { (bytes : List ℕ) → IsLeft (S.left source.old) hand.old bytes
        → MatchResult result (λ n. (rest : List ℕ) × (bytes ≡ to_le_bytes w16 n ++ rest) × IsLeft (S.left source.new) hand.new rest) (λ e. IsRefused e → length bytes < 2) }
{
    let low = byte(source, hand)?;
    let high = byte(source, hand)?;
    Ok(u16::from_le_bytes([low, high]))
}

/// Four bytes, the lowest one first.
pub fn four_bytes<S: ByteSource>(source: &mut S, hand: &mut Bits) -> Result<u32, GzipError>
    ensures { (bytes : List ℕ) → IsLeft (S.left source.old) hand.old bytes
        → MatchResult result (λ n. (rest : List ℕ) × (bytes ≡ to_le_bytes w32 n ++ rest) × IsLeft (S.left source.new) hand.new rest) (λ e. IsRefused e → length bytes < 4) }
{
    let a = byte(source, hand)?;
    let b = byte(source, hand)?;
    let c = byte(source, hand)?;
    let d = byte(source, hand)?;
    Ok(u32::from_le_bytes([a, b, c, d]))
}

/// Reads so many bytes of a header.
pub fn skip<S: ByteSource>(
    source: &mut S,
    hand: &mut Bits,
    crc: &mut Crc32,
    count: u16,
) -> Result<(), GzipError>
    ensures { (bytes m : List ℕ) → IsLeft (S.left source.old) hand.old bytes → Holds crc.old m
        → MatchResult result
        (λ _. (piece rest : List ℕ) × IsPiece bytes piece rest count × IsLeft (S.left source.new) hand.new rest × Holds crc.new (m ++ piece))
        (λ e. IsRefused e → length bytes < count) }
{
    'bytes: for _ in 0..count {
        header_byte(source, hand, crc)?;
    }
    Ok(())
}

/// Reads up to a byte 0.
pub fn skip_text<S: ByteSource>(
    source: &mut S,
    hand: &mut Bits,
    crc: &mut Crc32,
) -> Result<(), GzipError>
    ensures { (bytes m : List ℕ) → IsLeft (S.left source.old) hand.old bytes → Holds crc.old m
        → MatchResult result
        (λ _. (piece rest : List ℕ) × IsTextPiece bytes piece rest × IsLeft (S.left source.new) hand.new rest × Holds crc.new (m ++ piece))
        (λ e. IsRefused e → (piece rest : List ℕ) → IsTextPiece bytes piece rest → ⊥) }
{
    'bytes: for _ in 0..u64::MAX {
        let value = header_byte(source, hand, crc)?;
        if value == 0 {
            return Ok(());
        }
    }
    Err(GzipError::Text(Fault::TooLong))
}
