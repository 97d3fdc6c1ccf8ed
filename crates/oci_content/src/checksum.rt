//! What an algorithm makes of some bytes.
ghost use Rattle.std.specs.Prelude.{◌≡◌, ◌↔◌, ◌++◌, ◌≤◌, IsTrue, IfOk, length, string_bytes};
ghost use Rattle.hex.specs.Hex.{encode_lower};
ghost use Rattle.oci_content.specs.Content.{checksum_text};

use std::alloc::{AllocError, Global};

/// What an algorithm made of some bytes. Its text is a digest.
#[derive(Clone, Copy, Debug, PartialEq, Eq)]
pub enum Checksum {
    Sha256([u8; 32]),
    Sha384([u8; 48]),
    Sha512([u8; 64]),
}

impl Checksum {
    /// The text of the digest, as `sha256:` and 64 digits.
    pub fn text(&self, alloc: Global) -> Result<String, AllocError>
        ensures { IfOk result (λ text. string_bytes text ≡ checksum_text self.now) }
    {
        match self {
            Checksum::Sha256(hash) => text_of(alloc, "sha256:", hash),
            Checksum::Sha384(hash) => text_of(alloc, "sha384:", hash),
            Checksum::Sha512(hash) => text_of(alloc, "sha512:", hash),
        }
    }

    /// Whether the text is the text of the digest. Nothing is allocated.
    pub fn is_text(&self, text: &str) -> bool
        ensures { IsTrue result ↔ (text.now ≡ checksum_text self.now) }
    {
        match self {
            Checksum::Sha256(hash) => is_text_of(text, "sha256:", hash),
            Checksum::Sha384(hash) => is_text_of(text, "sha384:", hash),
            Checksum::Sha512(hash) => is_text_of(text, "sha512:", hash),
        }
    }
}

fn text_of(alloc: Global, name: &str, hash: &[u8]) -> Result<String, AllocError>
    ensures { IfOk result (λ text. string_bytes text ≡ name.now ++ encode_lower hash.now) }
{
    let digits = hex::encode(alloc, hash)?;
    let mut text = String::from_str(alloc, name)?;
    text.push_str(digits.as_str())?;
    Ok(text)
}

fn is_text_of(text: &str, name: &str, hash: &[u8]) -> bool
    requires { length hash.now ≤ 64 }
    ensures { IsTrue result ↔ (text.now ≡ name.now ++ encode_lower hash.now) }
{
    let mut room = [0u8; 128];
    let digits = &mut room[..2 * hash.len()];
    let _ = hex::encode_to_slice(hash, digits);
    match text.as_bytes().strip_prefix(name.as_bytes()) {
        Some(encoded) => *encoded == *digits,
        None => false,
    }
}
