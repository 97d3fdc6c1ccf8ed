ghost use Rattle.std.specs.Prelude.{◌≡◌};

use std::alloc::AllocError;
use thiserror::Error;

/// Why a text is no reference.
#[derive(Clone, Copy, Debug, PartialEq, Eq, Error)]
pub enum ParseError {
    /// Never answered: a digest outside the grammar is `ReferenceInvalidFormat`.
    #[error("invalid checksum digest format")]
    DigestInvalidFormat,
    /// A digest by `sha256`, `sha384` or `sha512` without exactly 64, 96 or 128 digits.
    #[error("invalid checksum digest length")]
    DigestInvalidLength,
    /// A digest by another algorithm.
    #[error("unsupported digest algorithm")]
    DigestUnsupported,
    /// An uppercase letter in the repository.
    #[error("repository name must be lowercase")]
    NameContainsUppercase,
    /// The empty text.
    #[error("repository name must have at least one component")]
    NameEmpty,
    /// A repository of more than 255 bytes.
    #[error("repository name must not be more than 255 characters")]
    NameTooLong,
    /// A text outside the grammar.
    #[error("invalid reference format")]
    ReferenceInvalidFormat,
    /// Never answered: a tag outside the grammar is `ReferenceInvalidFormat`.
    #[error("invalid tag format")]
    TagInvalidFormat,
    /// The text is accepted, and there was no memory for its parts.
    #[error("out of memory")]
    Memory,
}

impl From<AllocError> for ParseError {
    ghost use Rattle.oci_reference.specs.declared.error.ParseError.TheVariants.{Memory};

    ghost from_gives = { λ _ e. e ≡ Memory };

    fn from(_refused: AllocError) -> ParseError {
        ParseError::Memory
    }
}
