//! What can be wrong with a file.
ghost use Rattle.std.specs.Prelude.{◌≡◌};

use inflate::Fault;
use std::alloc::AllocError;
use std::fmt;

/// Why a file is not read to its end.
#[derive(Debug, Drop)]
pub enum GzipError {
    /// The header is not one of RFC 1952, or says another method than DEFLATE (2.3).
    Header,
    /// The header's checksum is not that of its bytes.
    HeaderChecksum,
    /// The compressed text, or the file ends before it should.
    Text(Fault),
    /// The checksum is not that of the text.
    Checksum,
    /// The length is not that of the text.
    Length,
    /// What follows a member is not a member.
    TrailingData,
}

impl From<Fault> for GzipError {
    ghost use Rattle.gzip.specs.declared.error.GzipError.TheVariants.{Text};

    ghost from_gives = { λ x e. e ≡ Text x };

    fn from(fault: Fault) -> GzipError {
        GzipError::Text(fault)
    }
}

impl From<AllocError> for GzipError {
    ghost use Rattle.gzip.specs.declared.error.GzipError.TheVariants.{Text};
    ghost use Rattle.inflate.specs.declared.fault.Fault.TheVariants.{Memory};

    ghost from_gives = { λ _ e. e ≡ Text Memory };

    fn from(_error: AllocError) -> GzipError {
        GzipError::Text(Fault::Memory)
    }
}

impl fmt::Display for GzipError {
    fn fmt<W: fmt::Write>(&self, f: &mut fmt::Formatter<W>) -> fmt::Result {
        match self {
            GzipError::Header => f.write_str("bad header"),
            GzipError::HeaderChecksum => f.write_str("bad header checksum"),
            GzipError::Text(fault) => write!(f, "{fault}"),
            GzipError::Checksum => f.write_str("checksum mismatch"),
            GzipError::Length => f.write_str("size mismatch"),
            GzipError::TrailingData => f.write_str("trailing data"),
        }
    }
}
