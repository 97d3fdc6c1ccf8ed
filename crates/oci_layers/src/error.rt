//! Why a layer has no checksum.
ghost use Rattle.std.specs.Prelude.{◌≡◌};
ghost use Rattle.oci_layers.specs.Errors.{IsOutside, Splits};
ghost use Rattle.oci_layers.specs.declared.error.LayerError.TheVariants as errors;

use gzip::GzipError;
use inflate::Fault;
use std::alloc::{AllocError, AllocFailed};
use std::io::ErrorKind;
use std::{fmt, io};
use tar_header::ReadError;

/// Why the checksum of a layer's archive is not known.
#[derive(Debug, Drop)]
pub enum LayerError {
    /// The bytes are no gzip file (RFC 1952).
    NotGzip(GzipError),
    /// The layer is in a format that is not decoded.
    NotDecoded,
    /// A read failed.
    Io(io::Error),
    /// Memory ran out.
    Memory,
}

impl From<GzipError> for LayerError {
    ghost from_gives = { Splits };

    fn from(error: GzipError) -> LayerError {
        match error {
            GzipError::Text(Fault::Memory) => LayerError::Memory,
            GzipError::Text(Fault::Read(e)) | GzipError::Text(Fault::Write(e)) => LayerError::Io(e),
            GzipError::Text(Fault::TooLong) => LayerError::Io(io::Error::from(ErrorKind::Other)),
            refused => LayerError::NotGzip(refused),
        }
    }
}

impl From<ReadError> for LayerError {
    ghost from_gives = { λ _ e. IsOutside e };

    /// The error of bytes that are not looked into: it is never one of an archive.
    fn from(error: ReadError) -> LayerError {
        match error {
            ReadError::Memory => LayerError::Memory,
            ReadError::Io(e) => LayerError::Io(e),
            ReadError::Fault(_) => LayerError::Io(io::Error::from(ErrorKind::Other)),
        }
    }
}

impl From<io::Error> for LayerError {
    ghost from_gives = { λ x e. e ≡ errors.Io x };

    fn from(error: io::Error) -> LayerError {
        LayerError::Io(error)
    }
}

impl From<AllocError> for LayerError {
    ghost from_gives = { λ _ e. e ≡ errors.Memory };

    fn from(_error: AllocError) -> LayerError {
        LayerError::Memory
    }
}

impl<T: Drop> From<AllocFailed<T>> for LayerError {
    ghost from_gives = { λ _ e. e ≡ errors.Memory };

    fn from(_error: AllocFailed<T>) -> LayerError {
        LayerError::Memory
    }
}

impl fmt::Display for LayerError {
    fn fmt<W: fmt::Write>(&self, f: &mut fmt::Formatter<W>) -> fmt::Result {
        match self {
            LayerError::NotGzip(error) => write!(f, "not a gzip file: {error}"),
            LayerError::NotDecoded => f.write_str("a format that is not decoded"),
            LayerError::Io(error) => write!(f, "{error}"),
            LayerError::Memory => f.write_str("out of memory"),
        }
    }
}
