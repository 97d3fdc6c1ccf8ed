//! Why a call was refused.
ghost use Rattle.std.specs.Prelude.{◌≡◌};

use std::alloc::{AllocError, AllocFailed};
use std::io;
use thiserror::Error;

/// What a call that may be refused answers.
pub type Result<T> = std::result::Result<T, OciSpecError>;

/// Any refusal.
#[derive(Debug, Drop, Error)]
pub enum OciSpecError {
    /// A text breaks a grammar, a name is unknown, or a rule across fields is broken: the text says which.
    #[error("{0}")]
    Other(String),
    /// A read, a write or a flush failed.
    #[error("io operation failed")]
    Io(io::Error),
    /// The input is no JSON, or JSON that is no such document; or a document has no JSON value.
    #[error("serde failed")]
    SerDe(SerDeError),
    /// A builder lacks a field that has to be set.
    #[error("uninitialized field")]
    Builder(UninitializedFieldError),
    /// Out of memory.
    #[error("out of memory")]
    Memory,
}

/// Text that is no JSON, or JSON that is no document.
#[derive(Debug, Drop, Error)]
pub enum SerDeError {
    /// The JSON reader's own error.
    #[error("{0}")]
    Json(serde_json::Error),
    /// The schema does not allow the value.
    #[error("{0}")]
    Schema(SchemaFault),
}

/// Where the schema was broken: the innermost record, by its type's name, and the member that was refused.
/// The member is empty where the whole document was refused.
#[derive(Clone, Copy, Debug, PartialEq, Eq, Error)]
#[error("{owner}{}{member}: not allowed here", if .member.is_empty() {""} else {"."})]
pub struct SchemaFault {
    pub owner: &'static str,
    pub member: &'static str,
}

/// A builder's field that has to be set.
#[derive(Clone, Copy, Debug, PartialEq, Eq, Error)]
#[error("`{field}` must be initialized")]
pub struct UninitializedFieldError {
    field: &'static str,
}

impl UninitializedFieldError {
    /// The error for a field's name.
    pub fn new(field: &'static str) -> Self
        ensures { result.field.now ≡ field.now }
    {
        UninitializedFieldError { field }
    }

    /// The field's name.
    pub fn field_name(&self) -> &'static str
        ensures { result.now ≡ self.now.field.now }
    {
        self.field
    }
}

/// A text that a table of names does not list.
#[derive(Clone, Copy, Debug, PartialEq, Eq, Error)]
#[error("unknown name")]
pub struct UnknownName;

impl From<AllocError> for OciSpecError {
    ghost use Rattle.oci_base.specs.declared.error.OciSpecError.TheVariants.{Memory};

    ghost from_gives = { λ _ e. e ≡ Memory };

    fn from(_refused: AllocError) -> OciSpecError {
        OciSpecError::Memory
    }
}

impl<T: Drop> From<AllocFailed<T>> for OciSpecError {
    ghost use Rattle.oci_base.specs.declared.error.OciSpecError.TheVariants.{Memory};

    ghost from_gives = { λ _ e. e ≡ Memory };

    fn from(_refused: AllocFailed<T>) -> OciSpecError {
        OciSpecError::Memory
    }
}

impl From<io::Error> for OciSpecError {
    ghost use Rattle.oci_base.specs.declared.error.OciSpecError.TheVariants.{Io};

    ghost from_gives = { λ x e. e ≡ Io x };

    fn from(fault: io::Error) -> OciSpecError {
        OciSpecError::Io(fault)
    }
}

impl From<serde_json::Error> for OciSpecError {
    ghost use Rattle.oci_base.specs.declared.error.OciSpecError.TheVariants.{SerDe};
    ghost use Rattle.oci_base.specs.declared.error.SerDeError.TheVariants.{Json};

    ghost from_gives = { λ x e. e ≡ SerDe (Json x) };

    fn from(fault: serde_json::Error) -> OciSpecError {
        OciSpecError::SerDe(SerDeError::Json(fault))
    }
}

impl From<UninitializedFieldError> for OciSpecError {
    ghost use Rattle.oci_base.specs.declared.error.OciSpecError.TheVariants.{Builder};

    ghost from_gives = { λ x e. e ≡ Builder x };

    fn from(fault: UninitializedFieldError) -> OciSpecError {
        OciSpecError::Builder(fault)
    }
}
