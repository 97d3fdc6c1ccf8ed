//! The kinds of documents, by their numbers.
ghost use Rattle.std.specs.Prelude.{◌≡◌, IfSome, option_map};
ghost use Rattle.oci_model.specs.WellFormed.{WellFormed};
ghost use Rattle.oci_ffi.specs.Kinds.{kind_numbered, shape_of, shape_numbered};

use oci_schema::Schema;
use oci_schemas::Kind;

/// An image manifest.
pub const MANIFEST: u32 = 0;
/// An image index.
pub const INDEX: u32 = 1;
/// An image configuration.
pub const CONFIG: u32 = 2;
/// An artifact manifest.
pub const ARTIFACT: u32 = 3;
/// The marker of an image layout.
pub const LAYOUT: u32 = 4;
/// A content descriptor.
pub const DESCRIPTOR: u32 = 5;
/// The reply of a registry to a request that failed.
pub const ERROR: u32 = 6;
/// A registry's list of repositories.
pub const REPOSITORIES: u32 = 7;
/// A repository's list of tags.
pub const TAGS: u32 = 8;
/// A reference to an image, in its parts.
pub const REFERENCE: u32 = 9;
/// The configuration of a container.
pub const SPEC: u32 = 10;
/// The state of a container.
pub const STATE: u32 = 11;
/// What a seccomp listener receives.
pub const PROCESS_STATE: u32 = 12;
/// The features of a runtime.
pub const FEATURES: u32 = 13;

/// Returns the kind with a number, or `None` if the number is that of no kind.
pub(crate) fn kind_of(kind: u32) -> Option<Kind>
    ensures { result ≡ kind_numbered kind }
{
    match kind {
        MANIFEST => Some(Kind::Manifest),
        INDEX => Some(Kind::Index),
        CONFIG => Some(Kind::Config),
        ARTIFACT => Some(Kind::Artifact),
        LAYOUT => Some(Kind::Layout),
        DESCRIPTOR => Some(Kind::Descriptor),
        ERROR => Some(Kind::Error),
        REPOSITORIES => Some(Kind::Repositories),
        TAGS => Some(Kind::Tags),
        REFERENCE => Some(Kind::Reference),
        SPEC => Some(Kind::Spec),
        STATE => Some(Kind::State),
        PROCESS_STATE => Some(Kind::ProcessState),
        FEATURES => Some(Kind::Features),
        _ => None,
    }
}

/// Returns the schema of a kind's documents, by the records of `OciRecords`, or `None` if the number is that of no kind.
pub(crate) fn schema_of(kind: u32) -> Option<&'static Schema>
    ensures shape { option_map (λ s. shape_of s.now) result ≡ shape_numbered kind }
    ensures well { IfSome result (λ s. WellFormed (shape_of s.now)) }
{
    match kind_of(kind) {
        Some(kind) => Some(kind.schema()),
        None => None,
    }
}
