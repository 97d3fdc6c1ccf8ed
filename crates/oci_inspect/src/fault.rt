//! Why a document or an image is not found.
ghost use Rattle.std.specs.Prelude.{◌≡◌};

use oci_base::OciSpecError;
use oci_content::Verdict;
use std::alloc::AllocError;
use std::io;

/// Why a document is not to be had.
#[derive(Debug, Drop)]
pub enum Fault {
    /// It is missing.
    Missing,
    /// It cannot be read, or is no regular file, and why.
    Unreadable(io::Error),
    /// It is larger than 4 MiB.
    TooLarge,
    /// It has another size or another digest than its descriptor says, or a digest by an algorithm that is not known here.
    Other(Verdict),
    /// It is no document of its kind, and why.
    Invalid(OciSpecError),
    /// Out of memory.
    Memory,
}

impl From<AllocError> for Fault {
    ghost use Rattle.oci_inspect.specs.declared.fault.Fault.TheVariants.{Memory};

    ghost from_gives = { λ _ e. e ≡ Memory };

    fn from(_refused: AllocError) -> Fault {
        Fault::Memory
    }
}

/// Why no image is found.
#[derive(Debug, Drop)]
pub enum FindError {
    /// `index.json` is not to be had.
    NoIndex(Fault),
    /// No manifest has the name; without a name, or in an index below, there is no manifest.
    NoName,
    /// So many manifests are meant, and no platform is asked for.
    Several(usize),
    /// No image runs on the platform that is asked for.
    NoPlatform,
    /// The content of this digest, by which the image would be found, is not to be had.
    Content(String, Fault),
    /// The image would lie below more than 16 indexes.
    TooDeep,
    /// Out of memory.
    Memory,
}

impl From<AllocError> for FindError {
    ghost use Rattle.oci_inspect.specs.declared.fault.FindError.TheVariants.{Memory};

    ghost from_gives = { λ _ e. e ≡ Memory };

    fn from(_refused: AllocError) -> FindError {
        FindError::Memory
    }
}

/// Why an image is not shown.
#[derive(Debug, Drop)]
pub enum InspectError {
    /// It is not found, or its configuration.
    NotFound(FindError),
    /// It cannot be written.
    Unwritten(io::Error),
}

impl From<FindError> for InspectError {
    ghost use Rattle.oci_inspect.specs.declared.fault.InspectError.TheVariants.{NotFound};

    ghost from_gives = { λ x e. e ≡ NotFound x };

    fn from(error: FindError) -> InspectError {
        InspectError::NotFound(error)
    }
}

impl From<AllocError> for InspectError {
    ghost use Rattle.oci_inspect.specs.declared.fault.FindError.TheVariants.{Memory};
    ghost use Rattle.oci_inspect.specs.declared.fault.InspectError.TheVariants.{NotFound};

    ghost from_gives = { λ _ e. e ≡ NotFound Memory };

    fn from(_refused: AllocError) -> InspectError {
        InspectError::NotFound(FindError::Memory)
    }
}

impl From<io::Error> for InspectError {
    ghost use Rattle.oci_inspect.specs.declared.fault.InspectError.TheVariants.{Unwritten};

    ghost from_gives = { λ x e. e ≡ Unwritten x };

    fn from(fault: io::Error) -> InspectError {
        InspectError::Unwritten(fault)
    }
}
