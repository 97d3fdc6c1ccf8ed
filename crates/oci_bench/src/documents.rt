//! The calls that are made on a typed record.
ghost use Rattle.std.specs.Prelude.{◌≡◌};
ghost use Rattle.oci_bench.specs.Words.{typed_call_of};

use crate::arguments::Run;
use anyhow::Result;
use oci_descriptor::Descriptor;
use oci_distribution::{ErrorResponse, RepositoryList, TagList};
use oci_features::Features;
use oci_image::{ArtifactManifest, ImageConfiguration, ImageIndex, ImageManifest, OciLayout};
use oci_json::{from_slice, to_string};
use oci_model::OciRecord;
use oci_reference::Reference;
use oci_runtime::{ContainerProcessState, Spec, State};
use oci_schemas::Kind;
use std::alloc::Global;

/// A call on the record of a document.
#[derive(Clone, Copy)]
pub enum TypedCall {
    /// `from_slice`: the record of the bytes.
    Read,
    /// `to_value`: the record's value, and its compact text.
    Write,
}

impl TypedCall {
    /// The call that a word names, if there is one.
    pub fn from_word(word: &str) -> Option<TypedCall>
        ensures { result ≡ typed_call_of word.now }
    {
        match word {
            "from_slice" => Some(TypedCall::Read),
            "to_value" => Some(TypedCall::Write),
            _ => None,
        }
    }
}

fn read<T: OciRecord>(alloc: Global, bytes: &[u8], count: u32) -> Result<()> {
    for _ in 0..count {
        let _document: T = from_slice(alloc, bytes)?;
    }
    Ok(())
}

/// Reads the record once, and writes it as often as is asked.
fn write<T: OciRecord>(alloc: Global, bytes: &[u8], count: u32) -> Result<()> {
    let document: T = from_slice(alloc, bytes)?;
    for _ in 0..count {
        let _text = to_string(&document, alloc)?;
    }
    Ok(())
}

/// Makes the call as often as is asked, and drops all that it made.
fn repeat<T: OciRecord>(alloc: Global, bytes: &[u8], run: Run<TypedCall>) -> Result<()> {
    match run.call {
        TypedCall::Read => read::<T>(alloc, bytes, run.count),
        TypedCall::Write => write::<T>(alloc, bytes, run.count),
    }
}

/// Makes a call on the record of a kind.
pub fn perform(alloc: Global, kind: Kind, bytes: &[u8], run: Run<TypedCall>) -> Result<()> {
    match kind {
        Kind::Manifest => repeat::<ImageManifest>(alloc, bytes, run),
        Kind::Index => repeat::<ImageIndex>(alloc, bytes, run),
        Kind::Config => repeat::<ImageConfiguration>(alloc, bytes, run),
        Kind::Artifact => repeat::<ArtifactManifest>(alloc, bytes, run),
        Kind::Layout => repeat::<OciLayout>(alloc, bytes, run),
        Kind::Descriptor => repeat::<Descriptor>(alloc, bytes, run),
        Kind::Error => repeat::<ErrorResponse>(alloc, bytes, run),
        Kind::Repositories => repeat::<RepositoryList>(alloc, bytes, run),
        Kind::Tags => repeat::<TagList>(alloc, bytes, run),
        Kind::Reference => repeat::<Reference>(alloc, bytes, run),
        Kind::Spec => repeat::<Spec>(alloc, bytes, run),
        Kind::State => repeat::<State>(alloc, bytes, run),
        Kind::ProcessState => repeat::<ContainerProcessState>(alloc, bytes, run),
        Kind::Features => repeat::<Features>(alloc, bytes, run),
    }
}
