//! The calls that every document has.

use oci_doc_run::Kind;
use oci_json::{from_slice, to_string, to_string_pretty};
use oci_model::OciRecord;
use oci_spec::Result;
use oci_spec::distribution::{ErrorResponse, Reference, RepositoryList, TagList};
use oci_spec::image::{
    ArtifactManifest, Descriptor, ImageConfiguration, ImageIndex, ImageManifest, OciLayout,
};
use oci_spec::runtime::{ContainerProcessState, Features, Spec, State};
use oci_test_support::{Harness, Sample};
use std::alloc::Global;

/// What is done with a document that is read from bytes, before it is written.
enum Way {
    /// Nothing.
    Read,
    /// It is written as a value and read back from it.
    Lent,
    /// It is copied.
    Copied,
    /// It is written as its pretty text and read back from it.
    Pretty,
    /// It is copied and written, and the results are dropped: it is unchanged, whether or not that failed.
    Kept,
}

static WAYS: [(Way, &str); 5] = [
    (Way::Read, "from_slice"),
    (Way::Lent, "to_value, from_value"),
    (Way::Copied, "clone"),
    (Way::Pretty, "to_string_pretty"),
    (Way::Kept, "a refused call"),
];

fn lent<T: OciRecord>(alloc: Global, document: &T) -> Result<T> {
    T::from_value(alloc, &document.to_value(alloc)?)
}

fn pretty<T: OciRecord>(alloc: Global, document: &T) -> Result<T> {
    from_slice(alloc, to_string_pretty(document, alloc)?.as_bytes())
}

fn kept<T: OciRecord>(alloc: Global, document: &T) {
    let _ = document.to_value(alloc);
    let _ = document.duplicate(alloc);
}

/// The compact text of a document that is read.
fn found<T: OciRecord>(alloc: Global, way: &Way, text: &[u8]) -> Result<String> {
    let mut document: T = from_slice(alloc, text)?;
    match way {
        Way::Read => {}
        Way::Lent => document = lent(alloc, &document)?,
        Way::Copied => document = document.duplicate(alloc)?,
        Way::Pretty => document = pretty(alloc, &document)?,
        Way::Kept => kept(alloc, &document),
    }
    to_string(&document, alloc)
}

fn of_kind(alloc: Global, kind: Kind, way: &Way, text: &[u8]) -> Result<String> {
    match kind {
        Kind::Manifest => found::<ImageManifest>(alloc, way, text),
        Kind::Index => found::<ImageIndex>(alloc, way, text),
        Kind::Config => found::<ImageConfiguration>(alloc, way, text),
        Kind::Artifact => found::<ArtifactManifest>(alloc, way, text),
        Kind::Layout => found::<OciLayout>(alloc, way, text),
        Kind::Descriptor => found::<Descriptor>(alloc, way, text),
        Kind::Error => found::<ErrorResponse>(alloc, way, text),
        Kind::Repositories => found::<RepositoryList>(alloc, way, text),
        Kind::Tags => found::<TagList>(alloc, way, text),
        Kind::Reference => found::<Reference>(alloc, way, text),
        Kind::Spec => found::<Spec>(alloc, way, text),
        Kind::State => found::<State>(alloc, way, text),
        Kind::ProcessState => found::<ContainerProcessState>(alloc, way, text),
        Kind::Features => found::<Features>(alloc, way, text),
    }
}

/// All calls on one document.
pub fn all(harness: &mut Harness<'_>, kind: Kind, sample: &Sample<'_>) {
    for (way, call) in &WAYS {
        let answer = of_kind(harness.rt.alloc(), kind, way, sample.text.as_bytes());
        harness.answer(call, answer, Ok(sample.compact));
    }
    harness.end(sample.kind, "calls of documents");
}
