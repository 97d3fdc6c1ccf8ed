//! Where the keys of annotations are in documents. A key has to be unique there (image specification, "Annotations", "Rules").
ghost use Rattle.std.specs.Prelude.{◌≡◌, drop, is_none};
ghost use Rattle.oci_findings.specs.Annotations.{from_place, is_annotation as is_annotation_of, is_in_item as is_in, is_under as is_below, next_slash as place_of_slash};

use oci_schemas::Kind;

/// Whether a pointer is that of an annotation of a document of a kind or of a descriptor in it, or of a label of an image.
pub fn is_annotation(kind: Kind, pointer: &str) -> bool
    ensures { result ≡ is_annotation_of kind pointer.now }
{
    is_annotation_in(kind, pointer.as_bytes())
}

#[tactic(auto, unfolding(crate::specs::Annotations::is_annotation))]
fn is_annotation_in(kind: Kind, pointer: &[u8]) -> bool
    ensures { result ≡ is_annotation_of kind pointer.now }
{
    match kind {
        Kind::Manifest => {
            is_under(b"/annotations/", pointer)
                | (is_under(b"/config/annotations/", pointer)
                    | (is_in_item(b"/layers/", pointer)
                        | is_under(b"/subject/annotations/", pointer)))
        }
        Kind::Index => {
            is_under(b"/annotations/", pointer)
                | (is_in_item(b"/manifests/", pointer)
                    | is_under(b"/subject/annotations/", pointer))
        }
        Kind::Artifact => {
            is_under(b"/annotations/", pointer)
                | (is_in_item(b"/blobs/", pointer) | is_under(b"/subject/annotations/", pointer))
        }
        Kind::Config => is_under(b"/config/Labels/", pointer),
        Kind::Descriptor | Kind::Spec | Kind::State => is_under(b"/annotations/", pointer),
        Kind::ProcessState => is_under(b"/state/annotations/", pointer),
        Kind::Layout
        | Kind::Error
        | Kind::Repositories
        | Kind::Tags
        | Kind::Reference
        | Kind::Features => false,
    }
}

/// Whether a pointer is that of a member of the object to which the other leads: one name is behind it.
fn is_under(at: &[u8], pointer: &[u8]) -> bool
    ensures { result ≡ is_below at.now pointer.now }
{
    pointer.starts_with(at) & is_step(behind(pointer, at.len()))
}

/// Whether a pointer is that of an annotation of an item of the array to which the other leads.
fn is_in_item(at: &[u8], pointer: &[u8]) -> bool
    ensures { result ≡ is_in at.now pointer.now }
{
    let item = behind(pointer, at.len());
    pointer.starts_with(at) & is_under(b"/annotations/", behind_step(item))
}

/// Whether a text has no slash.
fn is_step(text: &[u8]) -> bool
    ensures { result ≡ is_none (place_of_slash text.now) }
{
    next_slash(text).is_none()
}

/// What is behind a step of a pointer: from the next slash on.
fn behind_step(pointer: &[u8]) -> &[u8]
    ensures { result.now ≡ from_place (place_of_slash pointer.now) pointer.now }
{
    match next_slash(pointer) {
        Some(place) => behind(pointer, place),
        None => &[],
    }
}

fn next_slash(text: &[u8]) -> Option<usize>
    ensures { result ≡ place_of_slash text.now }
{
    text.iter().position(|c| *c == b'/')
}

/// The bytes behind so many, or nothing.
fn behind(text: &[u8], count: usize) -> &[u8]
    ensures { result.now ≡ drop count text.now }
{
    if count <= text.len() {
        &text[count..]
    } else {
        &[]
    }
}
