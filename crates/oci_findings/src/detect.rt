//! Which kind of document a value is.
ghost use Rattle.std.specs.Prelude.{◌≡◌, ◌&&◌, ◌++◌, ◌∷◌, [], List, codes, option_map};
ghost use Rattle.std.specs.List.{list_all, list_any};
ghost use Rattle.serde_json.specs.Data.{Data};
ghost use Rattle.oci_schema.specs.Shapes.{names_of};
ghost use Rattle.oci_schemas.specs.declared.kind.Kind.{Kind as kind_type};
ghost use Rattle.oci_findings.specs.FoundKind.{has_member, string_member, of_media_type, own_media_type, marks, foreign_marks, is_known as is_known_as, by_members, by_file_name, first_of, found_kind, is_file, layout_names, index_names};
ghost use Rattle.oci_findings.specs.Known.{counted};

use json::Element;
use oci_json_tape::{find, text};
use oci_schema::{Member, Part, Records, Schema};
use oci_schemas::{KINDS, Kind, OciRecords};
use serde_json::Value;
use std::alloc::{AllocError, Global};

/// The members of an index.
static INDEX_NAMES: [&str; 6] = [
    "schemaVersion",
    "mediaType",
    "artifactType",
    "manifests",
    "subject",
    "annotations",
];

/// A document whose members are looked up by their names.
pub trait Document {
    ghost holds: { Self → Data → Type 0 };

    /// Whether it is an object that has a member of this name.
    fn has(&self, name: &str) -> bool
        ensures { (d : Data) → holds self.now d → result ≡ has_member d name.now };

    /// The member of this name, if it is a string.
    fn string(&self, name: &str) -> Option<&str>
        ensures { (d : Data) → holds self.now d → option_map (λ s. s.now) result ≡ string_member d name.now };
}

impl Document for Value {
    ghost use Rattle.std.specs.Prelude.{◌≡◌};
    ghost use Rattle.serde_json.specs.View.{view};

    ghost holds = { λ v d. view v ≡ d };

    fn has(&self, name: &str) -> bool {
        self.get(name).is_some()
    }

    fn string(&self, name: &str) -> Option<&str> {
        match self.get(name) {
            Some(member) => member.as_str(),
            None => None,
        }
    }
}

impl<'t, 'a> Document for Element<'t, 'a> {
    ghost use Rattle.oci_json_tape.specs.Elements.{BeginsWithData};

    ghost holds = { λ e d. BeginsWithData e d };

    fn has(&self, name: &str) -> bool {
        find(self, name).is_some()
    }

    fn string(&self, name: &str) -> Option<&str> {
        match find(self, name) {
            Some(member) => text(&member),
            None => None,
        }
    }
}

/// The kind of the document with this file name: by its `mediaType`, which alone decides if there is one, or else by its members, or
/// else by its file name, if its members leave that open. A kind is found only if it is the only one.
pub fn detect<D: Document>(name: &str, document: &D) -> Option<Kind>
    ensures { (d : Data) → D.holds document.now d → result ≡ found_kind name.now d }
{
    match media_type_of(document) {
        Some(media_type) => kind_of_media_type(media_type),
        None => kind_without_type(name, document),
    }
}

/// The kind of a document that says no media type of its own.
fn kind_without_type<D: Document>(name: &str, document: &D) -> Option<Kind>
    ensures { (d : Data) → D.holds document.now d → result ≡ first_of (by_members d) (by_file_name name.now d) }
{
    match kind_by_members(document) {
        Some(kind) => Some(kind),
        None => kind_by_file_name(name, document),
    }
}

/// The document's own media type. A descriptor has the media type of what it describes, so one with a `digest` has none of its own.
fn media_type_of<D: Document>(document: &D) -> Option<&str>
    ensures { (d : Data) → D.holds document.now d → option_map (λ s. s.now) result ≡ own_media_type d }
{
    if document.has("digest") {
        return None;
    }
    document.string("mediaType")
}

/// The kind of documents of this media type.
#[tactic(auto, unfolding(crate::specs::FoundKind::of_media_type))]
fn kind_of_media_type(media_type: &str) -> Option<Kind>
    ensures { result ≡ of_media_type media_type.now }
{
    match media_type {
        "application/vnd.oci.image.manifest.v1+json" => Some(Kind::Manifest),
        "application/vnd.docker.distribution.manifest.v2+json" => Some(Kind::Manifest),
        "application/vnd.oci.image.index.v1+json" => Some(Kind::Index),
        "application/vnd.docker.distribution.manifest.list.v2+json" => Some(Kind::Index),
        "application/vnd.oci.artifact.manifest.v1+json" => Some(Kind::Artifact),
        "application/vnd.oci.layout.header.v1+json" => Some(Kind::Layout),
        _ => None,
    }
}

/// The members by which a document of a kind is known: it has all of them.
fn marks_of(kind: Kind) -> &'static [&'static str]
    ensures { names_of result.now ≡ marks kind }
{
    match kind {
        Kind::Manifest => &["config", "layers"],
        Kind::Index => &["manifests"],
        Kind::Config => &["architecture", "os", "rootfs"],
        Kind::Artifact => &["blobs"],
        Kind::Layout => &["imageLayoutVersion"],
        Kind::Descriptor => &["mediaType", "digest", "size"],
        Kind::Error => &["errors"],
        Kind::Repositories => &["repositories"],
        Kind::Tags => &["name", "tags"],
        Kind::Reference => &["registry", "repository"],
        Kind::Spec => &["ociVersion"],
        Kind::State => &["ociVersion", "id", "status", "bundle"],
        Kind::ProcessState => &["ociVersion", "pid", "state"],
        Kind::Features => &["ociVersionMin", "ociVersionMax"],
    }
}

/// The members that a document of a kind has none of. States begin as a configuration does, with `ociVersion`, and have what it has
/// not (runtime specification, "State").
fn foreign_marks_of(kind: Kind) -> &'static [&'static str]
    ensures { names_of result.now ≡ foreign_marks kind }
{
    match kind {
        Kind::Spec => &["status", "pid"],
        _ => &[],
    }
}

/// Whether a document has all members of these names.
fn has_all<D: Document>(document: &D, names: &[&str]) -> bool
    ensures { (d : Data) → D.holds document.now d → result ≡ list_all (has_member d) (names_of names.now) }
{
    for name in names {
        if !document.has(name) {
            return false;
        }
    }
    true
}

/// Whether a document has a member of one of these names.
fn has_any<D: Document>(document: &D, names: &[&str]) -> bool
    ensures { (d : Data) → D.holds document.now d → result ≡ list_any (has_member d) (names_of names.now) }
{
    for name in names {
        if document.has(name) {
            return true;
        }
    }
    false
}

/// Whether a document is known to be of a kind.
fn is_known<D: Document>(kind: Kind, document: &D) -> bool
    ensures { (d : Data) → D.holds document.now d → result ≡ is_known_as d kind }
{
    has_all(document, marks_of(kind)) && !has_any(document, foreign_marks_of(kind))
}

/// The kinds that a document is known to be of.
#[derive(Clone, Copy)]
enum Known {
    Nothing,
    One(Kind),
    Several,
}

/// The same with one kind more.
fn with(known: Known, kind: Kind) -> Known
    ensures { (kinds : List kind_type) → known ≡ counted kinds → result ≡ counted (kinds ++ kind ∷ []) }
{
    match known {
        Known::Nothing => Known::One(kind),
        Known::One(_) | Known::Several => Known::Several,
    }
}

/// The only kind that a document is known to be of.
fn kind_by_members<D: Document>(document: &D) -> Option<Kind>
    ensures { (d : Data) → D.holds document.now d → result ≡ by_members d }
{
    let mut known = Known::Nothing;
    for kind in &KINDS {
        if is_known(*kind, document) {
            known = with(known, *kind);
        }
    }
    match known {
        Known::One(kind) => Some(kind),
        Known::Nothing => None,
        Known::Several => None,
    }
}

/// The kind of files of this name in an image layout, if the document has a member of that kind. A `config.json` may be of several
/// kinds: a bundle's, an image's or a registry client's.
#[tactic(auto, unfolding(crate::specs::FoundKind::by_file_name))]
fn kind_by_file_name<D: Document>(name: &str, document: &D) -> Option<Kind>
    ensures { (d : Data) → D.holds document.now d → result ≡ by_file_name name.now d }
{
    if is_layout(name, document) {
        Some(Kind::Layout)
    } else if is_index(name, document) {
        Some(Kind::Index)
    } else {
        None
    }
}

fn is_layout<D: Document>(name: &str, document: &D) -> bool
    ensures { (d : Data) → D.holds document.now d → result ≡ (is_file name.now (codes "oci-layout") && list_any (has_member d) layout_names) }
{
    is_layout_path(name) && has_any(document, &["imageLayoutVersion"])
}

fn is_index<D: Document>(name: &str, document: &D) -> bool
    ensures { (d : Data) → D.holds document.now d → result ≡ (is_file name.now (codes "index.json") && list_any (has_member d) index_names) }
{
    is_index_path(name) && has_any(document, &INDEX_NAMES)
}

fn is_layout_path(path: &str) -> bool
    ensures { result ≡ is_file path.now (codes "oci-layout") }
{
    let path = path.as_bytes();
    (path == b"oci-layout".as_slice()) | path.ends_with(b"/oci-layout")
}

fn is_index_path(path: &str) -> bool
    ensures { result ≡ is_file path.now (codes "index.json") }
{
    let path = path.as_bytes();
    (path == b"index.json".as_slice()) | path.ends_with(b"/index.json")
}

/// The members of a kind's record.
fn members_of(kind: Kind) -> &'static [Member] {
    match kind.schema() {
        Schema::One(Part::Record(place)) => OciRecords.record(*place).members,
        _ => &[],
    }
}

/// Whether a document could be one of this kind: it has a member that the kind has.
fn is_possible<D: Document>(kind: Kind, document: &D) -> bool {
    members_of(kind)
        .iter()
        .any(|member| document.has(member.name))
}

/// What is said of a manifest of Docker's first format, which has no media type that tells it (Docker Registry, "Image Manifest V 2,
/// Schema 1").
const SCHEMA_1: &str =
    "this is a Docker manifest of schema 1, which no specification of the Open Container Initiative describes";

fn is_schema_1(value: &Value) -> bool {
    value
        .get("schemaVersion")
        .is_some_and(|it| it.as_u64() == Some(1))
        && value.get("fsLayers").is_some()
}

/// Why no kind was found out: that its media type is of none, or else which are possible.
pub fn explain_open(value: &Value, alloc: Global) -> Result<String, AllocError> {
    if is_schema_1(value) {
        return String::from_str(alloc, SCHEMA_1);
    }
    let mut text = String::from_str(alloc, "cannot tell which kind of document this is")?;
    match media_type_of(value) {
        Some(media_type) => push_unknown_type(&mut text, media_type)?,
        None => push_possible(&mut text, value, alloc)?,
    }
    text.push_str("; say which with --kind")?;
    Ok(text)
}

/// Adds that no kind is known by the media type.
fn push_unknown_type(text: &mut String, media_type: &str) -> Result<(), AllocError> {
    text.push_str(": no kind that is known has the media type ")?;
    text.push_str(media_type)
}

/// The kinds that are possible for a document of which none was found: each that has a member that it has. There is none if it says a
/// media type, which alone decides. Fails if out of memory.
pub fn candidates(value: &Value, alloc: Global) -> Result<Vec<Kind>, AllocError> {
    let mut found = Vec::new(alloc);
    if media_type_of(value).is_none() {
        for kind in &KINDS {
            if is_possible(*kind, value) {
                found.push(*kind)?;
            }
        }
    }
    Ok(found)
}

/// Adds the kinds that are possible.
fn push_possible(text: &mut String, value: &Value, alloc: Global) -> Result<(), AllocError> {
    let mut mark = ": it could be ";
    for kind in &candidates(value, alloc)? {
        text.push_str(mark)?;
        text.push_str(kind.title())?;
        mark = ", ";
    }
    Ok(())
}
