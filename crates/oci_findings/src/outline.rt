//! Indexes and manifests as trees: what their descriptors say, and lines.
ghost use Rattle.std.specs.Prelude.{◌≡◌, ◌++◌, ◌∷◌, [], ◌<◌, codes, map, IfOk, OnOk, option_map, string_bytes};
ghost use Rattle.serde_json.specs.View.{view};
ghost use Rattle.oci_base.specs.Escaped.{escaped};
ghost use Rattle.oci_layout.specs.Claims.{number_at, items_at, item_at};
ghost use Rattle.oci_findings.specs.Outlines.{part, in_unit, large_words, size_words, role_word, platform_words, annotation_words, label, fault_words, mark_words, branch, trunk, row_text, row_line, row_lines, is_whole};
ghost use Rattle.oci_findings.specs.Outlines.{entry_of, child_entry, entries_of, index_entries, manifest_entries, artifact_entries};

use crate::finding::joined;
use oci_base::line_of;
use oci_layout::{
    Claim, Fault, Kind as ContentKind, Role, claim_of_value, descriptor_under, items_under,
    number_under, string_under,
};
use oci_schemas::Kind;
use serde_json::Value;
use std::alloc::{AllocError, Global};

/// What is said of a content where it is shown.
#[derive(Clone, Copy, Debug, PartialEq, Eq)]
pub enum Mark {
    /// Nothing.
    Plain,
    /// It is missing, and may be, as a subject.
    Absent,
    /// It is missing.
    Missing,
    /// It cannot be read, or is no regular file.
    Unreadable,
    /// It is larger than a document may be.
    TooLarge,
    /// It is no document of its media type, and this stands against it.
    Faulty(Fault),
    /// What is below it is shown above.
    Above,
    /// Its media type is of no kind that is known, so it is not looked into.
    Unread,
    /// It is deeper than is shown.
    Deep,
}

impl Mark {
    /// Whether the tree is whole as far as this goes: nothing stands against the content, or it is missing and may be.
    pub fn is_whole(self) -> bool
        ensures { result ≡ is_whole self }
    {
        match self {
            Mark::Plain | Mark::Absent | Mark::Above => true,
            _ => false,
        }
    }

    /// The words that are shown.
    fn words(self) -> &'static str
        ensures { result.now ≡ mark_words self }
    {
        match self {
            Mark::Plain => "",
            Mark::Absent => " (missing, as it may be)",
            Mark::Missing => " (missing)",
            Mark::Unreadable => " (unreadable)",
            Mark::TooLarge => " (too large)",
            Mark::Faulty(fault) => words_of_fault(fault),
            Mark::Above => " (shown above)",
            Mark::Unread => " (not looked into, of no known media type)",
            Mark::Deep => " (not looked into, too deep)",
        }
    }
}

fn words_of_fault(fault: Fault) -> &'static str
    ensures { result.now ≡ fault_words fault }
{
    match fault {
        Fault::NoJson => " (no JSON)",
        Fault::NoDocument => " (no document of its media type)",
        Fault::OtherType => " (a document of another media type)",
        Fault::Ambiguous(_) => " (ambiguous)",
        _ => " (not as claimed)",
    }
}

/// A line of a tree.
#[derive(Debug, Drop)]
pub struct Row {
    /// What its descriptor claims.
    pub claim: Claim,
    /// What stands before all lines of its level.
    pub before: String,
    /// Whether it is the last of its level.
    pub is_last: bool,
    /// What its descriptor says.
    pub label: String,
    /// The type of the artifact, empty where it is none.
    pub artifact: String,
    pub mark: Mark,
}

/// A descriptor in a document.
#[derive(Drop)]
pub struct Child {
    pub claim: Claim,
    /// What it says, but for the type of the artifact.
    pub label: String,
    /// The type of the artifact, empty where it says none.
    pub artifact: String,
    /// Whether it is the last of its document.
    pub is_last: bool,
}

/// As what a document of a kind has descriptors; none if it has none.
pub fn content_kind(kind: Kind) -> Option<ContentKind> {
    match kind {
        Kind::Index => Some(ContentKind::Index),
        Kind::Manifest => Some(ContentKind::Manifest),
        Kind::Artifact => Some(ContentKind::Artifact),
        _ => None,
    }
}

/// The first line of the tree of a document.
pub fn heading(name: &str, title: &str, alloc: Global) -> Result<String, AllocError>
    ensures { IfOk result (λ t. string_bytes t ≡ escaped (name.now ++ (codes ": " ++ title.now)) ++ 10 ∷ []) }
{
    let text = format!(in alloc; "{name}: {title}")?;
    line_of(text.as_str(), alloc)
}

/// Adds the lines of a tree.
pub fn push_rows(text: &mut String, rows: &Vec<Row>, alloc: Global) -> Result<(), AllocError>
    ensures { OnOk result (string_bytes text.new ≡ string_bytes text.old ++ row_lines rows.now.items) }
{
    for row in rows {
        push_row(text, row, alloc)?;
    }
    Ok(())
}

/// Adds a line of a tree.
fn push_row(text: &mut String, row: &Row, alloc: Global) -> Result<(), AllocError>
    ensures { OnOk result (string_bytes text.new ≡ string_bytes text.old ++ row_line row.now) }
{
    let shown = text_of(row, alloc)?;
    let line = line_of(shown.as_str(), alloc)?;
    text.push_str(line.as_str())?;
    Ok(())
}

/// The text of a line: what stands before it, a branch, what its descriptor says, and a mark.
fn text_of(row: &Row, alloc: Global) -> Result<String, AllocError>
    ensures { IfOk result (λ t. string_bytes t ≡ row_text row.now) }
{
    let mut text = String::from_str(alloc, row.before.as_str())?;
    text.push_str(branch_of(row.is_last))?;
    text.push_str(row.label.as_str())?;
    push_part(&mut text, " artifact ", row.artifact.as_str())?;
    text.push_str(row.mark.words())?;
    Ok(text)
}

fn branch_of(is_last: bool) -> &'static str
    ensures { result.now ≡ branch is_last }
{
    if is_last { "└── " } else { "├── " }
}

/// What stands before the lines below a line.
pub fn below(before: &str, is_last: bool, alloc: Global) -> Result<String, AllocError>
    ensures { IfOk result (λ t. string_bytes t ≡ before.now ++ trunk is_last) }
{
    joined(before, trunk_of(is_last), alloc)
}

fn trunk_of(is_last: bool) -> &'static str
    ensures { result.now ≡ trunk is_last }
{
    if is_last { "    " } else { "│   " }
}

/// The descriptors in a document of a kind, which its schema allows, in the order of what it claims. Fails if out of memory.
pub fn children_of(
    kind: ContentKind,
    value: &Value,
    alloc: Global,
) -> Result<Vec<Child>, AllocError>
    ensures { IfOk result (λ v. map child_entry v.items ≡ entries_of kind (view value.now)) }
{
    let mut children = Vec::new(alloc);
    add_document(&mut children, kind, value, alloc)?;
    mark_last(&mut children)?;
    Ok(children)
}

/// Marks the last one.
fn mark_last(children: &mut Vec<Child>) -> Result<(), AllocError>
    ensures { OnOk result (map child_entry children.new.items ≡ map child_entry children.old.items) }
{
    match children.pop() {
        Some(last) => {
            children.push(Child {
                is_last: true,
                ..last
            })?;
            Ok(())
        }
        None => Ok(()),
    }
}

/// Adds the descriptors of a document of a kind.
fn add_document(
    children: &mut Vec<Child>,
    kind: ContentKind,
    value: &Value,
    alloc: Global,
) -> Result<(), AllocError>
    ensures { OnOk result (map child_entry children.new.items ≡ map child_entry children.old.items ++ entries_of kind (view value.now)) }
{
    match kind {
        ContentKind::Index => add_index(children, value, alloc),
        ContentKind::DockerList => add_index(children, value, alloc),
        ContentKind::Manifest => add_manifest(children, value, alloc),
        ContentKind::DockerManifest => add_manifest(children, value, alloc),
        ContentKind::Artifact => add_artifact(children, value, alloc),
        ContentKind::Config
        | ContentKind::DockerConfig
        | ContentKind::Empty
        | ContentKind::Opaque => Ok(()),
    }
}

fn add_index(children: &mut Vec<Child>, value: &Value, alloc: Global) -> Result<(), AllocError>
    ensures { OnOk result (map child_entry children.new.items ≡ map child_entry children.old.items ++ index_entries (view value.now)) }
{
    add_listed(children, Role::Manifest, value, "manifests", alloc)?;
    add_under(children, Role::Subject, value, "subject", alloc)
}

fn add_manifest(children: &mut Vec<Child>, value: &Value, alloc: Global) -> Result<(), AllocError>
    ensures { OnOk result (map child_entry children.new.items ≡ map child_entry children.old.items ++ manifest_entries (view value.now)) }
{
    add_under(children, Role::Config, value, "config", alloc)?;
    add_listed(children, Role::Layer, value, "layers", alloc)?;
    add_under(children, Role::Subject, value, "subject", alloc)
}

fn add_artifact(children: &mut Vec<Child>, value: &Value, alloc: Global) -> Result<(), AllocError>
    ensures { OnOk result (map child_entry children.new.items ≡ map child_entry children.old.items ++ artifact_entries (view value.now)) }
{
    add_listed(children, Role::Blob, value, "blobs", alloc)?;
    add_under(children, Role::Subject, value, "subject", alloc)
}

/// Adds the descriptors of the array under a name.
fn add_listed(
    children: &mut Vec<Child>,
    role: Role,
    value: &Value,
    name: &str,
    alloc: Global,
) -> Result<(), AllocError>
    ensures { OnOk result (map child_entry children.new.items ≡ map child_entry children.old.items ++ map (entry_of role) (items_at name.now (view value.now))) }
{
    match items_under(value, name) {
        Some(items) => add_each(children, role, items, alloc),
        None => Ok(()),
    }
}

fn add_each(
    children: &mut Vec<Child>,
    role: Role,
    items: &Vec<Value>,
    alloc: Global,
) -> Result<(), AllocError>
    ensures { OnOk result (map child_entry children.new.items ≡ map child_entry children.old.items ++ map (λ v. entry_of role (view v)) items.now.items) }
{
    'each: for item in items {
        add_child(children, role, item, alloc)?;
    }
    Ok(())
}

/// Adds the descriptor under a name, if there is one.
fn add_under(
    children: &mut Vec<Child>,
    role: Role,
    value: &Value,
    name: &str,
    alloc: Global,
) -> Result<(), AllocError>
    ensures { OnOk result (map child_entry children.new.items ≡ map child_entry children.old.items ++ map (entry_of role) (item_at name.now (view value.now))) }
{
    match descriptor_under(value, name) {
        Some(descriptor) => add_child(children, role, descriptor, alloc),
        None => Ok(()),
    }
}

fn add_child(
    children: &mut Vec<Child>,
    role: Role,
    descriptor: &Value,
    alloc: Global,
) -> Result<(), AllocError>
    ensures { OnOk result (map child_entry children.new.items ≡ map child_entry children.old.items ++ entry_of role (view descriptor.now) ∷ []) }
{
    let child = child_of(role, descriptor, alloc)?;
    children.push(child)?;
    Ok(())
}

fn child_of(role: Role, descriptor: &Value, alloc: Global) -> Result<Child, AllocError>
    ensures { IfOk result (λ c. child_entry c ≡ entry_of role (view descriptor.now)) }
{
    Ok(Child {
        claim: claim_of_value(alloc, role, descriptor)?,
        label: label_of(role, descriptor, alloc)?,
        artifact: String::from_str(alloc, string_under(descriptor, "artifactType"))?,
        is_last: false,
    })
}

/// What a descriptor says: what it is for, its media type, digest and size, its platform, its tag and what it attests.
pub fn label_of(role: Role, descriptor: &Value, alloc: Global) -> Result<String, AllocError>
    ensures { IfOk result (λ t. string_bytes t ≡ label role (view descriptor.now)) }
{
    let mut text = String::from_str(alloc, word_of(role))?;
    push_part(&mut text, " ", string_under(descriptor, "mediaType"))?;
    push_part(&mut text, " ", string_under(descriptor, "digest"))?;
    push_size(&mut text, descriptor, alloc)?;
    push_platform(&mut text, descriptor_under(descriptor, "platform"))?;
    push_annotations(&mut text, descriptor_under(descriptor, "annotations"))?;
    Ok(text)
}

/// The word of a descriptor's place in its document.
fn word_of(role: Role) -> &'static str
    ensures { result.now ≡ role_word role }
{
    match role {
        Role::Manifest => "manifest",
        Role::Config => "config",
        Role::Layer => "layer",
        Role::Blob => "blob",
        Role::Subject => "subject",
    }
}

/// Adds a part behind a mark, if there is one.
fn push_part(text: &mut String, mark: &str, added: &str) -> Result<(), AllocError>
    ensures { OnOk result (string_bytes text.new ≡ string_bytes text.old ++ part mark.now added.now) }
{
    if added.is_empty() {
        return Ok(());
    }
    text.push_str(mark)?;
    text.push_str(added)?;
    Ok(())
}

fn push_size(text: &mut String, descriptor: &Value, alloc: Global) -> Result<(), AllocError>
    ensures { OnOk result (string_bytes text.new ≡ string_bytes text.old ++ (codes " " ++ size_words (number_at (codes "size") (view descriptor.now)))) }
{
    let size = size_text(number_under(descriptor, "size"), alloc)?;
    text.push_str(" ")?;
    text.push_str(size.as_str())?;
    Ok(())
}

/// Adds the platform that an image runs on, if it is said.
fn push_platform(text: &mut String, platform: Option<&Value>) -> Result<(), AllocError>
    ensures { OnOk result (string_bytes text.new ≡ string_bytes text.old ++ platform_words (option_map (λ v. view v.now) platform.entry)) }
{
    let Some(platform) = platform else {
        return Ok(());
    };
    push_part(text, " ", string_under(platform, "os"))?;
    push_part(text, "/", string_under(platform, "architecture"))?;
    push_part(text, "/", string_under(platform, "variant"))
}

/// Adds the name that an index gives, and what BuildKit attests of another.
fn push_annotations(text: &mut String, annotations: Option<&Value>) -> Result<(), AllocError>
    ensures { OnOk result (string_bytes text.new ≡ string_bytes text.old ++ annotation_words (option_map (λ v. view v.now) annotations.entry)) }
{
    let Some(annotations) = annotations else {
        return Ok(());
    };
    let name = string_under(annotations, "org.opencontainers.image.ref.name");
    push_part(text, " tag ", name)?;
    let attested = string_under(annotations, "vnd.docker.reference.type");
    push_part(text, " ", attested)?;
    let digest = string_under(annotations, "vnd.docker.reference.digest");
    push_part(text, " of ", digest)
}

/// A size in bytes, or in KiB, MiB, GiB or TiB with one decimal, rounded to the nearest.
pub fn size_text(size: u64, alloc: Global) -> Result<String, AllocError>
    ensures { IfOk result (λ t. string_bytes t ≡ size_words size) }
{
    if size < 1024 {
        format!(in alloc; "{size} B")
    } else if size < 1048576 {
        in_units(size, 1024, " KiB", alloc)
    } else {
        large_text(size, alloc)
    }
}

/// The same of 1 MiB and more.
fn large_text(size: u64, alloc: Global) -> Result<String, AllocError>
    ensures { IfOk result (λ t. string_bytes t ≡ large_words size) }
{
    if size < 1073741824 {
        in_units(size, 1048576, " MiB", alloc)
    } else if size < 1099511627776 {
        in_units(size, 1073741824, " GiB", alloc)
    } else {
        in_units(size, 1099511627776, " TiB", alloc)
    }
}

/// A number of bytes in a unit, with one decimal.
fn in_units(size: u64, unit: u64, name: &str, alloc: Global) -> Result<String, AllocError>
    requires { 0 < unit }
    ensures { IfOk result (λ t. string_bytes t ≡ in_unit size unit name.now) }
{
    let tenths = (u128::from(size) * 10 + u128::from(unit / 2)) / u128::from(unit);
    let (whole, tenth) = (tenths / 10, tenths % 10);
    format!(in alloc; "{whole}.{tenth}{name}")
}
