//! The lines of an image layout as a tree.
ghost use Rattle.std.specs.Prelude.{◌≡◌, ◌⊎◌, ◌<◌, ℕ, [], Bool, true, false, length, map, string_bytes, IsTrue, IfOk, IfSome, OnOk};
ghost use Rattle.std.specs.List.{Contains};
ghost use Rattle.oci_layout.specs.Looks.{Contents, is_unread};
ghost use Rattle.oci_findings.specs.Outlines.{child_entry};
ghost use Rattle.oci_commands.specs.Trees.{AddsLine, AddsRow, AddsTree, AddsTrees, AreSaid, AreTreesIn, IsAgain, IsBelow, IsFoundIn, IsLineOf, IsOpenedAs, IsSaidBy, IsSameDocument, IsWithin, KeepsSaid, has_entries, is_opened as is_read_for, missing_mark, opens};

use oci_base::Result;
use oci_findings::outline::{Child, Mark, Row, below, children_of};
use oci_layout::{
    Claim, DOCUMENT_LIMIT, Fault, ImageLayout, Kind, Opened, Role, Top, read_content,
    read_document, string_under,
};
use serde_json::Value;
use std::alloc::{AllocError, Global};
use std::collections::BTreeMap;

/// How many documents below one another are opened: a stranger's may claim one another without end.
const DEPTH: usize = 16;

/// The lines of these descriptors in a layout, behind each those below it. A document is opened where it is claimed first.
pub fn draw<L: ImageLayout>(
    layout: &L,
    children: Vec<Child>,
    alloc: Global,
    buffer: &mut [u8],
) -> Result<Vec<Row>>
    requires { 0 < length buffer.old }
    ensures said { IfOk result (λ v. AreSaid DOCUMENT_LIMIT (L.steady layout.now) (L.contents layout.now) v.items) }
    ensures trees { IfOk result (λ v. AreTreesIn (L.contents layout.now) [] (map child_entry children.items) v.items) }
{
    let drawing = Drawing { layout, alloc };
    let mut drawn = Drawn {
        rows: Vec::new(alloc),
        places: BTreeMap::new(alloc),
    };
    drawing.draw_all(children, "", DEPTH, &mut drawn, buffer)?;
    let Drawn { rows, places } = drawn;
    Ok(rows)
}

/// The line of a descriptor behind what stands before its level, with a mark; the artifact is of this type if the descriptor says none.
pub fn row_of(
    child: Child,
    before: &str,
    mark: Mark,
    artifact: String,
    alloc: Global,
) -> std::result::Result<Row, AllocError>
    ensures line { IfOk result (IsLineOf before.now (child_entry child)) }
    ensures last { IfOk result (λ r. r.is_last ≡ child.is_last) }
    ensures mark { IfOk result (λ r. r.mark ≡ mark) }
{
    let before = String::from_str(alloc, before)?;
    Ok(Row {
        artifact: said_or(child.artifact, artifact),
        claim: child.claim,
        before,
        is_last: child.is_last,
        label: child.label,
        mark,
    })
}

/// The first text, or the second where that is empty.
fn said_or(said: String, other: String) -> String
    ensures { (string_bytes said ≡ []) ⊎ (string_bytes result ≡ string_bytes said) }
{
    if said.is_empty() { other } else { said }
}

/// What was drawn of a layout.
#[derive(Drop)]
struct Drawn {
    rows: Vec<Row>,
    // where a document was read, among the lines, by a text of its claim
    places: BTreeMap<String, usize>,
}

/// What is found at a descriptor.
#[derive(Drop)]
struct Found {
    mark: Mark,
    // the type of the artifact by the document itself
    artifact: String,
    children: Vec<Child>,
}

impl Found {
    /// A mark alone.
    fn of(mark: Mark, alloc: Global) -> Found
        ensures mark { result.mark ≡ mark }
        ensures children { result.children.items ≡ [] }
    {
        Found {
            mark,
            artifact: String::new(alloc),
            children: Vec::new(alloc),
        }
    }
}

impl Drawn {
    /// Adds the line of a descriptor, and returns those below it.
    fn add(
        &mut self,
        child: Child,
        before: &str,
        found: Found,
        alloc: Global,
    ) -> std::result::Result<Vec<Child>, AllocError>
        ensures row { OnOk result (AddsRow before.now child found.mark self.old.rows.items self.new.rows.items) }
        ensures children { IfOk result (λ v. v ≡ found.children) }
    {
        let Found {
            mark,
            artifact,
            children,
        } = found;
        let row = row_of(child, before, mark, artifact, alloc)?;
        self.rows.push(row)?;
        Ok(children)
    }

    /// Notes that a document is read for the next line.
    fn note(&mut self, key: String) -> std::result::Result<(), AllocError>
        ensures { self.new.rows ≡ self.old.rows }
    {
        drop(self.places.insert(key, self.rows.len())?);
        Ok(())
    }

    /// The line for which a document was read.
    fn line_of(&self, key: &str) -> Option<&Row>
        ensures { IfSome result (λ r. Contains self.now.rows.items r.now) }
    {
        let place = self.places.get(key)?;
        match self.rows.get(*place) {
            Some(row) => Some(row),
            None => None,
        }
    }

    /// What is said of a document that was read already, where it is claimed again; none if it was not, or was too deep there.
    fn known_mark(&self, key: &str, claim: &Claim, depth: usize) -> Option<Mark>
        ensures said { IfSome result (λ m. (limit : ℕ) (steady : Bool) (contents : Contents) → AreSaid limit steady contents self.now.rows.items
            → IsSaidBy limit steady contents claim.now m) }
        ensures closed { IfSome result (λ m. opens claim.now m ≡ false) }
    {
        let row = self.line_of(key)?;
        if is_same_document(&row.claim, claim) {
            mark_again(row.mark, claim, depth)
        } else {
            None
        }
    }
}

/// What is said of a document where it is claimed again, by what was said where it was read; none if it was too deep there, and is not here.
fn mark_again(mark: Mark, claim: &Claim, depth: usize) -> Option<Mark>
    ensures again { IfSome result (IsAgain claim.now mark) }
    ensures closed { IfSome result (λ m. opens claim.now m ≡ false) }
{
    match mark {
        Mark::Plain => Some(mark_of_known(claim)),
        Mark::Above => Some(Mark::Above),
        Mark::Deep => { if depth > 0 { None } else { Some(Mark::Deep) } }
        Mark::Absent => Some(mark_of_missing(claim)),
        Mark::Missing => Some(mark_of_missing(claim)),
        Mark::Unread => None,
        Mark::Unreadable => Some(Mark::Unreadable),
        Mark::TooLarge => Some(Mark::TooLarge),
        Mark::Faulty(fault) => Some(Mark::Faulty(fault)),
    }
}

/// What is said of a document that was read already: that it is shown above, if there is something below it.
fn mark_of_known(claim: &Claim) -> Mark
    ensures there { (result ≡ Mark.Plain) ⊎ (result ≡ Mark.Above) }
    ensures closed { opens claim.now result ≡ false }
{
    if has_children(claim.kind) {
        Mark::Above
    } else {
        Mark::Plain
    }
}

/// Whether two claims are of one document, which is read.
fn is_same_document(claim: &Claim, other: &Claim) -> bool
    ensures { IsTrue result → IsSameDocument claim.now other.now }
{
    is_opened(claim) && claim.digest == other.digest && claim.kind == other.kind
}

/// A layout that is drawn.
struct Drawing<'a, L> {
    layout: &'a L,
    alloc: Global,
}

impl<'a, L> Drop for Drawing<'a, L> {
    fn drop(self) {
        let Drawing { layout, alloc } = self;
    }
}

impl<'a, L: ImageLayout> Drawing<'a, L> {
    /// Draws these descriptors, each with what is below it, so many documents deep.
    #[cycle(draw)]
    fn draw_all(
        &self,
        children: Vec<Child>,
        before: &str,
        depth: usize,
        drawn: &mut Drawn,
        buffer: &mut [u8],
    ) -> Result<()>
        requires { 0 < length buffer.old }
        ensures said { OnOk result (KeepsSaid DOCUMENT_LIMIT (L.steady self.now.layout.now) (L.contents self.now.layout.now) drawn.old.rows.items drawn.new.rows.items) }
        ensures trees { OnOk result (AddsTrees (L.contents self.now.layout.now) before.now (map child_entry children.items) drawn.old.rows.items drawn.new.rows.items) }
    {
        'each: for child in children {
            self.draw_one(child, before, depth, drawn, buffer)?;
        }
        Ok(())
    }

    /// Draws a descriptor with what is below it.
    #[cycle(draw)]
    fn draw_one(
        &self,
        child: Child,
        before: &str,
        depth: usize,
        drawn: &mut Drawn,
        buffer: &mut [u8],
    ) -> Result<()>
        requires { 0 < length buffer.old }
        ensures said { OnOk result (KeepsSaid DOCUMENT_LIMIT (L.steady self.now.layout.now) (L.contents self.now.layout.now) drawn.old.rows.items drawn.new.rows.items) }
        ensures tree { OnOk result (AddsTree (L.contents self.now.layout.now) before.now (child_entry child) drawn.old.rows.items drawn.new.rows.items) }
    {
        let is_last = child.is_last;
        let children = self.draw_line(child, before, depth, drawn, buffer)?;
        if depth == 0 {
            return Ok(());
        }
        let before = below(before, is_last, self.alloc)?;
        self.draw_all(children, before.as_str(), depth - 1, drawn, buffer)
    }

    /// Draws a descriptor alone, and returns those below it.
    fn draw_line(
        &self,
        child: Child,
        before: &str,
        depth: usize,
        drawn: &mut Drawn,
        buffer: &mut [u8],
    ) -> Result<Vec<Child>>
        requires { 0 < length buffer.old }
        ensures said { OnOk result (KeepsSaid DOCUMENT_LIMIT (L.steady self.now.layout.now) (L.contents self.now.layout.now) drawn.old.rows.items drawn.new.rows.items) }
        ensures line { IfOk result (λ v. AddsLine (L.contents self.now.layout.now) before.now child (map child_entry v.items) drawn.old.rows.items drawn.new.rows.items) }
        ensures deep { IfOk result (λ v. depth ≡ 0 → v.items ≡ []) }
    {
        let found = self.look(&child.claim, depth, drawn, buffer)?;
        let children = drawn.add(child, before, found, self.alloc)?;
        Ok(children)
    }

    /// What is found at a claim. A document is read where it is claimed first, and is known from then on.
    fn look(
        &self,
        claim: &Claim,
        depth: usize,
        drawn: &mut Drawn,
        buffer: &mut [u8],
    ) -> Result<Found>
        requires { 0 < length buffer.old }
        ensures kept { drawn.new.rows ≡ drawn.old.rows }
        ensures said { IfOk result (λ f. AreSaid DOCUMENT_LIMIT (L.steady self.now.layout.now) (L.contents self.now.layout.now) drawn.old.rows.items
            → IsSaidBy DOCUMENT_LIMIT (L.steady self.now.layout.now) (L.contents self.now.layout.now) claim.now f.mark) }
        ensures below { IfOk result (λ f. IsBelow (L.contents self.now.layout.now) claim.now f.mark (map child_entry f.children.items)) }
        ensures deep { IfOk result (λ f. depth ≡ 0 → f.children.items ≡ []) }
    {
        if !is_opened(claim) {
            let mark = self.mark_of_bytes(claim)?;
            return Ok(Found::of(mark, self.alloc));
        }
        let key = key_of(claim, self.alloc)?;
        if let Some(mark) = drawn.known_mark(key.as_str(), claim, depth) {
            return Ok(Found::of(mark, self.alloc));
        }
        drawn.note(key)?;
        let found = self.look_into(claim, depth, buffer)?;
        Ok(found)
    }

    /// What is found at a claim of a document.
    fn look_into(&self, claim: &Claim, depth: usize, buffer: &mut [u8]) -> Result<Found>
        requires buffer { 0 < length buffer.old }
        requires opened { is_read_for claim.now ≡ true }
        ensures said { IfOk result (λ f. IsSaidBy DOCUMENT_LIMIT (L.steady self.now.layout.now) (L.contents self.now.layout.now) claim.now f.mark) }
        ensures below { IfOk result (λ f. IsBelow (L.contents self.now.layout.now) claim.now f.mark (map child_entry f.children.items)) }
        ensures deep { IfOk result (λ f. depth ≡ 0 → f.children.items ≡ []) }
    {
        match read_content(
            self.layout,
            self.alloc,
            &claim.digest,
            DOCUMENT_LIMIT,
            buffer,
        )? {
            Top::Bytes(bytes) => {
                let found = look_at(claim.kind, depth, bytes.as_slice(), self.alloc)?;
                Ok(found)
            }
            Top::Missing => Ok(Found::of(mark_of_missing(claim), self.alloc)),
            Top::Unreadable(_) => Ok(Found::of(Mark::Unreadable, self.alloc)),
            Top::TooLarge => Ok(Found::of(Mark::TooLarge, self.alloc)),
        }
    }

    /// What is said of a content that is not opened, by whether it is there.
    fn mark_of_bytes(&self, claim: &Claim) -> Result<Mark>
        ensures { IfOk result (λ m. is_read_for claim.now ≡ false → IsSaidBy DOCUMENT_LIMIT (L.steady self.now.layout.now) (L.contents self.now.layout.now) claim.now m) }
    {
        match self.layout.open(self.alloc, &claim.digest)? {
            Opened::Missing => Ok(mark_of_missing(claim)),
            Opened::Unreadable(_) => Ok(Mark::Unreadable),
            Opened::Content(blob, size) => Ok(mark_of_unopened(claim)),
        }
    }
}

/// What is found in the bytes of a document of a kind.
fn look_at(kind: Kind, depth: usize, bytes: &[u8], alloc: Global) -> Result<Found>
    ensures found { IfOk result (λ f. IsFoundIn kind bytes.now f.mark) }
    ensures within { IfOk result (λ f. IsWithin kind bytes.now f.mark (map child_entry f.children.items)) }
    ensures deep { IfOk result (λ f. depth ≡ 0 → f.children.items ≡ []) }
{
    match read_document(alloc, kind, bytes)?.fault {
        None => look_below(kind, depth, bytes, alloc),
        Some(Fault::Embedded) => look_below(kind, depth, bytes, alloc),
        Some(fault) => Ok(Found::of(Mark::Faulty(fault), alloc)),
    }
}

/// What is below a document of a kind.
fn look_below(kind: Kind, depth: usize, bytes: &[u8], alloc: Global) -> Result<Found>
    requires { IsOpenedAs kind bytes.now }
    ensures found { IfOk result (λ f. IsFoundIn kind bytes.now f.mark) }
    ensures within { IfOk result (λ f. IsWithin kind bytes.now f.mark (map child_entry f.children.items)) }
    ensures deep { IfOk result (λ f. depth ≡ 0 → f.children.items ≡ []) }
{
    let value = Value::from_slice(alloc, bytes)?;
    let children = children_of(kind, &value, alloc)?;
    if is_too_deep(depth, &children) {
        return Ok(Found::of(Mark::Deep, alloc));
    }
    Ok(Found {
        mark: Mark::Plain,
        artifact: artifact_in(kind, &value, alloc)?,
        children,
    })
}

/// Whether there is something below a document that is too deep for it.
fn is_too_deep(depth: usize, children: &Vec<Child>) -> bool
    ensures { result ≡ false → depth ≡ 0 → children.now.items ≡ [] }
{
    depth == 0 && !children.is_empty()
}

/// Whether the content of a claim is read: one of a document, but for a subject, which is shown where it is claimed as a manifest.
fn is_opened(claim: &Claim) -> bool
    ensures { result ≡ is_read_for claim.now }
{
    match claim.role {
        Role::Subject => false,
        _ => match claim.kind.schema() {
            Some(_) => true,
            None => false,
        },
    }
}

/// What is said of a content that is there and not read: a manifest of no known media type is not looked into.
fn mark_of_unopened(claim: &Claim) -> Mark
    ensures { (result ≡ Mark.Plain) ⊎ ((result ≡ Mark.Unread) × IsTrue (is_unread claim.now)) }
{
    match claim.role {
        Role::Manifest if claim.is_unread() => Mark::Unread,
        _ => Mark::Plain,
    }
}

/// A text of a claim of a document, another for each other document.
fn key_of(claim: &Claim, alloc: Global) -> std::result::Result<String, AllocError> {
    let digest = claim.digest.as_ref();
    let kind = claim.kind as u8;
    format!(in alloc; "{digest} {kind}")
}

/// Whether documents of a kind have descriptors.
fn has_children(kind: Kind) -> bool
    ensures { result ≡ has_entries kind }
{
    match kind {
        Kind::Config | Kind::DockerConfig | Kind::Empty | Kind::Opaque => false,
        _ => true,
    }
}

/// The type of an artifact by its manifest, empty where it is none.
fn artifact_in(
    kind: Kind,
    value: &Value,
    alloc: Global,
) -> std::result::Result<String, AllocError> {
    if has_children(kind) {
        String::from_str(alloc, string_under(value, "artifactType"))
    } else {
        Ok(String::new(alloc))
    }
}

fn mark_of_missing(claim: &Claim) -> Mark
    ensures missing { result ≡ missing_mark claim.now }
    ensures closed { opens claim.now result ≡ false }
{
    if claim.may_be_missing() {
        Mark::Absent
    } else {
        Mark::Missing
    }
}
