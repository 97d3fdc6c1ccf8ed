//! The command `tree`: an index, a manifest or an image layout as a tree.
ghost use Rattle.std.specs.Prelude.{◌≡◌, ◌↔◌, ◌<◌, false, codes, length, map, string_bytes, IsTrue, IfOk, IfSome, OnOk};
ghost use Rattle.oci_findings.specs.Outlines.{child_entry};
ghost use Rattle.oci_commands.specs.Done.{IsStatus};
ghost use Rattle.oci_commands.specs.Trees.{AreAlone, AreIndexTrees, AreSaid, HasNoTree, IsDrawn, IsWhole, TellsWhole, WroteAlone, WroteTree, content_of, tree_text as text_of};

use crate::drawing::{draw, row_of};
use crate::files::Files;
use crate::program::report;
use crate::texts::{complain_of, is_wrong};
use oci_base::Result;
use oci_findings::inspect::kind_of;
use oci_findings::outline::{Child, Mark, Row, children_of, heading, push_rows};
use oci_json::write_text;
use oci_layout::{DOCUMENT_LIMIT, ImageLayout, Kind as ContentKind, Top, read_top};
use oci_schemas::Kind;
use serde_json::Value;
use std::alloc::{AllocError, Global};
use std::io::Write;

/// How many bytes are read at once.
const PIECE: usize = 65536;

/// Writes a document as a tree of what it claims. Returns 0 if that was done, 1 if the document is invalid or of a kind that has no tree,
/// and 3 if it is no regular file of at most 4 MiB that can be read.
pub fn tree<S: Files, W: Write, E: Write>(
    file: &str,
    alloc: Global,
    store: &mut S,
    writer: &mut W,
    errors: &mut E,
) -> Result<u8>
    ensures status { IfOk result IsStatus }
    ensures wrote { IfOk result (λ s. s ≡ 0 → IfSome (S.holds store.old file.now) (λ bytes. WroteAlone file.now bytes (W.contents writer.old) (W.contents writer.new))) }
    ensures wrong { IfOk result (λ s. s ≡ 1 → IfSome (S.holds store.old file.now) (HasNoTree file.now)) }
{
    match store.read_document(alloc, file, DOCUMENT_LIMIT) {
        Ok(bytes) => {
            let status = tree_of_bytes(file, bytes.as_slice(), alloc, writer, errors)?;
            Ok(status)
        }
        Err(fault) => {
            complain_of(file, &fault, alloc, errors);
            Ok(3)
        }
    }
}

fn tree_of_bytes<W: Write, E: Write>(
    file: &str,
    bytes: &[u8],
    alloc: Global,
    writer: &mut W,
    errors: &mut E,
) -> Result<u8>
    ensures status { IfOk result IsStatus }
    ensures wrote { IfOk result (λ s. s ≡ 0 → WroteAlone file.now bytes.now (W.contents writer.old) (W.contents writer.new)) }
    ensures wrong { IfOk result (λ s. s ≡ 1 → HasNoTree file.now bytes.now) }
{
    if is_wrong(None, file, bytes, alloc, errors)? {
        return Ok(1);
    }
    let value = Value::from_slice(alloc, bytes)?;
    let Some(kind) = kind_of(None, file, &value) else {
        return Ok(1);
    };
    let Some(content) = content_kind(kind) else {
        say_no_tree(file, kind, alloc, errors)?;
        return Ok(1);
    };
    let children = children_of(content, &value, alloc)?;
    let rows = rows_of(children, alloc)?;
    write_tree(file, kind.title(), &rows, alloc, writer)?;
    Ok(0)
}

/// As what a document of a kind has descriptors; none if the kind has no tree.
fn content_kind(kind: Kind) -> Option<ContentKind>
    ensures { result ≡ content_of kind }
{
    match kind {
        Kind::Index => Some(ContentKind::Index),
        Kind::Manifest => Some(ContentKind::Manifest),
        Kind::Artifact => Some(ContentKind::Artifact),
        _ => None,
    }
}

fn say_no_tree<E: Write>(name: &str, kind: Kind, alloc: Global, errors: &mut E) -> Result<()> {
    let title = kind.title();
    let text = format!(in alloc; "{title} has no tree")?;
    complain_of(name, &text, alloc, errors);
    Ok(())
}

/// The lines of these descriptors alone.
fn rows_of(children: Vec<Child>, alloc: Global) -> std::result::Result<Vec<Row>, AllocError>
    ensures { IfOk result (λ v. AreAlone (map child_entry children.items) v.items) }
{
    let mut rows = Vec::new(alloc);
    'each: for child in children {
        let row = row_of(child, "", Mark::Plain, String::new(alloc), alloc)?;
        rows.push(row)?;
    }
    Ok(rows)
}

/// Writes the lines of a document of this name and title.
fn write_tree<W: Write>(
    name: &str,
    title: &str,
    rows: &Vec<Row>,
    alloc: Global,
    writer: &mut W,
) -> Result<()>
    ensures { OnOk result (WroteTree name.now title.now (W.contents writer.old) (W.contents writer.new) rows.now.items) }
{
    let text = tree_text(name, title, rows, alloc)?;
    write_text(text.as_bytes(), writer)?;
    Ok(())
}

fn tree_text(
    name: &str,
    title: &str,
    rows: &Vec<Row>,
    alloc: Global,
) -> std::result::Result<String, AllocError>
    ensures { IfOk result (λ t. string_bytes t ≡ text_of name.now title.now rows.now.items) }
{
    let mut text = heading(name, title, alloc)?;
    push_rows(&mut text, rows, alloc)?;
    Ok(text)
}

/// Writes an image layout as a tree, from its `index.json` on, which is shown under this name. Each document is opened once, where it is
/// claimed first, below at most 16 others. Sizes and digests are not looked at. Returns 0 if the tree is whole, 1 if the index is no
/// index, or if something is marked that is not there, cannot be read, is no document of its media type, or is not looked into; and 3 if
/// the index cannot be read, if the tree cannot be written, or if out of memory.
pub fn tree_of_layout<L: ImageLayout, W: Write, E: Write>(
    layout: &L,
    name: &str,
    alloc: Global,
    writer: &mut W,
    errors: &mut E,
) -> u8
    ensures status { IsStatus result }
    ensures drawn { IsDrawn DOCUMENT_LIMIT (L.steady layout.now) (L.tops layout.now) (L.contents layout.now) name.now (W.contents writer.old) (W.contents writer.new) result }
{
    match draw_layout(layout, name, alloc, writer, errors) {
        Ok(status) => status,
        Err(error) => {
            report(&error, alloc, errors);
            3
        }
    }
}

fn draw_layout<L: ImageLayout, W: Write, E: Write>(
    layout: &L,
    name: &str,
    alloc: Global,
    writer: &mut W,
    errors: &mut E,
) -> Result<u8>
    ensures status { IfOk result IsStatus }
    ensures drawn { IfOk result (IsDrawn DOCUMENT_LIMIT (L.steady layout.now) (L.tops layout.now) (L.contents layout.now) name.now (W.contents writer.old) (W.contents writer.new)) }
{
    let mut buffer = vec![in alloc; 0u8; PIECE]?;
    let buffer = buffer.as_mut_slice();
    match read_top(layout, alloc, "index.json", DOCUMENT_LIMIT, buffer)? {
        Top::Bytes(bytes) => {
            if is_wrong(Some(Kind::Index), name, bytes.as_slice(), alloc, errors)? {
                return Ok(1);
            }
            let rows = draw_index(layout, bytes.as_slice(), alloc, buffer)?;
            write_rows(name, &rows, alloc, writer)
        }
        Top::Missing => {
            complain_of(name, &"missing", alloc, errors);
            Ok(3)
        }
        Top::TooLarge => {
            complain_of(name, &"too large to be read as a document", alloc, errors);
            Ok(3)
        }
        Top::Unreadable(why) => {
            complain_of(name, &why, alloc, errors);
            Ok(3)
        }
    }
}

/// The lines of an index in a layout.
fn draw_index<L: ImageLayout>(
    layout: &L,
    bytes: &[u8],
    alloc: Global,
    buffer: &mut [u8],
) -> Result<Vec<Row>>
    requires { 0 < length buffer.old }
    ensures said { IfOk result (λ v. AreSaid DOCUMENT_LIMIT (L.steady layout.now) (L.contents layout.now) v.items) }
    ensures trees { IfOk result (λ v. AreIndexTrees (L.contents layout.now) bytes.now v.items) }
{
    let value = Value::from_slice(alloc, bytes)?;
    let children = children_of(ContentKind::Index, &value, alloc)?;
    let rows = draw(layout, children, alloc, buffer)?;
    Ok(rows)
}

/// Writes the lines of an index, and returns the status: 0 if they are whole, and else 1.
fn write_rows<W: Write>(name: &str, rows: &Vec<Row>, alloc: Global, writer: &mut W) -> Result<u8>
    ensures wrote { IfOk result (λ s. WroteTree name.now (codes "an image index") (W.contents writer.old) (W.contents writer.new) rows.now.items) }
    ensures told { IfOk result (TellsWhole rows.now.items) }
    ensures status { IfOk result IsStatus }
{
    write_tree(name, "an image index", rows, alloc, writer)?;
    Ok(status_of(are_whole(rows)))
}

/// Whether the tree is whole as far as its lines go.
fn are_whole(rows: &Vec<Row>) -> bool
    ensures { IsTrue result ↔ IsWhole rows.now.items }
{
    rows.iter().all(|row| row.mark.is_whole())
}

fn status_of(is_whole: bool) -> u8
    ensures status { IsStatus result }
    ensures whole { IsTrue is_whole → result ≡ 0 }
    ensures part { is_whole ≡ false → result ≡ 1 }
{
    if is_whole { 0 } else { 1 }
}
