//! What is written of an image.
ghost use Rattle.std.specs.Prelude.{◌++◌, ◌∷◌, [], ◌<◌, ℕ, List, length, IfErr, OnOk, IfSome};
ghost use Rattle.std.specs.Io.KnownBytes.{Appends};
ghost use Rattle.oci_inspect.specs.Found.{OverLayout};
ghost use Rattle.oci_inspect.specs.Shown.{IsShown, IsSummary, IsUnshown, IsUnwritten, IsWritten, WritesConfig};

use crate::asked::{Inspect, Part};
use crate::contents::Contents;
use crate::fault::InspectError;
use crate::find::find_image;
use crate::image::FoundImage;
use oci_json::write_text;
use oci_layout::{ImageLayout, Store};
use std::alloc::Global;
use std::io;
use std::io::Write;

/// How many bytes are read at once.
const PIECE: usize = 65536;

/// Finds an image, and writes what is asked of it.
pub(crate) fn show<L: ImageLayout, W: Write>(
    layout: &L,
    asked: &Inspect<'_>,
    alloc: Global,
    writer: &mut W,
) -> Result<(), InspectError>
    ensures ok { OnOk result (OverLayout (L.tops layout.now) (L.contents layout.now)
        (λ tops contents. IsShown asked.now tops contents (W.contents writer.old) (W.contents writer.new))) }
    ensures err { IfErr result (λ e. OverLayout (L.tops layout.now) (L.contents layout.now)
        (λ tops contents. IsUnshown asked.now (L.steady layout.now) tops contents e)) }
{
    let mut buffer = vec![in alloc; 0u8; PIECE]?;
    let buffer = buffer.as_mut_slice();
    let contents = Contents {
        store: layout,
        alloc,
    };
    match find_image(layout, &asked.wanted, alloc, buffer) {
        Ok(found) => write_part(&contents, &found, asked, buffer, writer),
        Err(error) => Err(InspectError::NotFound(error)),
    }
}

/// Writes what is asked of an image.
fn write_part<S: Store, W: Write>(
    contents: &Contents<'_, S>,
    found: &FoundImage,
    asked: &Inspect<'_>,
    buffer: &mut [u8],
    writer: &mut W,
) -> Result<(), InspectError>
    requires { 0 < length buffer.old }
    ensures ok { OnOk result (IfSome (S.contents contents.now.store.now)
        (λ k. IsWritten k asked.now.part asked.now.style found.now (W.contents writer.old) (W.contents writer.new))) }
    ensures err { IfErr result (λ e. IfSome (S.contents contents.now.store.now) (λ k. IsUnwritten (S.steady contents.now.store.now) k found.now e)) }
{
    match asked.part {
        Part::Manifest => Ok(write_text(found.bytes.as_slice(), writer)?),
        Part::Digest => Ok(write_digest(found, writer)?),
        Part::Config => write_config(contents, found, buffer, writer),
        Part::Summary => write_summary(contents, found, asked, buffer, writer),
    }
}

/// Writes the digest of a manifest, and a newline.
fn write_digest<W: Write>(found: &FoundImage, writer: &mut W) -> io::Result<()>
    ensures { OnOk result (Appends (W.contents writer.old) (W.contents writer.new) (found.now.descriptor.digest ++ 10 ∷ [])) }
{
    write_text(found.descriptor.digest().as_ref().as_bytes(), writer)?;
    write_text(b"\n", writer)
}

/// Writes the bytes of the configuration of an image.
fn write_config<S: Store, W: Write>(
    contents: &Contents<'_, S>,
    found: &FoundImage,
    buffer: &mut [u8],
    writer: &mut W,
) -> Result<(), InspectError>
    requires { 0 < length buffer.old }
    ensures ok { OnOk result (IfSome (S.contents contents.now.store.now) (λ k. WritesConfig k found.now (W.contents writer.old) (W.contents writer.new))) }
    ensures err { IfErr result (λ e. IfSome (S.contents contents.now.store.now) (λ k. IsUnwritten (S.steady contents.now.store.now) k found.now e)) }
{
    let config = contents.config_of(&found.descriptor, found.bytes.as_slice(), buffer)?;
    Ok(write_text(config.as_slice(), writer)?)
}

/// Writes the summary of an image.
fn write_summary<S: Store, W: Write>(
    contents: &Contents<'_, S>,
    found: &FoundImage,
    asked: &Inspect<'_>,
    buffer: &mut [u8],
    writer: &mut W,
) -> Result<(), InspectError>
    requires { 0 < length buffer.old }
    ensures ok { OnOk result ((text : List ℕ) × IsSummary asked.now.style found.now.descriptor.digest text × Appends (W.contents writer.old) (W.contents writer.new) text) }
    ensures err { IfErr result (λ e. IfSome (S.contents contents.now.store.now) (λ k. IsUnwritten (S.steady contents.now.store.now) k found.now e)) }
{
    let text = contents.summary_of(found, asked, buffer)?;
    Ok(write_text(text.as_bytes(), writer)?)
}
