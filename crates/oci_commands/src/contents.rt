//! The command `digest` on files.
ghost use Rattle.std.specs.Prelude.{◌≡◌, ◌++◌, ◌∷◌, [], List, ℕ, true, codes, IfOk, string_bytes};
ghost use Rattle.std.specs.Io.KnownBytes.{Appends};
ghost use Rattle.oci_content.specs.Content.{checksum_of, checksum_text};
ghost use Rattle.oci_base.specs.Escaped.{escaped};
ghost use Rattle.oci_commands.specs.Done.{IsStatus, AppendsEach};
ghost use Rattle.oci_commands.specs.Texts.{IsFileLine};

use crate::files::Files;
use crate::texts::complain_of;
use oci_base::{Result, escaped};
use oci_content::{Algorithm, Checksum, digest_of};
use oci_json::write_text;
use std::alloc::{AllocError, Global};
use std::io::Write;

/// Writes the digest of each file, a line each. Returns 0 if that was done, and 3 if a file could not be read, which a line on standard
/// error says; those of the others are written all the same. Fails if they cannot be written, or if out of memory.
pub fn file_digests<S: Files, W: Write, E: Write>(
    algorithm: Algorithm,
    files: &[&str],
    alloc: Global,
    store: &mut S,
    writer: &mut W,
    errors: &mut E,
) -> Result<u8>
    ensures status { IfOk result IsStatus }
    ensures done { IfOk result (λ s. s ≡ 0 → AppendsEach (λ f. IsFileLine algorithm (S.holds store.old f.now) f.now) files.now (W.contents writer.old) (W.contents writer.new)) }
    ensures read { IfOk result (λ s. ¬ (s ≡ 1)) }
{
    let mut unread = false;
    for name in files {
        if !file_digest(algorithm, name, alloc, store, writer, errors)? {
            unread = true;
        }
    }
    Ok(if unread { 3 } else { 0 })
}

/// Writes the line of a file, and returns whether it could be read.
fn file_digest<S: Files, W: Write, E: Write>(
    algorithm: Algorithm,
    name: &str,
    alloc: Global,
    store: &mut S,
    writer: &mut W,
    errors: &mut E,
) -> Result<bool>
    ensures line { IfOk result (λ b. b ≡ true → (line : List ℕ) × IsFileLine algorithm (S.holds store.old name.now) name.now line × Appends (W.contents writer.old) (W.contents writer.new) line) }
    ensures kept { S.holds store.new ≡ S.holds store.old }
{
    match store.checksum(algorithm, name) {
        Ok(checksum) => {
            let line = checksum_line(&checksum, name, alloc)?;
            write_text(line.as_bytes(), writer)?;
            Ok(true)
        }
        Err(fault) => {
            complain_of(name, &fault, alloc, errors);
            Ok(false)
        }
    }
}

/// The line of a file: the digest of these bytes, and its name behind two spaces.
pub fn digest_line(
    algorithm: Algorithm,
    name: &str,
    bytes: &[u8],
    alloc: Global,
) -> std::result::Result<String, AllocError>
    ensures { IfOk result (λ t. string_bytes t ≡ checksum_text (checksum_of algorithm bytes.now) ++ (codes "  " ++ (escaped name.now ++ 10 ∷ []))) }
{
    checksum_line(&digest_of(algorithm, bytes), name, alloc)
}

fn checksum_line(
    checksum: &Checksum,
    name: &str,
    alloc: Global,
) -> std::result::Result<String, AllocError>
    ensures { IfOk result (λ t. string_bytes t ≡ checksum_text checksum.now ++ (codes "  " ++ (escaped name.now ++ 10 ∷ []))) }
{
    let mut line = checksum.text(alloc)?;
    let shown = escaped(name, alloc)?;
    line.push_str("  ")?;
    line.push_str(shown.as_str())?;
    line.push_str("\n")?;
    Ok(line)
}
