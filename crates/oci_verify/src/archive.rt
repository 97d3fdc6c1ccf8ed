//! Verifying an image layout that lies in a tar archive. Nothing is unpacked.
ghost use Rattle.std.specs.Prelude.{◌≡◌, ◌⊎◌, false, IfSome};
ghost use Rattle.oci_archive.specs.Layouts.{contents_at, tops_at};
ghost use Rattle.tar_folder.specs.Marks.{extents};
ghost use Rattle.tar_folder.specs.Plain.{IsPlainArchive};
ghost use Rattle.oci_verify.specs.Archives.{IsRightArchive, IsRightPlaced, IsSoundArchive, OverBytes};
ghost use Rattle.oci_verify.specs.Layouts.{IsAnswer, OverSteady};

use crate::entries::{broken_as, broken_entries, broken_file, refuse, report};
use crate::progress::Watch;
use crate::verifier::Verifier;
use oci_archive::{Packed, Source};
use oci_base::OciSpecError;
use oci_findings::RuleBooks;
use std::alloc::{AllocError, Global};
use std::io::Write;
use tar::Skip;
use tar_folder::{Bounds, Index, IndexError, entry_findings, read_index};

/// How many entries an archive may have, and how many bytes their names and the targets of their links.
pub const BOUNDS: Bounds = Bounds {
    entries: 1_048_576,
    bytes: 67_108_864,
};

/// A tar archive: its name, its bytes from any place, and a reader of all of them.
#[derive(Drop)]
pub struct ArchiveFile<'a, S, R> {
    pub name: &'a str,
    pub source: &'a S,
    pub reader: R,
}

/// An archive by its index.
struct Placed<'a, S> {
    name: &'a str,
    source: &'a S,
    index: &'a Index,
}

impl<'a, S> Drop for Placed<'a, S> {
    fn drop(self) {
        let Placed {
            name,
            source,
            index,
        } = self;
    }
}

impl<'a, B: RuleBooks, C: Watch> Verifier<'a, B, C> {
    /// Verifies the image layout in an archive as `verify` verifies that in a folder, and returns the exit status: 1 also if the bytes are
    /// not an archive, or if it has an entry that tools unpack differently, which is reported, and nothing is then looked at; and 3 also
    /// if it has more entries than are read.
    pub fn verify_archive<S: Source, R: Skip + Drop, W: Write, E: Write>(
        &self,
        archive: ArchiveFile<'_, S, R>,
        writer: &mut W,
        errors: &mut E,
    ) -> u8
        ensures status { (result ≡ 0) ⊎ ((result ≡ 1) ⊎ (result ≡ 3)) }
        ensures sound { result ≡ 0 → IfSome (R.remaining archive.entry.reader) IsSoundArchive }
        ensures right { self.now.options.now.quick ≡ false → OverBytes (S.steady archive.entry.source.now) (S.bytes archive.entry.source.now) (R.remaining archive.entry.reader)
            (λ bytes. IsAnswer result (IsRightArchive (B.rules self.now.books.now) self.now.options.now bytes)) }
    {
        let ArchiveFile {
            name,
            source,
            reader,
        } = archive;
        match read_index(self.alloc, reader, BOUNDS) {
            Ok(index) => {
                let placed = Placed {
                    name,
                    source,
                    index: &index,
                };
                self.verify_placed(&placed, writer, errors)
            }
            Err(IndexError::Fault(fault)) => {
                let broken = broken_file(source, fault, self.alloc);
                report(name, broken, self.options, self.alloc, writer, errors)
            }
            Err(error) => refuse(&refusal_of(name, error, self.alloc), self.alloc, errors),
        }
    }

    /// Reports that a file is no archive, and what it is, for people; and returns the exit status: 1, or 3 if that could not be said.
    pub fn refuse_archive<W: Write, E: Write>(
        &self,
        name: &str,
        found: &str,
        writer: &mut W,
        errors: &mut E,
    ) -> u8
        ensures { (result ≡ 1) ⊎ (result ≡ 3) }
    {
        let broken = broken_as(found, self.alloc);
        report(name, broken, self.options, self.alloc, writer, errors)
    }

    /// Verifies the layout in the archive that has this index, if it is one folder to all that unpack it.
    fn verify_placed<S: Source, W: Write, E: Write>(
        &self,
        placed: &Placed<'_, S>,
        writer: &mut W,
        errors: &mut E,
    ) -> u8
        ensures status { (result ≡ 0) ⊎ ((result ≡ 1) ⊎ (result ≡ 3)) }
        ensures plain { result ≡ 0 → IsPlainArchive (extents placed.now.index.now.places.items) }
        ensures right { self.now.options.now.quick ≡ false
            → OverSteady (S.steady placed.now.source.now) (tops_at placed.now.index.now.places.items (S.bytes placed.now.source.now)) (contents_at placed.now.index.now.places.items (S.bytes placed.now.source.now))
            (λ tops contents. IsAnswer result (IsRightPlaced (B.rules self.now.books.now) self.now.options.now placed.now.index.now.places.items tops contents)) }
    {
        match entry_findings(self.alloc, placed.index) {
            Ok(found) => {
                if !found.is_empty() {
                    let broken = broken_entries(placed.index, &found, self.alloc);
                    return report(
                        placed.name,
                        broken,
                        self.options,
                        self.alloc,
                        writer,
                        errors,
                    );
                }
                let packed = Packed {
                    source: placed.source,
                    index: placed.index,
                };
                self.verify(&packed, writer, errors)
            }
            Err(_) => refuse(&OciSpecError::Memory, self.alloc, errors),
        }
    }
}

/// Why an archive has no index.
fn refusal_of(name: &str, error: IndexError, alloc: Global) -> OciSpecError {
    let why = match error {
        IndexError::Io(error) => format!(in alloc; "{name}: {error}"),
        IndexError::TooMany => format!(in alloc; "{name}: has more entries than are read"),
        IndexError::Fault(_) => format!(in alloc; "{name}: is not a tar archive"),
        IndexError::Memory => Err(AllocError),
    };
    match why {
        Ok(why) => OciSpecError::Other(why),
        Err(_) => OciSpecError::Memory,
    }
}
