//! Files in tar archives on disk: `FILE.tar/PATH` is what lies at a path in the folder that an archive denotes.
use crate::is_file;
use crate::spool::{SpoolError, open_archive};
use oci_verify::BOUNDS;
use std::alloc::Global;
use std::fs::File;
use std::io::{Error, ErrorKind, Read, Seek, SeekFrom, Take};
use std::{fs, io};
use tar::Seekable;
use tar_folder::{
    Compression, Index, IndexError, compression_of, entry_findings, path_of_entry, read_index,
};
use tar_header::read_header;

/// The length of a header.
const BLOCK: u64 = 512;

/// A regular file that is opened, or one in an archive. Fails also for what is no regular file.
pub fn open_file(rt: &HostRuntime, name: &str) -> io::Result<Take<File>> {
    match fs::metadata(rt, name) {
        Ok(about) if about.is_file() => Ok(fs::open(rt, name)?.take(u64::MAX)),
        Ok(_) => Err(Error::new(ErrorKind::InvalidInput, "not a regular file")),
        Err(fault) => open_in_archive(rt, name, fault),
    }
}

/// A file, or one in an archive; it may be a device or a FIFO.
pub fn open_any(rt: &HostRuntime, name: &str) -> io::Result<Take<File>> {
    match fs::open(rt, name) {
        Ok(file) => Ok(file.take(u64::MAX)),
        Err(fault) => open_in_archive(rt, name, fault),
    }
}

/// A file in an archive, or else why what has this name cannot be opened.
fn open_in_archive(rt: &HostRuntime, name: &str, fault: Error) -> io::Result<Take<File>> {
    if fault.kind() != ErrorKind::NotADirectory {
        return Err(fault);
    }
    match split_at_file(rt, name) {
        Some((archive, path)) => open_entry(rt, archive, path),
        None => Err(fault),
    }
}

/// The path of a file, and the path behind it: `a/b.tar` and `index.json` of `a/b.tar/index.json`.
fn split_at_file<'a>(rt: &HostRuntime, name: &'a str) -> Option<(&'a str, &'a str)> {
    let mut front = name;
    for _ in 0..name.len() {
        let (above, _) = front.rsplit_once('/')?;
        if is_file(rt, above) {
            return Some((above, name.get(above.len() + 1..)?));
        }
        front = above;
    }
    None
}

/// What lies at a path in an archive.
fn open_entry(rt: &HostRuntime, archive: &str, path: &str) -> io::Result<Take<File>> {
    let mut archive = Archive::open(rt, archive)?;
    match archive.index.extent_at(rt.alloc(), path)? {
        Some(extent) => {
            archive.file.seek(SeekFrom::Start(extent.offset))?;
            Ok(archive.file.take(extent.size))
        }
        None => Err(Error::new(ErrorKind::NotFound, "no such file in this archive")),
    }
}

/// A tar archive of which all tools unpack the same folder, and where its contents lie.
#[derive(Drop)]
pub struct Archive {
    pub file: File,
    pub index: Index,
}

impl Archive {
    /// The archive of this name. Fails for one of which tools unpack different folders.
    pub fn open(rt: &HostRuntime, name: &str) -> io::Result<Archive> {
        let file = match open_archive(rt, name) {
            Ok(file) => file,
            Err(SpoolError::Io(error)) => return Err(error),
            Err(SpoolError::Gzip(_)) => {
                return Err(Error::new(ErrorKind::InvalidData, "not a gzip file"));
            }
        };
        let reader = Seekable::new(file.try_clone()?)?;
        match read_index(rt.alloc(), reader, BOUNDS) {
            Ok(index) => plain(rt, Archive { file, index }),
            Err(fault) => Err(error_of(fault)),
        }
    }
}

/// The archive, if all tools unpack the same folder of it.
fn plain(rt: &HostRuntime, archive: Archive) -> io::Result<Archive> {
    if entry_findings(rt.alloc(), &archive.index)?.is_empty() {
        Ok(archive)
    } else {
        let why = "an archive that tools unpack differently, which `ciderglen verify` lists";
        Err(Error::new(ErrorKind::InvalidData, why))
    }
}

fn error_of(error: IndexError) -> Error {
    match error {
        IndexError::Memory => Error::from(ErrorKind::OutOfMemory),
        IndexError::Io(error) => error,
        IndexError::Fault(_) => Error::new(ErrorKind::InvalidData, "not a tar archive"),
        IndexError::TooMany => Error::new(
            ErrorKind::InvalidData,
            "an archive with more entries than are read",
        ),
    }
}

/// Whether a regular file begins as a tar archive does, or as one that is compressed with gzip.
pub fn is_archive(rt: &HostRuntime, name: &str) -> bool {
    if !is_file(rt, name) {
        return false;
    }
    match first_block(rt, name) {
        Ok(block) => begins_as_archive(block.as_slice()),
        Err(_) => false,
    }
}

/// The first block of a file, or all of it if it is shorter.
fn first_block(rt: &HostRuntime, name: &str) -> io::Result<Vec<u8>> {
    let mut block = Vec::new(rt.alloc());
    fs::open(rt, name)?.take(BLOCK).read_to_end(&mut block)?;
    Ok(block)
}

fn begins_as_archive(block: &[u8]) -> bool {
    if compression_of(block) == Some(Compression::Gzip) {
        return true;
    }
    block.len() as u64 == BLOCK && matches!(read_header(block), Ok(Some(_)))
}

/// The paths of the regular files in an archive, in their order there.
pub fn paths_in(rt: &HostRuntime, archive: &str, alloc: Global) -> io::Result<Vec<String>> {
    let Archive { index, .. } = Archive::open(rt, archive)?;
    let mut paths = Vec::new(alloc);
    for place in &index.places {
        if let Some(path) = path_of_entry(alloc, &place.entry)? {
            if index.extent_at(alloc, path.as_str())?.is_some() {
                paths.push(path)?;
            }
        }
    }
    Ok(paths)
}
