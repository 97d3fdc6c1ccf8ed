//! A folder as an image layout. What files hold no contract can say.
ghost use Rattle.std.specs.Prelude.{None, false, ⊤};

use crate::path::blob_path;
use crate::pieces::read_sized;
use crate::store::{ImageLayout, Listed, Opened, Store};
use oci_content::{Verdict, verify_reader_bytes};
use oci_text::Digest;
use std::alloc::{AllocError, Global};
use std::io::{Error, ErrorKind};
use std::rt::Files;
use std::{fs, io};

/// The folder of an image layout, by its path.
#[derive(Clone, Copy)]
pub struct Folder<'a, R> {
    pub rt: &'a R,
    pub root: &'a str,
}

impl<'a, R: Files> Store for Folder<'a, R> {
    type Blob = R::File;

    ghost contents = { λ _. None };

    ghost steady = { λ _. false };

    fn open(&self, alloc: Global, digest: &Digest) -> Result<Opened<R::File>, AllocError> {
        let path = blob_path(alloc, digest)?;
        open_file(self.rt, alloc, self.root, path.as_str())
    }

    fn verify(
        &self,
        blob: &mut R::File,
        digest: &str,
        size: u64,
        buffer: &mut [u8],
    ) -> io::Result<Verdict> {
        verify_reader_bytes(digest, size, blob, buffer)
    }

    fn read(
        &self,
        alloc: Global,
        blob: &mut R::File,
        size: u64,
        buffer: &mut [u8],
    ) -> Result<io::Result<Vec<u8>>, AllocError> {
        read_sized(alloc, blob, size, buffer)
    }
}

impl<'a, R: Files + AllocGlobal + Clone + Drop> ImageLayout for Folder<'a, R> {
    ghost tops = { λ _. None };

    ghost names = { λ _ _. ⊤ };

    fn top(&self, alloc: Global, name: &str) -> Result<Opened<R::File>, AllocError> {
        open_file(self.rt, alloc, self.root, name)
    }

    fn list(&self, alloc: Global) -> Result<Vec<Listed>, AllocError> {
        let mut listed = Vec::new(alloc);
        list_folders(self.rt, alloc, self.root, &mut listed)?;
        listed.sort_by(|a, b| a.path.cmp(&b.path))?;
        Ok(listed)
    }
}

/// A file below the root. A link is followed; what is no file, as a folder, a device or a FIFO, is not opened.
fn open_file<R: Files>(
    rt: &R,
    alloc: Global,
    root: &str,
    name: &str,
) -> Result<Opened<R::File>, AllocError> {
    let path = format!(in alloc; "{root}/{name}")?;
    let about = match fs::metadata(rt, path.as_str()) {
        Ok(about) => about,
        Err(fault) => {
            return Ok(if fault.kind() == ErrorKind::NotFound {
                Opened::Missing
            } else {
                Opened::Unreadable(fault)
            });
        }
    };
    if !about.is_file() {
        let fault = Error::new(ErrorKind::InvalidInput, "not a regular file");
        return Ok(Opened::Unreadable(fault));
    }
    match fs::open(rt, path.as_str()) {
        Ok(file) => Ok(Opened::Content(file, Some(about.len()))),
        Err(fault) => Ok(Opened::Unreadable(fault)),
    }
}

/// Adds what lies in the folders of `blobs`.
fn list_folders<R: Files + AllocGlobal + Clone + Drop>(
    rt: &R,
    alloc: Global,
    root: &str,
    listed: &mut Vec<Listed>,
) -> Result<(), AllocError> {
    let blobs = format!(in alloc; "{root}/blobs")?;
    let folders = match fs::read_dir(rt, blobs.as_str()) {
        Ok(folders) => folders,
        Err(fault) => return add_cut(alloc, "blobs", fault, listed),
    };
    for folder in folders {
        match folder {
            Ok(folder) => list_entry(rt, alloc, root, &folder, listed)?,
            Err(fault) => add_cut(alloc, "blobs", fault, listed)?,
        }
    }
    Ok(())
}

/// Adds what lies in a folder of `blobs`.
fn list_entry<R: Files + AllocGlobal + Clone + Drop>(
    rt: &R,
    alloc: Global,
    root: &str,
    folder: &fs::DirEntry<R, Global>,
    listed: &mut Vec<Listed>,
) -> Result<(), AllocError> {
    let name = folder.file_name();
    let path = format!(in alloc; "blobs/{name}")?;
    list_folder(rt, alloc, root, path.as_str(), listed)
}

/// Adds what lies in one folder.
fn list_folder<R: Files + AllocGlobal + Clone + Drop>(
    rt: &R,
    alloc: Global,
    root: &str,
    folder: &str,
    listed: &mut Vec<Listed>,
) -> Result<(), AllocError> {
    let whole = format!(in alloc; "{root}/{folder}")?;
    let files = match fs::read_dir(rt, whole.as_str()) {
        Ok(files) => files,
        Err(fault) => return add_cut(alloc, folder, fault, listed),
    };
    for file in files {
        match file {
            Ok(file) => add_file(rt, alloc, folder, &file, listed)?,
            Err(fault) => add_cut(alloc, folder, fault, listed)?,
        }
    }
    Ok(())
}

/// Adds a file of a folder.
fn add_file<R: Files + AllocGlobal + Clone + Drop>(
    rt: &R,
    alloc: Global,
    folder: &str,
    file: &fs::DirEntry<R, Global>,
    listed: &mut Vec<Listed>,
) -> Result<(), AllocError> {
    let name = file.file_name();
    let path = format!(in alloc; "{folder}/{name}")?;
    let size = fs::metadata(rt, file.path()).ok().map(|about| about.len());
    listed.push(Listed {
        path,
        size,
        fault: None,
    })?;
    Ok(())
}

/// Adds a folder that was not read to its end, and why: that a name in it is not UTF-8, or what the system says.
fn add_cut(
    alloc: Global,
    folder: &str,
    fault: Error,
    listed: &mut Vec<Listed>,
) -> Result<(), AllocError> {
    let fault = if fault.kind() == ErrorKind::InvalidFilename {
        Error::new(ErrorKind::InvalidFilename, "a name in it is not UTF-8")
    } else {
        fault
    };
    listed.push(Listed {
        path: String::from_str(alloc, folder)?,
        size: None,
        fault: Some(fault),
    })?;
    Ok(())
}
