//! The files of the system as a store.
use crate::archives::{open_any, open_file};
use oci_commands::Files;
use oci_content::{Algorithm, Checksum, digest_of_reader};
use std::alloc::Global;
use std::fs::Metadata;
use std::io::{Error, ErrorKind, Read, Write};
use std::os::unix::fs::{MetadataExt, OpenOptionsExt, chown};
use std::random::RandomSource;
use std::{fs, io};

/// What cannot be read, by the name under which it is shown, and why.
#[derive(Drop)]
pub struct Unreadable {
    pub name: String,
    pub why: &'static str,
}

/// The files of the system, and standard input under the name `-`.
#[derive(Drop)]
pub struct SystemFiles<'a> {
    rt: &'a HostRuntime,
    unreadable: &'a [Unreadable],
}

impl<'a> SystemFiles<'a> {
    /// The files that a program reaches.
    pub fn new(rt: &'a HostRuntime) -> SystemFiles<'a> {
        SystemFiles {
            rt,
            unreadable: &[],
        }
    }

    /// The same, but for what is known to be unreadable.
    pub fn without(rt: &'a HostRuntime, unreadable: &'a [Unreadable]) -> SystemFiles<'a> {
        SystemFiles { rt, unreadable }
    }

    /// Fails if something of this name is known to be unreadable.
    fn refuse(&self, name: &str) -> io::Result<()> {
        for it in self.unreadable {
            if it.name.as_str() == name {
                return Err(Error::new(ErrorKind::InvalidFilename, it.why));
            }
        }
        Ok(())
    }
}

/// How many bytes are read at once.
const PIECE: usize = 16384;

impl Files for SystemFiles<'_> {
    fn read(&mut self, alloc: Global, name: &str) -> io::Result<Vec<u8>> {
        let mut bytes = Vec::new(alloc);
        self.refuse(name)?;
        if name == "-" {
            self.rt.stdin().read_to_end(&mut bytes)?;
        } else {
            open_any(self.rt, name)?.read_to_end(&mut bytes)?;
        }
        Ok(bytes)
    }

    fn checksum(&mut self, algorithm: Algorithm, name: &str) -> io::Result<Checksum> {
        let mut buffer = [0u8; PIECE];
        if name == "-" {
            return digest_of_reader(algorithm, &mut self.rt.stdin(), &mut buffer);
        }
        digest_of_reader(algorithm, &mut open_any(self.rt, name)?, &mut buffer)
    }

    fn read_document(&mut self, alloc: Global, name: &str, limit: u64) -> io::Result<Vec<u8>> {
        if name == "-" {
            return read_at_most(alloc, &mut self.rt.stdin(), limit);
        }
        read_at_most(alloc, &mut open_file(self.rt, name)?, limit)
    }

    /// A regular file is replaced by renaming a new one, which has its mode, owner and group, and nothing is written where these
    /// cannot be kept; a link is followed. What is there and is no regular file, such as a device, is written.
    fn replace(&mut self, alloc: Global, name: &str, bytes: &[u8]) -> io::Result<()> {
        match fs::metadata(self.rt, name) {
            Ok(found) if found.is_file() => {
                let path = fs::canonicalize(self.rt, name)?;
                put(self.rt, path.as_str(), Some(&found), bytes)
            }
            Ok(_) => fs::write(self.rt, name, bytes),
            Err(_) => put(self.rt, name, None, bytes),
        }
    }
}

/// All that is left to read, if it is at most so many bytes.
fn read_at_most<R: Read>(alloc: Global, reader: &mut R, limit: u64) -> io::Result<Vec<u8>> {
    let mut bytes = Vec::new(alloc);
    reader
        .by_ref()
        .take(limit.saturating_add(1))
        .read_to_end(&mut bytes)?;
    if bytes.len() as u64 > limit {
        return Err(Error::new(
            ErrorKind::FileTooLarge,
            "too large to be read as a document",
        ));
    }
    Ok(bytes)
}

/// Puts a file with these bytes under a name by renaming a new one. Where that fails, the new one is removed.
fn put(rt: &HostRuntime, name: &str, like: Option<&Metadata>, bytes: &[u8]) -> io::Result<()> {
    let beside = beside(rt, name)?;
    let file = open_new(rt, beside.as_str(), like)?;
    let done = fill(rt, file, beside.as_str(), name, like, bytes);
    if done.is_err() {
        let _ = fs::remove_file(rt, beside.as_str());
    }
    done
}

/// A name of a file in the same folder that nobody can guess.
fn beside(rt: &HostRuntime, name: &str) -> io::Result<String> {
    let mut random = [0u8; 8];
    rt.fill_bytes(&mut random)?;
    let number = u64::from_le_bytes(random);
    let made = match name.rsplit_once('/') {
        Some((folder, _)) => format!(in rt.alloc(); "{folder}/.ciderglen-{number:016x}.tmp"),
        None => format!(in rt.alloc(); ".ciderglen-{number:016x}.tmp"),
    };
    match made {
        Ok(beside) => Ok(beside),
        Err(error) => Err(Error::from(error)),
    }
}

/// A new file, which nobody else can read yet if it is to replace another. Fails if it is there already.
fn open_new(rt: &HostRuntime, name: &str, like: Option<&Metadata>) -> io::Result<fs::File> {
    let mode = if like.is_some() { 0o600 } else { 0o666 };
    fs::OpenOptions::new()
        .write(true)
        .create_new(true)
        .mode(mode)
        .open(rt, name)
}

/// Gives a new file the owner, group and mode of the one that it replaces, writes it down to the disk, and renames it.
fn fill(
    rt: &HostRuntime,
    mut file: fs::File,
    beside: &str,
    name: &str,
    like: Option<&Metadata>,
    bytes: &[u8],
) -> io::Result<()> {
    if let Some(like) = like {
        keep_owner(rt, beside, like)?;
        file.set_permissions(like.permissions())?;
    }
    file.write_all(bytes)?;
    file.sync_all()?;
    fs::rename(rt, beside, name)?;
    sync_folder(rt, name);
    Ok(())
}

/// Gives a file the owner and group of another. Fails if they are not the user's to give.
fn keep_owner(rt: &HostRuntime, name: &str, like: &Metadata) -> io::Result<()> {
    match chown(rt, name, Some(like.uid()), Some(like.gid())) {
        Ok(()) => Ok(()),
        Err(fault) => Err(Error::new(
            fault.kind(),
            "not written, since its owner and group could not be kept",
        )),
    }
}

/// Writes the names of the folder of a file down to the disk, as far as the file system does that: the file is there by then.
fn sync_folder(rt: &HostRuntime, name: &str) {
    let folder = match name.rsplit_once('/') {
        Some(("", _)) => "/",
        Some((folder, _)) => folder,
        None => ".",
    };
    if let Ok(folder) = fs::open(rt, folder) {
        let _ = folder.sync_all();
    }
}
