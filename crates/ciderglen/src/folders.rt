//! The documents in folders.
use crate::archives::{is_archive, paths_in};
use crate::files::Unreadable;
use crate::words::Words;
use oci_commands::texts::complain_of;
use oci_policies::Bump;
use std::alloc::{AllocError, Global};
use std::fs;
use std::fs::Metadata;
use std::io::{Error, ErrorKind};

/// The files that are named, and the documents in the folders that are.
#[derive(Drop)]
pub struct Documents<'a> {
    rt: &'a HostRuntime,
    files: Vec<String>,
    /// What is known to be unreadable.
    pub unreadable: Vec<Unreadable>,
}

impl<'a> Documents<'a> {
    /// Those of files and folders by their names, in their order: of a folder the regular files below it whose names end in `.json` or are
    /// `oci-layout`, in the order of the bytes of their names. Links to folders are not followed. What cannot be looked at is among the
    /// files, so that it is said where they are read, and so is a name that is not UTF-8; a folder that has none is said on standard
    /// error. Fails if out of memory.
    pub fn of(
        rt: &'a HostRuntime,
        names: &[&str],
        words: &Words,
    ) -> Result<Documents<'a>, AllocError> {
        let mut found = Documents {
            rt,
            files: Vec::new(rt.alloc()),
            unreadable: Vec::new(rt.alloc()),
        };
        for name in names {
            if words.is_foreign(name) {
                found.refuse(name, "the name is not UTF-8")?;
            } else {
                found.add_named(name)?;
            }
        }
        Ok(found)
    }

    /// The names of the files, in an arena.
    pub fn names<'b>(&self, arena: &'b Bump, alloc: Global) -> Result<&'b [&'b str], AllocError> {
        let mut names: Vec<&'b str> = Vec::new(alloc);
        for file in &self.files {
            names.push(arena.try_alloc_str(file.as_str())?)?;
        }
        let names = arena.try_alloc_slice_copy(names.as_slice())?;
        Ok(names)
    }

    /// Adds a file that is named, or the documents below a folder that is.
    fn add_named(&mut self, name: &str) -> Result<(), AllocError> {
        match fs::metadata(self.rt, name) {
            Ok(about) if about.is_dir() => self.add_below(name),
            Ok(_) if !is_document(name) && is_archive(self.rt, name) => self.add_archive(name),
            _ => self.add(String::from_str(self.rt.alloc(), name)?),
        }
    }

    fn add(&mut self, file: String) -> Result<(), AllocError> {
        self.files.push(file)?;
        Ok(())
    }

    /// Adds the documents below a folder.
    fn add_below(&mut self, folder: &str) -> Result<(), AllocError> {
        let before = self.files.len();
        let mut left = Vec::new(self.rt.alloc());
        self.open(folder, &mut left)?;
        for _ in 0..u64::MAX {
            let Some(path) = left.pop() else {
                break;
            };
            match fs::symlink_metadata(self.rt, path.as_str()) {
                Ok(about) if about.is_dir() => self.open(path.as_str(), &mut left)?,
                Ok(about) => self.add_if_document(path, &about)?,
                Err(_) => self.add(path)?,
            }
        }
        if self.files.len() == before {
            self.say(folder, &"there are no documents in this folder");
        }
        Ok(())
    }

    /// Adds the documents in an archive.
    fn add_archive(&mut self, archive: &str) -> Result<(), AllocError> {
        let alloc = self.rt.alloc();
        let Ok(paths) = paths_in(self.rt, archive, alloc) else {
            // why it cannot be read is said where the first document in it is
            return self.add(joined(archive, "index.json", alloc)?);
        };
        let before = self.files.len();
        for path in &paths {
            if is_document(path.as_str()) {
                self.add(joined(archive, path.as_str(), alloc)?)?;
            }
        }
        if self.files.len() == before {
            self.say(archive, &"there are no documents in this archive");
        }
        Ok(())
    }

    /// Adds what lies in a folder to what is left to look at, the last of it first.
    fn open(&mut self, folder: &str, left: &mut Vec<String>) -> Result<(), AllocError> {
        let entries = match fs::read_dir(self.rt, folder) {
            Ok(entries) => entries,
            Err(_) => return self.add(String::from_str(self.rt.alloc(), folder)?),
        };
        let mut paths = Vec::new(self.rt.alloc());
        for entry in entries {
            match entry {
                Ok(entry) => paths.push(joined(folder, entry.file_name(), self.rt.alloc())?)?,
                Err(fault) => self.add_cut(folder, &fault)?,
            }
        }
        paths.sort()?;
        paths.reverse();
        left.append(&mut paths)
    }

    /// Adds a file, if it is a document by its name.
    fn add_if_document(&mut self, path: String, about: &Metadata) -> Result<(), AllocError> {
        if is_document(path.as_str()) && self.is_file(path.as_str(), about) {
            self.add(path)?;
        }
        Ok(())
    }

    /// Whether it is a regular file, or a link to what is no folder: what is wrong with that is said where it is read.
    fn is_file(&self, path: &str, about: &Metadata) -> bool {
        if !about.is_symlink() {
            return about.is_file();
        }
        match fs::metadata(self.rt, path) {
            Ok(target) => target.is_file(),
            Err(_) => true,
        }
    }

    /// Adds a folder that cannot be listed to its end.
    fn add_cut(&mut self, folder: &str, fault: &Error) -> Result<(), AllocError> {
        let why = if fault.kind() == ErrorKind::InvalidFilename {
            "a name in this folder is not UTF-8"
        } else {
            "this folder cannot be listed to its end"
        };
        self.refuse(folder, why)
    }

    /// Adds what cannot be read, and why.
    fn refuse(&mut self, name: &str, why: &'static str) -> Result<(), AllocError> {
        let shown = String::from_str(self.rt.alloc(), name)?;
        self.unreadable.push(Unreadable { name: shown, why })?;
        self.add(String::from_str(self.rt.alloc(), name)?)
    }

    fn say(&self, path: &str, told: &&str) {
        complain_of(path, told, self.rt.alloc(), &mut self.rt.stderr());
    }
}

/// Whether a file is a document by its name.
fn is_document(path: &str) -> bool {
    let name = match path.rsplit_once('/') {
        Some((_, name)) => name,
        None => path,
    };
    name == "oci-layout" || name.ends_with(".json")
}

/// The path of what lies in a folder.
fn joined(folder: &str, name: &str, alloc: Global) -> Result<String, AllocError> {
    let folder = folder.trim_end_matches('/');
    format!(in alloc; "{folder}/{name}")
}
