//! Archives that cannot be read at offsets, as standard input and compressed files, in files without a name.
ghost use Rattle.std.specs.Prelude.{◌≡◌, ◌++◌, Some};

use gzip::{GzipError, Sink};
use inflate::Fault;
use std::fs::File;
use std::io::{Error, ErrorKind, Read, Seek, SeekFrom, Write};
use std::os::unix::fs::OpenOptionsExt;
use std::random::RandomSource;
use std::{env, fs, io};
use tar_folder::{Compression, compression_of};

/// How many bytes tell how a file is compressed.
const FRONT: usize = 6;

/// How many bytes are copied at once.
const PIECE: usize = 65536;

/// How many bytes a copy may have: 64 GiB. A gzip file may denote a thousand times its bytes.
const MOST: u64 = 68_719_476_736;

/// Why there is no archive to be read.
#[derive(Drop)]
pub enum SpoolError {
    /// The file cannot be read, or the copy of it not be written.
    Io(Error),
    /// It is no gzip file.
    Gzip(GzipError),
}

impl From<Error> for SpoolError {
    fn from(error: Error) -> SpoolError {
        SpoolError::Io(error)
    }
}

/// An archive that can be read at offsets: the file of this name, or, where it is compressed with gzip or `-`, standard input, a copy of
/// what it denotes, in a file of the folder for temporary files that has no name, and is gone once it is closed.
pub fn open_archive(rt: &HostRuntime, name: &str) -> Result<File, SpoolError> {
    if name == "-" {
        return spooled(rt, &mut rt.stdin());
    }
    let mut file = fs::open(rt, name)?;
    if front_of(rt, &mut file)?.starts_with(b"\x1f\x8b") {
        file.seek(SeekFrom::Start(0))?;
        return spooled(rt, &mut file);
    }
    Ok(file)
}

/// The first bytes of what is left to read: six, or fewer if no more are left.
fn front_of<R: Read>(rt: &HostRuntime, reader: &mut R) -> io::Result<Vec<u8>> {
    let mut front = Vec::new(rt.alloc());
    reader.by_ref().take(FRONT as u64).read_to_end(&mut front)?;
    Ok(front)
}

/// A file without a name that holds what the reader's bytes denote: their text, if they are compressed with gzip.
fn spooled<R: Read>(rt: &HostRuntime, reader: &mut R) -> Result<File, SpoolError> {
    let file = nameless(rt)?;
    let front = front_of(rt, reader)?;
    let mut whole = front.as_slice().chain(reader.by_ref());
    if compression_of(front.as_slice()) == Some(Compression::Gzip) {
        match gzip::decode(rt.alloc(), whole, Copied { file, left: MOST }) {
            Ok(copied) => Ok(copied.into_file()),
            Err(error) => Err(error_of(error)),
        }
    } else {
        Ok(with_all(&mut whole, file)?)
    }
}

/// Why a gzip file was not read to its end: for what it holds, or for another reason.
fn error_of(error: GzipError) -> SpoolError {
    match error {
        GzipError::Text(Fault::Read(error)) => SpoolError::Io(error),
        GzipError::Text(Fault::Write(error)) => SpoolError::Io(error),
        GzipError::Text(Fault::Memory) => SpoolError::Io(Error::from(ErrorKind::OutOfMemory)),
        error => SpoolError::Gzip(error),
    }
}

/// The file with all that is left to read.
fn with_all<R: Read>(reader: &mut R, file: File) -> io::Result<File> {
    let mut copied = Copied { file, left: MOST };
    let mut buffer = [0u8; PIECE];
    for _ in 0..u64::MAX {
        let count = reader.read(&mut buffer)?;
        if count == 0 {
            break;
        }
        copied.take(&buffer[..count])?;
    }
    Ok(copied.into_file())
}

/// A file that takes so many bytes more.
struct Copied<W: Write + Drop> {
    file: W,
    left: u64,
}

impl<W: Write + Drop> Copied<W> {
    fn into_file(self) -> W {
        let Copied { file, left: _ } = self;
        file
    }
}

impl<W: Write + Drop> Drop for Copied<W> {
    fn drop(self) {
        let Copied { file: _, left: _ } = self;
    }
}

impl<W: Write + Drop> Sink for Copied<W> {
    ghost holds = { λ o before t. W.contents o.file ≡ Some (before ++ t) };

    fn take(&mut self, piece: &[u8]) -> io::Result<()> {
        let Some(left) = self.left.checked_sub(piece.len() as u64) else {
            let why = "denotes more than 64 GiB: decompress it to a file first";
            return Err(Error::new(ErrorKind::FileTooLarge, why));
        };
        self.left = left;
        self.file.write_all(piece)?;
        Ok(())
    }
}

/// A new file that nobody else can open, whose name is taken away at once.
fn nameless(rt: &HostRuntime) -> io::Result<File> {
    let mut random = [0u8; 8];
    rt.fill_bytes(&mut random)?;
    let number = u64::from_le_bytes(random);
    let folder = env::temp_dir(rt)?;
    let folder = folder.to_string_lossy();
    let Ok(name) = format!(in rt.alloc(); "{folder}/ciderglen-{number:016x}.tmp") else {
        return Err(Error::from(ErrorKind::OutOfMemory));
    };
    let file = fs::OpenOptions::new()
        .read(true)
        .write(true)
        .create_new(true)
        .mode(0o600)
        .open(rt, name.as_str())?;
    fs::remove_file(rt, name.as_str())?;
    Ok(file)
}
