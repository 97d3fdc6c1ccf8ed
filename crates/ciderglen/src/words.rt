//! The words of the command line, also those that are not UTF-8.
use std::alloc::{AllocError, Global};
use std::env::{Env, FillError};
use std::io;

/// How many bytes a word may have at first; more where it has more.
const PIECE: usize = 4096;

/// How often that is doubled.
const TRIES: u32 = 32;

/// The words of the command line.
#[derive(Drop)]
pub struct Words {
    /// All of them, the program's name first. Of a word that is not UTF-8 each byte that is not is `\xNN`.
    pub all: Vec<String>,
    /// Those that are not UTF-8, but for the program's name.
    pub foreign: Vec<String>,
}

/// The words of the command line. Fails if they cannot be read, or if out of memory.
pub fn words_of<R: Env + AllocGlobal>(rt: &R) -> io::Result<Words> {
    match read_words(rt, rt.alloc()) {
        Ok(words) => Ok(words),
        Err(error) => Err(io::Error::from(error)),
    }
}

fn read_words<R: Env>(rt: &R, alloc: Global) -> Result<Words, AllocError> {
    let mut words = Words {
        all: Vec::new(alloc),
        foreign: Vec::new(alloc),
    };
    for index in 0..usize::MAX {
        let Some(bytes) = word_at(rt, index, alloc)? else {
            break;
        };
        words.add(bytes.as_slice(), alloc)?;
    }
    Ok(words)
}

impl Words {
    /// Adds a word.
    fn add(&mut self, bytes: &[u8], alloc: Global) -> Result<(), AllocError> {
        let word = match std::str::from_utf8(bytes) {
            Ok(text) => String::from_str(alloc, text)?,
            Err(_) => {
                let shown = shown(bytes, alloc)?;
                if !self.all.is_empty() {
                    self.foreign.push(String::from_str(alloc, shown.as_str())?)?;
                }
                shown
            }
        };
        self.all.push(word)?;
        Ok(())
    }

    /// Whether a word is one of those that are not UTF-8.
    pub fn is_foreign(&self, word: &str) -> bool {
        for other in &self.foreign {
            if other.as_str() == word {
                return true;
            }
        }
        false
    }
}

/// The bytes of a word; none behind the last one.
fn word_at<R: Env>(rt: &R, index: usize, alloc: Global) -> Result<Option<Vec<u8>>, AllocError> {
    let mut size = PIECE;
    for _ in 0..TRIES {
        let mut bytes = vec![in alloc; 0u8; size]?;
        match rt.arg(index, bytes.as_mut_slice()) {
            Ok(length) => {
                bytes.truncate(length);
                return Ok(Some(bytes));
            }
            Err(FillError::NotPresent) => return Ok(None),
            Err(FillError::TooLong) => size = size.saturating_mul(2),
        }
    }
    Err(AllocError)
}

/// A text of bytes that are not UTF-8.
fn shown(bytes: &[u8], alloc: Global) -> Result<String, AllocError> {
    let mut text = String::new(alloc);
    let mut rest = bytes;
    for _ in 0..bytes.len() {
        match std::str::from_utf8(rest) {
            Ok(last) => {
                text.push_str(last)?;
                return Ok(text);
            }
            Err(fault) => rest = push_front(&mut text, rest, fault.valid_up_to(), alloc)?,
        }
    }
    Ok(text)
}

/// Adds the valid bytes, which are so many, and the byte behind them, and returns the others.
fn push_front<'b>(
    text: &mut String,
    bytes: &'b [u8],
    valid: usize,
    alloc: Global,
) -> Result<&'b [u8], AllocError> {
    let front = bytes.get(..valid).unwrap_or(b"");
    if let Ok(front) = std::str::from_utf8(front) {
        text.push_str(front)?;
    }
    if let Some(byte) = bytes.get(valid) {
        let byte = *byte;
        let escape = format!(in alloc; "\\x{byte:02x}")?;
        text.push_str(escape.as_str())?;
    }
    Ok(bytes.get(valid.saturating_add(1)..).unwrap_or(b""))
}
