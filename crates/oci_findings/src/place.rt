//! Where the parts of a JSON text are: lines and columns. The text is read a second time, by a reader that knows where it is.
use json::{Reader, Scratch, Token};
use std::alloc::{AllocError, Global};
use std::collections::BTreeMap;

/// A place in a text. Lines and columns begin at 1; a column counts characters.
#[derive(Clone, Copy)]
pub struct Place {
    /// The line.
    pub line: u64,
    /// The column.
    pub column: u64,
}

/// The beginning of a text.
pub const START: Place = Place { line: 1, column: 1 };

/// The place behind these bytes.
pub fn place_behind(bytes: &[u8]) -> Place {
    step_over(START, bytes)
}

/// The place behind the bytes that begin at a place.
fn step_over(from: Place, bytes: &[u8]) -> Place {
    let mut line = from.line;
    let mut column = from.column;
    for byte in bytes {
        if *byte == b'\n' {
            line = line.saturating_add(1);
            column = 1;
        } else if *byte & 0xc0 != 0x80 {
            column = column.saturating_add(1);
        }
    }
    Place { line, column }
}

/// An array or object that a reader is in.
#[derive(Clone, Copy, Drop)]
struct Frame {
    /// How long its pointer is.
    len: usize,
    /// The index of the next item, where it is an array.
    next: Option<u64>,
}

/// The places of those parts that are asked for, by their JSON pointers.
#[derive(Drop)]
pub struct Places {
    found: BTreeMap<Vec<u8>, Place>,
}

impl Places {
    /// No part is asked for.
    pub fn new(alloc: Global) -> Places {
        Places {
            found: BTreeMap::new(alloc),
        }
    }

    /// Whether no part is asked for.
    pub fn is_empty(&self) -> bool {
        self.found.is_empty()
    }

    /// Asks for the part at this pointer, and for the part that holds it.
    pub fn ask(&mut self, pointer: &str, alloc: Global) -> Result<(), AllocError> {
        self.ask_for(pointer.as_bytes(), alloc)?;
        if let Some((holder, _)) = pointer.rsplit_once('/') {
            self.ask_for(holder.as_bytes(), alloc)?;
        }
        Ok(())
    }

    fn ask_for(&mut self, pointer: &[u8], alloc: Global) -> Result<(), AllocError> {
        if !self.found.contains_key(pointer) {
            let key = Vec::from_slice(alloc, pointer)?;
            drop(self.found.insert(key, Place { line: 0, column: 0 })?);
        }
        Ok(())
    }

    /// Finds all parts that were asked for in a text.
    pub fn find(&mut self, text: &str, alloc: Global) -> Result<(), AllocError> {
        let mut scratch = Scratch::new(alloc);
        let mut reader = Reader::new(text, &mut scratch)?;
        let mut walk = Walk::new(alloc);
        for _ in 0..usize::MAX {
            let offset = reader.offset();
            let Some(token) = reader.next() else {
                return Ok(());
            };
            walk.step_to(text.as_bytes(), offset);
            if walk.enter(token)? {
                self.note(&walk);
            }
        }
        Ok(())
    }

    /// Notes where the part that a walk met is, if it was asked for.
    fn note(&mut self, walk: &Walk) {
        if let Some(place) = self.found.get_mut(walk.pointer.as_slice()) {
            *place = walk.place;
        }
    }

    /// Where the part at this pointer begins, or else the part that holds it, or else the text.
    pub fn place_of(&self, pointer: &str) -> Place {
        if let Some(place) = self.found_at(pointer.as_bytes()) {
            return place;
        }
        match pointer.rsplit_once('/') {
            Some((holder, _)) => self.found_at(holder.as_bytes()).unwrap_or(START),
            None => START,
        }
    }

    fn found_at(&self, pointer: &[u8]) -> Option<Place> {
        let place = self.found.get(pointer)?;
        if place.line == 0 { None } else { Some(*place) }
    }
}

/// A reader's way through a text.
#[derive(Drop)]
struct Walk {
    /// Where it is.
    place: Place,
    /// How many bytes are before that.
    offset: usize,
    /// The pointer of the value that was met last.
    pointer: Vec<u8>,
    /// The arrays and objects that it is in.
    frames: Vec<Frame>,
}

impl Walk {
    fn new(alloc: Global) -> Walk {
        Walk {
            place: START,
            offset: 0,
            pointer: Vec::new(alloc),
            frames: Vec::new(alloc),
        }
    }

    /// Goes to an offset of the text.
    fn step_to(&mut self, text: &[u8], offset: usize) {
        if let Some(passed) = text.get(self.offset..offset) {
            self.place = step_over(self.place, passed);
            self.offset = offset;
        }
    }

    /// Takes a token, and returns whether a value begins with it.
    fn enter(&mut self, token: Token<'_>) -> Result<bool, AllocError> {
        match token {
            Token::Key(name) => {
                self.name(name)?;
                Ok(false)
            }
            Token::EndObject | Token::EndArray => {
                let _ = self.frames.pop();
                Ok(false)
            }
            Token::Bad => Ok(false),
            Token::BeginObject => {
                self.count()?;
                self.open(None)?;
                Ok(true)
            }
            Token::BeginArray => {
                self.count()?;
                self.open(Some(0))?;
                Ok(true)
            }
            _ => {
                self.count()?;
                Ok(true)
            }
        }
    }

    fn open(&mut self, next: Option<u64>) -> Result<(), AllocError> {
        let len = self.pointer.len();
        self.frames.push(Frame { len, next })?;
        Ok(())
    }

    /// Goes to the member of this name.
    fn name(&mut self, name: &str) -> Result<(), AllocError> {
        if let Some(frame) = self.frames.last() {
            let len = frame.len;
            self.pointer.truncate(len);
        }
        self.pointer.push(b'/')?;
        for byte in name.as_bytes() {
            push_escaped(&mut self.pointer, *byte)?;
        }
        Ok(())
    }

    /// Goes to the next item, in an array.
    fn count(&mut self) -> Result<(), AllocError> {
        let Some(frame) = self.frames.pop() else {
            return Ok(());
        };
        let Some(index) = frame.next else {
            self.frames.push(frame)?;
            return Ok(());
        };
        self.pointer.truncate(frame.len);
        self.pointer.push(b'/')?;
        let digits = index.to_string(*self.pointer.allocator())?;
        self.pointer.extend_from_slice(digits.as_bytes())?;
        self.frames.push(Frame {
            len: frame.len,
            next: Some(index.saturating_add(1)),
        })?;
        Ok(())
    }
}

/// Adds a byte of a name, as a pointer has it.
fn push_escaped(pointer: &mut Vec<u8>, byte: u8) -> Result<(), AllocError> {
    match byte {
        b'~' => pointer.extend_from_slice(b"~0"),
        b'/' => pointer.extend_from_slice(b"~1"),
        other => {
            pointer.push(other)?;
            Ok(())
        }
    }
}
