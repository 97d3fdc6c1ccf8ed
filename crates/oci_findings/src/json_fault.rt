//! What is wrong with a text that is not JSON (RFC 8259), and where. It is read a second time, by a reader that knows where it is.
use crate::json_string::string_fault;
use json::{Reader, Scratch, Token};
use std::alloc::{AllocError, Global};

/// How deep arrays and objects may be nested in each other.
const DEEPEST: usize = 127;

/// The blanks between tokens (RFC 8259, section 2).
const BLANKS: [char; 4] = [' ', '\t', '\n', '\r'];

/// How many characters of a word are shown.
const SHOWN: usize = 24;

/// What is wrong with a text from a byte on.
#[derive(Drop)]
pub struct JsonFault {
    /// The index of the byte; the length of the text where it ends too early.
    pub at: usize,
    /// What is wrong.
    pub told: String,
}

/// The first error of bytes that are not JSON; none if it was not found. Fails if out of memory.
pub fn fault_in(bytes: &[u8], alloc: Global) -> Result<Option<JsonFault>, AllocError> {
    match std::str::from_utf8(bytes) {
        Ok(text) => fault_of(text, alloc),
        Err(fault) => {
            let front = bytes.get(..fault.valid_up_to()).unwrap_or(b"");
            let found = match std::str::from_utf8(front) {
                Ok(text) => fault_of(text, alloc)?,
                Err(_) => None,
            };
            match found {
                Some(found) if found.at < front.len() => Ok(Some(found)),
                _ => Ok(Some(JsonFault {
                    at: front.len(),
                    told: String::from_str(alloc, "invalid UTF-8")?,
                })),
            }
        }
    }
}

/// The first error of a text.
fn fault_of(text: &str, alloc: Global) -> Result<Option<JsonFault>, AllocError> {
    if text.starts_with('\u{feff}') {
        return Ok(Some(JsonFault {
            at: 0,
            told: String::from_str(alloc, "a byte order mark, with which no JSON begins")?,
        }));
    }
    let mut scratch = Scratch::new(alloc);
    let mut reader = Reader::new(text, &mut scratch)?;
    let mut walk = Walk {
        text,
        frames: Vec::new(alloc),
        has_name: false,
        is_done: false,
    };
    for _ in 0..usize::MAX {
        let at = reader.offset();
        let fault = match reader.next() {
            Some(Token::Bad) => return Ok(Some(walk.bad_at(at, alloc)?)),
            Some(token) => walk.enter(token, at, alloc)?,
            None => return walk.ended_at(at, alloc),
        };
        if fault.is_some() {
            return Ok(fault);
        }
    }
    Ok(None)
}

/// What a reader is in.
#[derive(Clone, Copy, Debug, PartialEq, Eq)]
enum Frame {
    Array,
    Object,
}

/// A reader's way through a text.
#[derive(Drop)]
struct Walk<'t> {
    text: &'t str,
    /// The arrays and objects that it is in.
    frames: Vec<Frame>,
    /// Whether it is behind the name of a member and its colon.
    has_name: bool,
    /// Whether it is behind the value.
    is_done: bool,
}

impl<'t> Walk<'t> {
    /// Takes a token that begins at an offset, and returns what is wrong with it there, if anything is.
    fn enter(
        &mut self,
        token: Token<'_>,
        at: usize,
        alloc: Global,
    ) -> Result<Option<JsonFault>, AllocError> {
        match token {
            Token::EndObject => self.close(Frame::Object, at, alloc),
            Token::EndArray => self.close(Frame::Array, at, alloc),
            Token::Key(_) => {
                if self.wants_name() {
                    self.has_name = true;
                    Ok(None)
                } else {
                    self.unexpected(self.wanted(at), "a name with a colon", at, alloc)
                }
            }
            Token::BeginObject => self.open(Frame::Object, at, alloc),
            Token::BeginArray => self.open(Frame::Array, at, alloc),
            Token::String(_) if self.wants_name() => {
                let behind = self.behind_string(at);
                self.unexpected("`:`", self.found_at(behind), behind, alloc)
            }
            _ => self.take_value(at, alloc),
        }
    }

    /// Whether the name of a member is to come.
    fn wants_name(&self) -> bool {
        self.frames.last() == Some(&Frame::Object) && !self.has_name
    }

    /// Takes a value.
    fn take_value(&mut self, at: usize, alloc: Global) -> Result<Option<JsonFault>, AllocError> {
        if self.is_done || self.wants_name() {
            return self.unexpected(self.wanted(at), self.found_at(at), at, alloc);
        }
        self.has_name = false;
        self.is_done = self.frames.is_empty();
        Ok(None)
    }

    /// Takes the beginning of an array or object.
    fn open(
        &mut self,
        frame: Frame,
        at: usize,
        alloc: Global,
    ) -> Result<Option<JsonFault>, AllocError> {
        let fault = self.take_value(at, alloc)?;
        if fault.is_some() {
            return Ok(fault);
        }
        if self.frames.len() >= DEEPEST {
            return Ok(Some(JsonFault {
                at,
                told: String::from_str(alloc, "arrays and objects are nested more than 127 deep")?,
            }));
        }
        self.is_done = false;
        self.frames.push(frame)?;
        Ok(None)
    }

    /// Takes the end of an array or object.
    fn close(
        &mut self,
        frame: Frame,
        at: usize,
        alloc: Global,
    ) -> Result<Option<JsonFault>, AllocError> {
        if self.frames.last() != Some(&frame) || self.has_name {
            return self.unexpected(self.wanted(at), self.found_at(at), at, alloc);
        }
        let _ = self.frames.pop();
        self.is_done = self.frames.is_empty();
        Ok(None)
    }

    /// What is wrong where the text ends, if it ends too early.
    fn ended_at(&self, at: usize, alloc: Global) -> Result<Option<JsonFault>, AllocError> {
        if self.is_done {
            Ok(None)
        } else {
            self.unexpected(self.wanted(at), self.found_at(at), at, alloc)
        }
    }

    /// What is wrong with a token that is none.
    fn bad_at(&self, at: usize, alloc: Global) -> Result<JsonFault, AllocError> {
        let wanted = self.wanted(at);
        let begins = wanted == VALUE || wanted == NAME;
        match self.text.as_bytes().get(at) {
            Some(b'"') if begins => string_fault(self.text, at, alloc),
            Some(b'-' | b'0'..=b'9') if wanted == VALUE => {
                let word = self.found_at(at);
                Ok(JsonFault {
                    at,
                    told: format!(in alloc; "invalid number `{word}`")?,
                })
            }
            _ => expected(wanted, self.found_at(at), at, alloc),
        }
    }

    fn unexpected(
        &self,
        wanted: &str,
        found: &str,
        at: usize,
        alloc: Global,
    ) -> Result<Option<JsonFault>, AllocError> {
        Ok(Some(expected(wanted, found, at, alloc)?))
    }

    /// What may stand at an offset.
    fn wanted(&self, at: usize) -> &'static str {
        let front = self.text.get(..at).unwrap_or("").trim_end_matches(BLANKS);
        let is_begun = matches!(
            front.as_bytes().last(),
            None | Some(b'{' | b'[' | b':' | b',')
        );
        match self.frames.last() {
            None if self.is_done => "the end of the text",
            None => VALUE,
            Some(Frame::Object) if self.has_name => VALUE,
            Some(Frame::Object) if is_begun => NAME,
            Some(Frame::Object) => "`,` or `}`",
            Some(Frame::Array) if is_begun => VALUE,
            Some(Frame::Array) => "`,` or `]`",
        }
    }

    /// The word or character at an offset.
    fn found_at(&self, at: usize) -> &'t str {
        let rest = self.text.get(at..).unwrap_or("");
        let mut end = 0;
        for (index, c) in rest.char_indices().take(SHOWN) {
            if index > 0 && is_mark(c) {
                break;
            }
            end = index.saturating_add(c.len_utf8());
            if is_mark(c) {
                break;
            }
        }
        rest.get(..end).unwrap_or("")
    }

    /// The offset of what is behind the string at an offset.
    fn behind_string(&self, at: usize) -> usize {
        let mut is_escaped = false;
        let mut end = self.text.len();
        for (index, byte) in self.text.bytes().enumerate().skip(at.saturating_add(1)) {
            if is_escaped {
                is_escaped = false;
            } else if byte == b'\\' {
                is_escaped = true;
            } else if byte == b'"' {
                end = index.saturating_add(1);
                break;
            }
        }
        let rest = self.text.get(end..).unwrap_or("");
        let blank = rest
            .len()
            .saturating_sub(rest.trim_start_matches(BLANKS).len());
        end.saturating_add(blank)
    }
}

const VALUE: &str = "a value";

const NAME: &str = "a name in double quotes";

/// What is expected at an offset, and what was found.
fn expected(wanted: &str, found: &str, at: usize, alloc: Global) -> Result<JsonFault, AllocError> {
    let told = if found.is_empty() {
        format!(in alloc; "expected {wanted}, found the end of the text")?
    } else if found.len() > 1 && found.starts_with("a name") {
        format!(in alloc; "expected {wanted}, found {found}")?
    } else {
        format!(in alloc; "expected {wanted}, found `{found}`")?
    };
    Ok(JsonFault { at, told })
}

/// Whether a word ends before a character.
fn is_mark(c: char) -> bool {
    c.is_control() || matches!(c, ' ' | '{' | '}' | '[' | ']' | ',' | ':' | '"')
}
