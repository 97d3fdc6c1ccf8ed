//! A reader and a writer that give and take little at once, and fail where a case asks for it.
ghost use Rattle.std.specs.Prelude.{◌≡◌, IfOk};

use crate::frame::HarnessOutOfMemory;
use std::alloc::Global;
use std::io;
use std::io::{ErrorKind, Read, Write};

/// How the streams of a case give and take.
#[derive(Clone, Copy)]
pub struct Manner {
    /// How many bytes are given at most in one read.
    pub most_read: usize,
    /// The first read that fails, the first of all being 1.
    pub bad_read: usize,
    /// How many bytes are taken at most in one write.
    pub most_written: usize,
    /// The first write that fails.
    pub bad_write: usize,
    /// Whether a flush fails.
    pub bad_flush: bool,
    /// The first write to the errors that fails.
    pub bad_tell: usize,
    /// Whether each one behind it fails too.
    pub lasting: bool,
    /// The error; without one, what fails gives or takes no byte.
    pub fault: Option<ErrorKind>,
}

impl Manner {
    /// All at once, and nothing fails.
    pub const AMPLE: Manner = Manner {
        most_read: usize::MAX,
        bad_read: usize::MAX,
        most_written: usize::MAX,
        bad_write: usize::MAX,
        bad_flush: false,
        bad_tell: usize::MAX,
        lasting: true,
        fault: None,
    };

    /// Whether the read or write of this number fails, where this is the first that does.
    fn fails(self, count: usize, first: usize) -> bool {
        count == first || (self.lasting && count > first)
    }

    /// What fails gives, takes or does, instead of its work.
    fn failed(self) -> io::Result<usize>
        ensures { IfOk result (λ count. count ≡ 0) }
    {
        match self.fault {
            Some(kind) => Err(io::Error::from(kind)),
            None => Ok(0),
        }
    }
}

/// Gives three texts, one behind the other.
#[derive(Drop)]
pub struct Input<'a> {
    first: &'a [u8],
    second: &'a [u8],
    third: &'a [u8],
    manner: Manner,
    /// How many reads were asked for.
    pub reads: usize,
}

impl<'a> Input<'a> {
    /// Gives one text.
    pub fn new(text: &'a [u8], manner: Manner) -> Input<'a> {
        Input {
            first: text,
            second: b"",
            third: b"",
            manner,
            reads: 0,
        }
    }

    /// Gives a text with a byte, or none, in the place of one.
    pub fn replaced(before: &'a [u8], byte: &'a [u8], behind: &'a [u8]) -> Input<'a> {
        Input {
            first: before,
            second: byte,
            third: behind,
            manner: Manner::AMPLE,
            reads: 0,
        }
    }

    /// Goes on to the next text where one is given.
    fn go_on(&mut self) {
        if self.first.is_empty() {
            self.first = self.second;
            self.second = self.third;
            self.third = b"";
        }
    }
}

impl Read for Input<'_> {
    fn read(&mut self, buf: &mut [u8]) -> io::Result<usize> {
        self.reads = self.reads.saturating_add(1);
        if self.manner.fails(self.reads, self.manner.bad_read) {
            return self.manner.failed();
        }
        self.go_on();
        let count = buf.len().min(self.first.len()).min(self.manner.most_read);
        buf[..count].copy_from_slice(&self.first[..count]);
        self.first = &self.first[count..];
        Ok(count)
    }
}

/// Keeps what it takes, in a buffer that is allocated before.
#[derive(Drop)]
pub struct Output {
    taken: Vec<u8>,
    manner: Manner,
    writes: usize,
    flushes: usize,
}

impl Output {
    /// Has a buffer of so many bytes.
    pub fn new(alloc: Global, room: usize) -> Result<Output, HarnessOutOfMemory> {
        Ok(Output {
            taken: Vec::with_capacity(alloc, room)?,
            manner: Manner::AMPLE,
            writes: 0,
            flushes: 0,
        })
    }

    /// Begins anew as the output of a case.
    pub fn begin(&mut self, manner: Manner) {
        self.taken.clear();
        self.manner = manner;
        self.writes = 0;
        self.flushes = 0;
    }

    /// Begins anew as the errors of a case.
    pub fn begin_errors(&mut self, manner: Manner) {
        self.begin(Manner {
            bad_write: manner.bad_tell,
            fault: manner.fault,
            ..Manner::AMPLE
        });
    }

    /// What was taken.
    pub fn taken(&self) -> &[u8] {
        self.taken.as_slice()
    }

    /// Removes whitespace, so that pretty and compact output compare equal.
    pub fn strip_layout(&mut self) {
        self.taken.retain(|b| *b != b' ' && *b != b'\n');
    }

    /// Nothing was written or flushed.
    pub fn is_untouched(&self) -> bool {
        self.writes == 0 && self.flushes == 0
    }

    /// This was written, and flushed once.
    pub fn is_done(&self, text: &[u8]) -> bool {
        self.taken.as_slice() == text && self.flushes == 1
    }
}

impl Write for Output {
    fn write(&mut self, buf: &[u8]) -> io::Result<usize> {
        self.writes = self.writes.saturating_add(1);
        if self.manner.fails(self.writes, self.manner.bad_write) {
            return self.manner.failed();
        }
        let count = buf.len().min(self.manner.most_written);
        self.taken.extend_from_slice(&buf[..count])?;
        Ok(count)
    }

    fn flush(&mut self) -> io::Result<()> {
        self.flushes = self.flushes.saturating_add(1);
        if self.manner.bad_flush {
            self.manner.failed()?;
        }
        Ok(())
    }
}
