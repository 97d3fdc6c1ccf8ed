//! Reads a gzip file from the standard input, and writes its text to the standard output.
#![tactic(auto)]

ghost use Rattle.std.specs.Prelude.{◌≡◌, ◌++◌, Some};

use gzip::Sink;
use std::io;
use std::io::Write;

/// What is written to.
struct Out<W: Write + Drop> {
    writer: W,
}

impl<W: Write + Drop> Drop for Out<W> {
    fn drop(self) {
        let Out { writer: _ } = self;
    }
}

impl<W: Write + Drop> Sink for Out<W> {
    ghost holds = { λ o before t. W.contents o.writer ≡ Some (before ++ t) };

    fn take(&mut self, piece: &[u8]) -> io::Result<()> {
        self.writer.write_all(piece)?;
        Ok(())
    }
}

fn main(rt: HostRuntime) -> io::Result<()> {
    let out = Out {
        writer: rt.stdout(),
    };
    match gzip::decode(rt.alloc(), rt.stdin(), out) {
        Ok(_) => Ok(()),
        Err(e) => {
            eprintln!(rt; "{e}")?;
            Err(io::Error::from(io::ErrorKind::InvalidData))
        }
    }
}
