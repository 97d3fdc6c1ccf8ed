//! Lists an archive on standard input, an entry a line: its kind, size, offset of its content, name and link target. The last line is
//! `end`, or why there are no more. It is run beside other readers of archives.
#![tactic(auto)]

use std::io;
use tar::{Archive, Entry, Kind, Stream};
use tar_header::ReadError;

fn print_kind<R: AllocGlobal + Print>(rt: &R, kind: Kind) -> io::Result<()> {
    match kind {
        Kind::File => print!(rt; "file"),
        Kind::HardLink => print!(rt; "hardlink"),
        Kind::SymbolicLink => print!(rt; "symlink"),
        Kind::CharacterDevice => print!(rt; "character"),
        Kind::BlockDevice => print!(rt; "block"),
        Kind::Directory => print!(rt; "directory"),
        Kind::Fifo => print!(rt; "fifo"),
        Kind::Sparse => print!(rt; "sparse"),
        Kind::Other(flag) => print!(rt; "other{flag}"),
    }
}

fn print_entry<R: AllocGlobal + Print>(rt: &R, entry: &Entry, offset: u64) -> io::Result<()> {
    print_kind(rt, entry.kind)?;
    if entry.sparse {
        print!(rt; "+sparse")?;
    }
    let size = entry.size;
    let name = entry.name.as_slice().escape_ascii();
    let link = entry.link.as_slice().escape_ascii();
    println!(rt; "\t{size}\t{offset}\t\"{name}\"\t\"{link}\"")
}

fn print_error<R: AllocGlobal + Print>(rt: &R, error: ReadError) -> io::Result<()> {
    match error {
        ReadError::Fault(fault) => println!(rt; "fault\t{fault:?}"),
        ReadError::Memory => println!(rt; "out of memory"),
        ReadError::Io(error) => Err(error),
    }
}

fn main(rt: HostRuntime) -> io::Result<()> {
    let mut archive = Archive::new(Stream { reader: rt.stdin() });
    for _ in 0..u64::MAX {
        match archive.next_entry(rt.alloc()) {
            Ok(Some(entry)) => print_entry(&rt, &entry, archive.offset())?,
            Ok(None) => return println!(&rt; "end"),
            Err(error) => return print_error(&rt, error),
        }
    }
    Ok(())
}
