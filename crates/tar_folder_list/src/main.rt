//! Lists the folder that an archive on standard input denotes: a line for each path at which a file lies, with its size and where its content
//! is, and then one for each entry that tools do not unpack alike. It is run beside tools that unpack archives.
#![tactic(auto)]

use std::io;
use std::io::Read;
use tar::Place;
use tar_folder::{
    Bounds, EntryFinding, Index, IndexError, entry_findings, path_of_entry, read_index,
};

/// How much an archive may hold: 65536 entries, whose names have at most 16 MiB.
const BOUNDS: Bounds = Bounds {
    entries: 65536,
    bytes: 16777216,
};

/// The file at a path, if one lies there.
fn print_path<R: AllocGlobal + Print>(rt: &R, index: &Index, path: &str) -> io::Result<()> {
    let Some(extent) = index.extent_at(rt.alloc(), path)? else {
        return Ok(());
    };
    let size = extent.size;
    let offset = extent.offset;
    let path = path.as_bytes().escape_ascii();
    println!(rt; "file\t{size}\t{offset}\t\"{path}\"")
}

fn print_entry<R: AllocGlobal + Print>(rt: &R, index: &Index, place: &Place) -> io::Result<()> {
    match path_of_entry(rt.alloc(), &place.entry)? {
        Some(path) => print_path(rt, index, path.as_str()),
        None => Ok(()),
    }
}

fn print_finding<R: AllocGlobal + Print>(rt: &R, finding: EntryFinding) -> io::Result<()> {
    let place = finding.place;
    let name = finding.fault.name();
    println!(rt; "{name}\t{place}")
}

fn print_folder<R: AllocGlobal + Print>(rt: &R, index: &Index) -> io::Result<()> {
    for place in index.places.as_slice() {
        print_entry(rt, index, place)?;
    }
    let found = entry_findings(rt.alloc(), index)?;
    for finding in found.as_slice() {
        print_finding(rt, *finding)?;
    }
    Ok(())
}

fn print_error<R: AllocGlobal + Print>(rt: &R, error: IndexError) -> io::Result<()> {
    match error {
        IndexError::Fault(fault) => println!(rt; "fault\t{fault:?}"),
        IndexError::TooMany => println!(rt; "too many entries"),
        IndexError::Memory => println!(rt; "out of memory"),
        IndexError::Io(error) => Err(error),
    }
}

fn main(rt: HostRuntime) -> io::Result<()> {
    let mut bytes = Vec::new(rt.alloc());
    rt.stdin().read_to_end(&mut bytes)?;
    match read_index(rt.alloc(), bytes.as_slice(), BOUNDS) {
        Ok(index) => print_folder(&rt, &index),
        Err(error) => print_error(&rt, error),
    }
}
