//! Lists what the entries of a layer on standard input break: its DiffID, and then a line for each rule that an entry breaks, with the
//! entry's place and its name. It is run beside another reading of the rules.
#![tactic(auto)]

use oci_content::{Algorithm, Checksum};
use oci_layers::{LayerEntries, LayerError, LayerFinding, read_layer, uncompressed_checksum};
use std::io;
use std::io::Read;
use tar::Place;
use tar_folder::{Bounds, IndexError};

/// How much a layer may hold: 65536 entries, whose names have at most 16 MiB.
const BOUNDS: Bounds = Bounds {
    entries: 65536,
    bytes: 16777216,
};

fn print_sum<R: AllocGlobal + Print>(rt: &R, sum: Result<Checksum, LayerError>) -> io::Result<()> {
    match sum {
        Ok(sum) => {
            let text = sum.text(rt.alloc())?;
            println!(rt; "{text}")
        }
        Err(error) => println!(rt; "no DiffID: {error}"),
    }
}

fn print_finding<R: AllocGlobal + Print>(
    rt: &R,
    places: &[Place],
    finding: LayerFinding,
) -> io::Result<()> {
    let rule = finding.rule.description().name;
    let place = finding.place;
    match places.get(place) {
        Some(at) => {
            let name = at.entry.name.as_slice().escape_ascii();
            println!(rt; "{rule}\t{place}\t\"{name}\"")
        }
        None => Ok(()),
    }
}

fn print_findings<R: AllocGlobal + Print>(rt: &R, layer: &LayerEntries) -> io::Result<()> {
    for finding in layer.findings.as_slice() {
        print_finding(rt, layer.index.places.as_slice(), *finding)?;
    }
    Ok(())
}

fn print_error<R: AllocGlobal + Print>(rt: &R, error: IndexError) -> io::Result<()> {
    match error {
        IndexError::Fault(fault) => println!(rt; "not an archive: {fault:?}"),
        IndexError::TooMany => println!(rt; "too many entries"),
        IndexError::Memory => println!(rt; "out of memory"),
        IndexError::Io(error) => Err(error),
    }
}

fn main(rt: HostRuntime) -> io::Result<()> {
    let mut bytes = Vec::new(rt.alloc());
    rt.stdin().read_to_end(&mut bytes)?;
    print_sum(
        &rt,
        uncompressed_checksum(rt.alloc(), Algorithm::Sha256, bytes.as_slice()),
    )?;
    match read_layer(rt.alloc(), bytes.as_slice(), BOUNDS) {
        Ok(layer) => print_findings(&rt, &layer),
        Err(error) => print_error(&rt, error),
    }
}
