//! Verifying images in an archive as `docker save` wrote them before version 25, and as `podman save` writes them.
use oci_archive::OnDisk;
use oci_base::Result;
use oci_findings::{Reporter, Totals};
use oci_saved::{
    Files, SavedFault, is_saved_archive, refused_entries, saved_faults, saved_findings,
};
use oci_verify::entries::{broken_entries, refuse, report};
use oci_verify::output::Output;
use oci_verify::{BOUNDS, Options};
use std::fs::File;
use tar::Seekable;
use tar_folder::{Index, read_index};

/// How many bytes are read at once.
const PIECE: usize = 65536;

/// The index of an archive, if it is one of such images.
pub fn saved_index(rt: &HostRuntime, file: &File) -> Option<Index> {
    let reader = file.try_clone().and_then(Seekable::new).ok()?;
    let index = read_index(rt.alloc(), reader, BOUNDS).ok()?;
    if is_saved_archive(&index) {
        Some(index)
    } else {
        None
    }
}

/// Verifies the images in such an archive, reports what is wrong with them, and returns the exit status, as `verify` does for a layout.
pub fn verify_saved(
    rt: &HostRuntime,
    options: &Options<'_>,
    name: &str,
    file: &File,
    index: &Index,
) -> u8 {
    match refused_entries(rt.alloc(), index) {
        Ok(refused) if refused.is_empty() => verify_images(rt, options, file, index),
        Ok(refused) => {
            let broken = broken_entries(index, &refused, rt.alloc());
            let writer = &mut rt.stdout();
            let errors = &mut rt.stderr();
            report(name, broken, options, rt.alloc(), writer, errors)
        }
        Err(_) => crate::out_of_memory(rt),
    }
}

/// The same of an archive of which all tools unpack these files alike.
fn verify_images(rt: &HostRuntime, options: &Options<'_>, file: &File, index: &Index) -> u8 {
    match faults_in(rt, options, file, index) {
        Ok(faults) => match write_findings(rt, options, faults.as_slice()) {
            Ok(()) => status_of(faults.as_slice()),
            Err(refusal) => refuse(&refusal, rt.alloc(), &mut rt.stderr()),
        },
        Err(refusal) => refuse(&refusal, rt.alloc(), &mut rt.stderr()),
    }
}

fn faults_in(
    rt: &HostRuntime,
    options: &Options<'_>,
    file: &File,
    index: &Index,
) -> Result<Vec<SavedFault>> {
    let source = OnDisk { file };
    let files = Files {
        source: &source,
        index,
    };
    let mut buffer = vec![in rt.alloc(); 0u8; PIECE]?;
    let faults = saved_faults(&files, options.limit, rt.alloc(), buffer.as_mut_slice())?;
    Ok(faults)
}

fn status_of(faults: &[SavedFault]) -> u8 {
    if faults.is_empty() { 0 } else { 1 }
}

/// Writes what is wrong, as findings in `manifest.json`.
fn write_findings(rt: &HostRuntime, options: &Options<'_>, faults: &[SavedFault]) -> Result<()> {
    let writer = &mut rt.stdout();
    let errors = &mut rt.stderr();
    let mut output = Output {
        alloc: rt.alloc(),
        reporter: Reporter::new(options.check.style, rt.alloc())?,
        progress: None,
        verbose: false,
        writer,
        errors,
    };
    for finding in saved_findings(faults, rt.alloc())? {
        output.add_finding("manifest.json", finding)?;
    }
    output.finish(&Totals::none())
}
