//! What `verify` is asked by the command line and the file of a folder, and of which image layout.
use crate::check::asked_of;
use crate::colors::has_colors;
use crate::line::style_in;
use crate::rules::Specifications;
use crate::saved::{saved_index, verify_saved};
use crate::spool::{SpoolError, open_archive};
use crate::watch::Started;
use crate::{cannot_read, out_of_memory};
use clap::ArgMatches;
use gzip::GzipError;
use oci_archive::OnDisk;
use oci_layout::{DOCUMENT_LIMIT, Folder};
use oci_policies::Bump;
use oci_verify::{ArchiveFile, Options, Verifier};
use std::fs;
use tar::Seekable;

/// Verifies an image layout, a folder or a tar archive of one, as it is asked to be, and returns the exit status.
pub fn verify(rt: &HostRuntime, arena: &Bump, given: &ArgMatches<'_>) -> u8 {
    let Some(name) = given.get_str("IMAGE") else {
        return 2;
    };
    match options_in(rt, arena, given) {
        Ok(options) => verify_named(rt, &options, name),
        Err(status) => status,
    }
}

/// How it is verified. The error is the exit status after what is wrong was said.
fn options_in<'a>(
    rt: &HostRuntime,
    arena: &'a Bump,
    given: &ArgMatches<'_>,
) -> Result<Options<'a>, u8> {
    let mut check = asked_of(rt, arena, given)?;
    check.style = style_in(given, has_colors(rt, given));
    Ok(Options {
        check,
        quick: given.get_flag("quick"),
        progress: given.get_flag("progress"),
        verbose: given.get_flag("verbose"),
        limit: DOCUMENT_LIMIT,
    })
}

fn verify_named(rt: &HostRuntime, options: &Options<'_>, name: &str) -> u8 {
    let watch = Started::now(rt);
    let verifier = Verifier {
        options,
        books: &Specifications,
        watch: &watch,
        alloc: rt.alloc(),
    };
    if name == "-" {
        return verify_archive(rt, &verifier, name);
    }
    match fs::metadata(rt, name) {
        Ok(about) if about.is_file() => verify_archive(rt, &verifier, name),
        Ok(about) if about.is_dir() => verify_folder(rt, &verifier, name),
        Ok(_) => cannot_read(rt, name, &"neither a folder nor a regular file"),
        Err(fault) => cannot_read(rt, name, &fault),
    }
}

/// Reports that a file is no gzip file, as another that is no archive is reported.
fn refuse_gzip(
    rt: &HostRuntime,
    verifier: &Verifier<'_, Specifications, Started<'_>>,
    name: &str,
    fault: &GzipError,
) -> u8 {
    let writer = &mut rt.stdout();
    let errors = &mut rt.stderr();
    match format!(in rt.alloc(); "a gzip file that is broken: {fault}") {
        Ok(found) => verifier.refuse_archive(name, found.as_str(), writer, errors),
        Err(_) => out_of_memory(rt),
    }
}

/// Verifies the image layout in a folder.
fn verify_folder(
    rt: &HostRuntime,
    verifier: &Verifier<'_, Specifications, Started<'_>>,
    name: &str,
) -> u8 {
    match fs::read_dir(rt, name) {
        Ok(_) => verifier.verify(
            &Folder { rt, root: name },
            &mut rt.stdout(),
            &mut rt.stderr(),
        ),
        Err(fault) => cannot_read(rt, name, &fault),
    }
}

/// Verifies the image layout in a tar archive.
fn verify_archive(
    rt: &HostRuntime,
    verifier: &Verifier<'_, Specifications, Started<'_>>,
    name: &str,
) -> u8 {
    let file = match open_archive(rt, name) {
        Ok(file) => file,
        Err(SpoolError::Io(fault)) => return cannot_read(rt, name, &fault),
        Err(SpoolError::Gzip(fault)) => return refuse_gzip(rt, verifier, name, &fault),
    };
    if let Some(index) = saved_index(rt, &file) {
        return verify_saved(rt, verifier.options, name, &file, &index);
    }
    match file.try_clone().and_then(Seekable::new) {
        Ok(reader) => {
            let archive = ArchiveFile {
                name,
                source: &OnDisk { file: &file },
                reader,
            };
            verifier.verify_archive(archive, &mut rt.stdout(), &mut rt.stderr())
        }
        Err(fault) => cannot_read(rt, name, &fault),
    }
}
