//! What is said of an archive that is not one folder to all that unpack it.
ghost use Rattle.std.specs.Prelude.{◌≡◌, ◌⊎◌};

use crate::options::Options;
use crate::output::Output;
use crate::program::complain;
use oci_archive::Source;
use oci_base::{OciSpecError, Result};
use oci_findings::shown::shown_at;
use oci_findings::{Cause, Finding, Reporter, Severity, Totals};
use oci_rules::{Level, Platforms, Rule, Test};
use serde_json::Value;
use std::alloc::Global;
use std::io::Write;
use tar_folder::{Compression, EntryFault, EntryFinding, Index, compression_of};
use tar_header::Fault;

/// Where archives, their headers and their links are stated.
const SECTION: &str = "POSIX pax#ustar-interchange-format";

/// How many bytes tell how a file is compressed.
const BEGINNING: u64 = 6;

/// What is wrong with an archive.
#[derive(Clone, Copy)]
enum Wrong {
    /// It is none.
    File,
    /// An entry is unpacked differently by tools.
    Entry(EntryFault),
}

/// What is wrong with an archive, and what was found there.
#[derive(Drop)]
pub struct Broken {
    wrong: Wrong,
    found: String,
}

/// Reports what is wrong with an archive, and returns the exit status: 1, or 3 if it could not be said, which a line on standard error says.
pub fn report<W: Write, E: Write>(
    name: &str,
    broken: Result<Vec<Broken>>,
    options: &Options<'_>,
    alloc: Global,
    writer: &mut W,
    errors: &mut E,
) -> u8
    ensures { (result ≡ 1) ⊎ (result ≡ 3) }
{
    match write_all(name, broken, options, alloc, writer, errors) {
        Ok(()) => 1,
        Err(refusal) => refuse(&refusal, alloc, errors),
    }
}

/// Says why a verification ended before its end, and returns the exit status for that.
pub fn refuse<E: Write>(refusal: &OciSpecError, alloc: Global, errors: &mut E) -> u8
    ensures { result ≡ 3 }
{
    complain(refusal, alloc, errors);
    3
}

fn write_all<W: Write, E: Write>(
    name: &str,
    broken: Result<Vec<Broken>>,
    options: &Options<'_>,
    alloc: Global,
    writer: &mut W,
    errors: &mut E,
) -> Result<()> {
    let broken = broken?;
    let mut output = Output {
        alloc,
        reporter: Reporter::new(options.check.style, alloc)?,
        progress: None,
        verbose: options.verbose,
        writer,
        errors,
    };
    write_broken(&broken, name, &mut output)?;
    output.finish(&Totals::none())
}

fn write_broken<W: Write, E: Write>(
    broken: &Vec<Broken>,
    name: &str,
    output: &mut Output<'_, W, E>,
) -> Result<()> {
    for one in broken {
        write_one(one, name, output)?;
    }
    Ok(())
}

fn write_one<W: Write, E: Write>(
    broken: &Broken,
    name: &str,
    output: &mut Output<'_, W, E>,
) -> Result<()> {
    let alloc = output.alloc;
    let rule = rule_of(broken.wrong);
    let found = String::from_str(alloc, broken.found.as_str())?;
    let finding = Finding {
        pointer: String::new(alloc),
        cause: Cause::Rule(&rule, Some(found)),
        severity: Severity::Error,
    };
    output.add_finding(name, finding)
}

/// What is asked of an archive, as a rule: it has a name, a level and a section, and is shown as rules are.
fn rule_of(wrong: Wrong) -> Rule<'static> {
    Rule {
        name: name_of(wrong),
        level: Level::Stated,
        section: SECTION,
        wanted: wanted_of(wrong),
        platforms: Platforms::Every,
        place: &[],
        test: Test::NotEmpty,
    }
}

fn name_of(wrong: Wrong) -> &'static str {
    match wrong {
        Wrong::File => "archive",
        Wrong::Entry(fault) => fault.name(),
    }
}

/// What an archive or an entry has to be, so that all tools read and unpack it alike.
fn wanted_of(wrong: Wrong) -> &'static str {
    match wrong {
        Wrong::File => "a tar archive that all tools read alike",
        Wrong::Entry(EntryFault::Path) => "a path within the folder",
        Wrong::Entry(EntryFault::Twice) => "each path once",
        Wrong::Entry(EntryFault::Sparse) => "a file with all of its bytes",
        Wrong::Entry(EntryFault::Kind) => "a file, a directory or a hard link",
        Wrong::Entry(EntryFault::Link) => "no symbolic link, and a hard link to a file before it",
    }
}

/// That the bytes are not an archive.
pub fn broken_file<S: Source>(source: &S, fault: Fault, alloc: Global) -> Result<Vec<Broken>> {
    let text = match compression(source, alloc)? {
        Some(compression) => compression_text(compression),
        None => fault_text(fault),
    };
    broken_as(text, alloc)
}

/// The same, by what they are for people.
pub fn broken_as(text: &str, alloc: Global) -> Result<Vec<Broken>> {
    let mut broken = Vec::new(alloc);
    broken.push(Broken {
        wrong: Wrong::File,
        found: String::from_str(alloc, text)?,
    })?;
    Ok(broken)
}

/// The entries that tools unpack differently.
pub fn broken_entries(
    index: &Index,
    found: &Vec<EntryFinding>,
    alloc: Global,
) -> Result<Vec<Broken>> {
    let mut broken = Vec::new(alloc);
    for one in found {
        broken.push(Broken {
            wrong: Wrong::Entry(one.fault),
            found: entry_text(index, one.place, alloc)?,
        })?;
    }
    Ok(broken)
}

/// The name of an entry, as a value is shown.
fn entry_text(index: &Index, place: usize, alloc: Global) -> Result<String> {
    let name: &[u8] = match index.places.get(place) {
        Some(place) => place.entry.name.as_slice(),
        None => b"",
    };
    let Ok(name) = str::from_utf8(name) else {
        return Ok(String::from_str(alloc, "a name that is not UTF-8")?);
    };
    let value = Value::String(String::from_str(alloc, name)?);
    match shown_at(&value, "", alloc)? {
        Some(text) => Ok(text),
        None => Ok(String::new(alloc)),
    }
}

/// How the bytes are compressed, by how they begin.
fn compression<S: Source>(source: &S, alloc: Global) -> Result<Option<Compression>> {
    let Ok((mut part, _)) = source.part(0, BEGINNING) else {
        return Ok(None);
    };
    let mut buffer = [0u8; BEGINNING as usize];
    match source.read(alloc, &mut part, BEGINNING, &mut buffer)? {
        Ok(bytes) => Ok(compression_of(bytes.as_slice())),
        Err(_) => Ok(None),
    }
}

fn compression_text(compression: Compression) -> &'static str {
    match compression {
        Compression::Gzip => "a gzip file, which has to be decompressed first",
        Compression::Zstandard => "a Zstandard file, which has to be decompressed first",
        Compression::Bzip2 => "a bzip2 file, which has to be decompressed first",
        Compression::Xz => "an xz file, which has to be decompressed first",
    }
}

/// What is wrong with the bytes of an archive, for people.
fn fault_text(fault: Fault) -> &'static str {
    match fault {
        Fault::Cut => "one that ends early",
        Fault::Checksum => "a header with a wrong checksum",
        Fault::Dialect => "a header of no known format",
        Fault::Number => "a size that is no number",
        Fault::TooLarge => "a size of 2^63 or more",
        Fault::Sized => "a size of what is no file",
        Fault::Slash => "a file whose name ends in a slash",
        Fault::LoneBlock => "entries behind the end",
        Fault::Records => "an extended header with a wrong length",
        Fault::Value => "an extended header with an empty path or a NUL",
        Fault::TooLong => "an extended header of more than 1 MiB",
        Fault::Twice => "an attribute that is stated twice",
        Fault::Dangling => "an extended header without an entry",
        Fault::Global => "a global header with a path or a size",
    }
}
