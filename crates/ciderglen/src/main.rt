//! The program `ciderglen`: checks, formats, compares and shows the documents of the Open Container Initiative.
#![tactic(auto)]

mod archives;
mod check;
mod colors;
mod commands;
mod config;
mod described;
mod files;
mod folders;
mod images;
mod line;
mod names;
mod rules;
mod saved;
mod spool;
mod table;
mod verify;
mod watch;
mod words;

use archives::{Archive, is_archive};
use check::{check, has_files_alone};
use clap::{ArgMatches, Error};
use colors::has_colors;
use files::SystemFiles;
use images::inspect_named;
use line::{
    asked, escaped_words, fault_in_pin, formats_in, lack_in_digest, lack_of_files, matches_of,
    status_of,
};
use oci_archive::{OnDisk, Packed};
use oci_base::line_of;
use oci_commands::texts::{complain, complain_of};
use oci_commands::{Asked, Format, tree_of_layout};
use oci_layout::Folder;
use oci_policies::{Bump, Policy, PolicyError, Reason};
use rules::Specifications;
use std::alloc::{AllocError, Global};
use std::fmt::Display;
use std::fs;
use std::process::ExitCode;
use verify::verify;
use words::{Words, words_of};

fn main(rt: HostRuntime) -> ExitCode {
    match words_of(&rt) {
        Ok(words) => ExitCode::from(run_words(&rt, &words)),
        Err(fault) => {
            tell(&rt, "cannot read the arguments", &fault);
            ExitCode::from(2)
        }
    }
}

/// Runs what the words of the command line ask for, and returns the exit status.
fn run_words(rt: &HostRuntime, words: &Words) -> u8 {
    match matches_of(rt.alloc(), words.all.as_slice()) {
        Ok(matches) => {
            let arena = Bump::new(rt.alloc());
            perform(rt, &arena, &matches, words)
        }
        Err(error) => match status_of(&error) {
            2 => refuse(rt, words.all.as_slice()),
            status => print(rt, &error, status),
        },
    }
}

/// Prints a text in place of a command, and returns the exit status.
fn print(rt: &HostRuntime, error: &Error, status: u8) -> u8 {
    if error.print(rt).is_ok() { status } else { 3 }
}

/// Says what is wrong with the words of the command line, which are escaped first, since they may be names that a stranger gave.
fn refuse(rt: &HostRuntime, words: &[String]) -> u8 {
    match escaped_words(words, rt.alloc()) {
        Ok(shown) => refuse_shown(rt, shown.as_slice()),
        Err(_) => out_of_memory(rt),
    }
}

fn refuse_shown(rt: &HostRuntime, shown: &[String]) -> u8 {
    match matches_of(rt.alloc(), shown) {
        Ok(_) => {
            complain(
                "error: the arguments have control characters\n",
                &mut rt.stderr(),
            );
            2
        }
        Err(error) => print(rt, &error, 2),
    }
}

/// Runs the command that the matches ask for, and returns the exit status.
fn perform(rt: &HostRuntime, arena: &Bump, matches: &ArgMatches<'_>, words: &Words) -> u8 {
    let Some((name, given)) = matches.subcommand() else {
        return 2;
    };
    if !words.foreign.is_empty() && !(name == "check" && has_files_alone(given, words)) {
        complain("ciderglen: an argument is not UTF-8\n", &mut rt.stderr());
        return 2;
    }
    match name {
        "verify" => verify(rt, arena, given),
        "inspect" => inspect_named(rt, given),
        "tree" => tree(rt, given.get_str("FILE").unwrap_or("-")),
        "fmt" => match formats_in(given, arena, rt.alloc()) {
            Ok(formats) => format_files(rt, given, formats.as_slice()),
            Err(_) => out_of_memory(rt),
        },
        "check" => check(rt, arena, given, words),
        "diff" => run_asked(
            rt,
            asked(name, given, has_colors(rt, given), arena, rt.alloc()),
        ),
        "digest" => run_unless(rt, arena, name, given, lack_in_digest(given)),
        "pin" => run_unless(rt, arena, name, given, fault_in_pin(given)),
        _ => run_asked(rt, asked(name, given, false, arena, rt.alloc())),
    }
}

/// Runs a command, unless something is wrong with its options.
fn run_unless(
    rt: &HostRuntime,
    arena: &Bump,
    name: &str,
    given: &ArgMatches<'_>,
    fault: Option<&str>,
) -> u8 {
    match fault {
        Some(fault) => {
            tell_usage(rt, fault);
            2
        }
        None => run_asked(rt, asked(name, given, false, arena, rt.alloc())),
    }
}

/// Formats each file, and returns the worst status.
fn format_files(rt: &HostRuntime, given: &ArgMatches<'_>, formats: &[Format<'_>]) -> u8 {
    if let Some(lack) = lack_of_files(given, formats) {
        tell_usage(rt, lack);
        return 2;
    }
    let mut status = 0;
    for format in formats {
        status = status.max(run(rt, &Asked::Format(*format)));
    }
    status
}

/// Says what is wrong with the options, as clap does.
pub(crate) fn tell_usage(rt: &HostRuntime, fault: &str) {
    if let Ok(text) = format!(in rt.alloc();
        "error: {fault}\n\nFor more information, try '--help'.\n"
    ) {
        complain(text.as_str(), &mut rt.stderr());
    }
}

fn run_asked(rt: &HostRuntime, asked: Result<Option<Asked<'_>>, AllocError>) -> u8 {
    match asked {
        Ok(Some(asked)) => run(rt, &asked),
        Ok(None) => 2,
        Err(_) => out_of_memory(rt),
    }
}

/// Says what is wrong with what is named on standard error.
pub(crate) fn tell<D: Display>(rt: &HostRuntime, name: &str, fault: &D) {
    complain_of(name, fault, rt.alloc(), &mut rt.stderr());
}

/// Says so, and returns the exit status.
pub(crate) fn out_of_memory(rt: &HostRuntime) -> u8 {
    complain("ciderglen: out of memory\n", &mut rt.stderr());
    3
}

/// Shows a document or an image layout as a tree.
fn tree(rt: &HostRuntime, file: &str) -> u8 {
    if is_folder(rt, file) {
        show_folder(rt, file)
    } else if is_archive(rt, file) {
        show_archive(rt, file)
    } else {
        run(rt, &Asked::Tree(file))
    }
}

/// The policy in a file, if one is named. The error is the exit status: 2 if the file holds no policy, and 3 if it cannot
/// be read, or if out of memory.
pub(crate) fn policy_of<'a>(
    rt: &HostRuntime,
    file: Option<&str>,
    arena: &'a Bump,
) -> Result<Option<Policy<'a>>, u8> {
    let Some(file) = file else {
        return Ok(None);
    };
    match fs::read_to_string(rt, file) {
        Ok(text) => policy_in(rt, file, text.as_str(), arena),
        Err(fault) => {
            tell(rt, file, &fault);
            Err(3)
        }
    }
}

/// The policy in the text of a file.
fn policy_in<'a>(
    rt: &HostRuntime,
    file: &str,
    text: &str,
    arena: &'a Bump,
) -> Result<Option<Policy<'a>>, u8> {
    match Policy::from_toml(text, arena, rt.alloc()) {
        Ok(policy) => Ok(Some(policy)),
        Err(PolicyError::Memory) => Err(out_of_memory(rt)),
        Err(error) => {
            tell_policy(rt, file, &error);
            Err(2)
        }
    }
}

/// Says why a file is no policy, as findings are said: the file with its line, the member, and what is wrong with it.
fn tell_policy(rt: &HostRuntime, file: &str, error: &PolicyError) {
    if let Ok(line) = policy_line(file, error, rt.alloc()) {
        complain(line.as_str(), &mut rt.stderr());
    }
}

fn policy_line(file: &str, error: &PolicyError, alloc: Global) -> Result<String, AllocError> {
    let text = match error {
        PolicyError::Memory => format!(in alloc; "{file}: out of memory")?,
        PolicyError::Toml { line, error } => {
            let told = error.message();
            format!(in alloc; "{file}:{line}: not TOML: {told} [policy]")?
        }
        PolicyError::TooBig { line } => {
            let lack = "expected a regular expression that takes less memory";
            format!(in alloc; "{file}:{line}: /matches: {lack} [policy]")?
        }
        PolicyError::Rule { line, reason } => {
            let told = reason_text(reason, alloc)?;
            format!(in alloc; "{file}:{line}: {told} [policy]")?
        }
    };
    line_of(text.as_str(), alloc)
}

/// What is wrong with a rule of a policy, in the words of `check`.
fn reason_text(reason: &Reason, alloc: Global) -> Result<String, AllocError> {
    match reason {
        Reason::Missing(name) => format!(in alloc; "/{name}: required member is missing"),
        Reason::Expected { key, expected } => format!(in alloc; "/{key}: expected {expected}"),
        Reason::Empty(name) => { format!(in alloc; "/{name}: expected a value that is not empty") }
        Reason::Pattern { key, what, at } => {
            format!(in alloc; "/{key}: expected a regular expression ({what}, at byte {at})")
        }
        Reason::Unknown(name) => format!(in alloc; "/{name}: unknown member"),
        Reason::NoTest => {
            String::from_str(alloc, "required member is missing (a test, as one_of)")
        }
        Reason::SecondTest(name) => {
            format!(in alloc; "/{name}: expected no member {name} beside another test")
        }
    }
}

fn run(rt: &HostRuntime, asked: &Asked<'_>) -> u8 {
    run_over(rt, &mut SystemFiles::new(rt), asked)
}

pub(crate) fn run_over(rt: &HostRuntime, store: &mut SystemFiles<'_>, asked: &Asked<'_>) -> u8 {
    let mut writer = rt.stdout();
    let mut errors = rt.stderr();
    oci_commands::run(
        &Specifications,
        asked,
        rt.alloc(),
        store,
        &mut writer,
        &mut errors,
    )
}

/// Says why a file cannot be read, and returns the status for that.
pub(crate) fn cannot_read<D: Display>(rt: &HostRuntime, name: &str, fault: &D) -> u8 {
    tell(rt, name, fault);
    3
}

pub(crate) fn is_file(rt: &HostRuntime, name: &str) -> bool {
    match fs::metadata(rt, name) {
        Ok(found) => found.is_file(),
        Err(_) => false,
    }
}

pub(crate) fn is_folder(rt: &HostRuntime, name: &str) -> bool {
    match fs::metadata(rt, name) {
        Ok(found) => found.is_dir(),
        Err(_) => false,
    }
}

/// Shows the image layout in a folder as a tree.
fn show_folder(rt: &HostRuntime, root: &str) -> u8 {
    match index_of(rt, root) {
        Ok(name) => tree_of_layout(
            &Folder { rt, root },
            name.as_str(),
            rt.alloc(),
            &mut rt.stdout(),
            &mut rt.stderr(),
        ),
        Err(_) => out_of_memory(rt),
    }
}

/// Shows the image layout in a tar archive as a tree.
fn show_archive(rt: &HostRuntime, name: &str) -> u8 {
    match Archive::open(rt, name) {
        Ok(archive) => show_packed(rt, &archive, name),
        Err(fault) => cannot_read(rt, name, &fault),
    }
}

fn show_packed(rt: &HostRuntime, archive: &Archive, name: &str) -> u8 {
    let source = OnDisk {
        file: &archive.file,
    };
    let packed = Packed {
        source: &source,
        index: &archive.index,
    };
    match index_of(rt, name) {
        Ok(name) => tree_of_layout(
            &packed,
            name.as_str(),
            rt.alloc(),
            &mut rt.stdout(),
            &mut rt.stderr(),
        ),
        Err(_) => out_of_memory(rt),
    }
}

/// How the index of a layout is called.
fn index_of(rt: &HostRuntime, root: &str) -> Result<String, AllocError> {
    format!(in rt.alloc(); "{root}/index.json")
}
