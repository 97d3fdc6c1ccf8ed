//! A command's whole work.
ghost use Rattle.std.specs.Prelude.{◌≡◌, IfOk};
ghost use Rattle.std.specs.Io.KnownBytes.{Keeps};
ghost use Rattle.oci_commands.specs.Done.{IsStatus, IsDone, IsRejected, IsSilent, IsPut};

use crate::asked::Asked;
use crate::books::Versions;
use crate::canonical::format;
use crate::check::check;
use crate::compare::compare;
use crate::contents::file_digests;
use crate::explained::explain;
use crate::files::Files;
use crate::kinds::kinds;
use crate::outline::tree;
use crate::pins::pin_to;
use crate::shown::{rules, schema};
use crate::sums::check_digests;
use crate::texts::{complain, complain_of, digests, pin, references};
use oci_base::{OciSpecError, Result};
use oci_findings::RuleBooks;
use std::alloc::Global;
use std::io;
use std::io::Write;

/// Runs a command, and returns the exit status: 0 if it was done and nothing is wrong, 1 if something is wrong with the input, and 3 if
/// a file could not be read or written, or out of memory. A failed write to standard error changes nothing.
pub fn run<S: Files, B: RuleBooks + Versions, W: Write, E: Write>(
    books: &B,
    asked: &Asked<'_>,
    alloc: Global,
    store: &mut S,
    writer: &mut W,
    errors: &mut E,
) -> u8
    ensures status { IsStatus result }
    ensures done { result ≡ 0 → IsDone (B.rules books.now) (S.holds store.old) (W.contents writer.old) (W.contents writer.new) asked.now }
    ensures put { result ≡ 0 → IsPut (S.holds store.old) (S.holds store.new) asked.now }
    ensures wrong { result ≡ 1 → IsRejected (B.rules books.now) (S.holds store.old) asked.now }
    ensures silent { IsSilent asked.now → Keeps (W.contents writer.old) (W.contents writer.new) × (S.holds store.new ≡ S.holds store.old) }
{
    match perform(books, asked, alloc, store, writer, errors) {
        Ok(status) => status,
        Err(error) => {
            report(&error, alloc, errors);
            3
        }
    }
}

fn perform<S: Files, B: RuleBooks + Versions, W: Write, E: Write>(
    books: &B,
    asked: &Asked<'_>,
    alloc: Global,
    store: &mut S,
    writer: &mut W,
    errors: &mut E,
) -> Result<u8>
    ensures status { IfOk result IsStatus }
    ensures done { IfOk result (λ s. s ≡ 0 → IsDone (B.rules books.now) (S.holds store.old) (W.contents writer.old) (W.contents writer.new) asked.now) }
    ensures put { IfOk result (λ s. s ≡ 0 → IsPut (S.holds store.old) (S.holds store.new) asked.now) }
    ensures wrong { IfOk result (λ s. s ≡ 1 → IsRejected (B.rules books.now) (S.holds store.old) asked.now) }
    ensures silent { IsSilent asked.now → Keeps (W.contents writer.old) (W.contents writer.new) × (S.holds store.new ≡ S.holds store.old) }
{
    match asked {
        Asked::Check(asked) => check(books, asked, alloc, store, writer, errors),
        Asked::Format(asked) => format(asked, alloc, store, writer, errors),
        Asked::Compare(asked) => compare(asked, alloc, store, writer, errors),
        Asked::Reference(style, texts) => references(*style, texts, alloc, writer, errors),
        Asked::Digest(style, texts) => digests(*style, texts, alloc, writer, errors),
        Asked::FileDigests(algorithm, files) => {
            file_digests(*algorithm, files, alloc, store, writer, errors)
        }
        Asked::CheckDigests(algorithm, files) => {
            check_digests(*algorithm, files, alloc, store, writer, errors)
        }
        Asked::Pin(text, file) => pin(text, file, alloc, store, writer, errors),
        Asked::PinTo(text, target) => pin_to(text, target, alloc, store, writer, errors),
        Asked::Tree(file) => tree(file, alloc, store, writer, errors),
        Asked::Rules(style, name) => rules(books, *style, *name, alloc, writer, errors),
        Asked::Explain(name) => explain(books, name, alloc, writer, errors),
        Asked::Schema(outline, kind) => {
            schema(*outline, *kind, alloc, writer)?;
            Ok(0)
        }
        Asked::Kinds(style, files) => kinds(*style, files, alloc, store, writer, errors),
    }
}

/// Says why a command failed. Nothing is said of a reader that has gone away, as `head` does.
pub(crate) fn report<E: Write>(error: &OciSpecError, alloc: Global, errors: &mut E) {
    match error {
        OciSpecError::Memory => complain("ciderglen: out of memory\n", errors),
        OciSpecError::Io(fault) if fault.kind() == io::ErrorKind::BrokenPipe => {}
        OciSpecError::Io(fault) => complain_of("cannot write", fault, alloc, errors),
        _ => complain_of("failed", error, alloc, errors),
    }
}
