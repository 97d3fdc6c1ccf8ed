//! The program's whole work.
ghost use Rattle.std.specs.Prelude.{◌≡◌, ◌<◌, ◌↔◌, map, string_bytes, None, IfSome};
ghost use Rattle.std.specs.Io.KnownBytes.{Appends, Keeps};
ghost use Rattle.oci_json.specs.Engines.{AppendsSome};
ghost use Rattle.oci_doc_run.specs.declared.refusal.Refusal.{Refusal};
ghost use Rattle.oci_doc_run.specs.Commands.{command_of, usage, LeavesInput};
ghost use Rattle.oci_doc_run.specs.Outputs.{Writes};
ghost use Rattle.oci_doc_run.specs.Refusals.{line_of, Tells};

use crate::command::Command;
use oci_json::write_text;
use std::alloc::Global;
use std::io::{Read, Write};

const USAGE: &str = "usage: ocidoc norm KIND | pretty KIND | ref TEXT | digest TEXT | pin TEXT\n";

/// Runs the command that the arguments name and returns the exit status: 0 if it succeeded, 1 if it failed, which one line on
/// standard error reports, and 2 if the arguments name no command; then the usage line goes to standard error. A failed write to
/// standard error changes nothing.
pub fn run<R: Read, W: Write, E: Write>(
    alloc: Global,
    words: &[String],
    reader: &mut R,
    writer: &mut W,
    errors: &mut E,
) -> u8
    ensures status { result < 3 }
    ensures known { (result ≡ 2) ↔ (command_of (map string_bytes words.now) ≡ None) }
    ensures unread { result ≡ 2 → Keeps (R.remaining reader.old) (R.remaining reader.new) }
    ensures unasked { IfSome (command_of (map string_bytes words.now)) (λ c. LeavesInput c → Keeps (R.remaining reader.old) (R.remaining reader.new)) }
    ensures unwritten { result ≡ 2 → Keeps (W.contents writer.old) (W.contents writer.new) }
    ensures unknown { result ≡ 2 → AppendsSome (E.contents errors.old) (E.contents errors.new) usage }
    ensures done { result ≡ 0 → IfSome (command_of (map string_bytes words.now))
        (λ c. Writes c (R.remaining reader.old) (Appends (W.contents writer.old) (W.contents writer.new))) }
    ensures quiet { result ≡ 0 → Keeps (E.contents errors.old) (E.contents errors.new) }
    ensures refused { result ≡ 1 → IfSome (command_of (map string_bytes words.now)) (λ c. (r : Refusal)
        × AppendsSome (E.contents errors.old) (E.contents errors.new) (line_of r)
        × Tells c (R.remaining reader.old) (W.contents writer.old) (W.contents writer.new) r) }
{
    let Some(command) = Command::from_words(words) else {
        show_usage(errors);
        return 2;
    };
    match command.perform(alloc, reader, writer) {
        Ok(()) => 0,
        Err(refusal) => {
            refusal.report(errors);
            1
        }
    }
}

/// Writes the usage line, or a beginning of it.
fn show_usage<E: Write>(errors: &mut E)
    ensures { AppendsSome (E.contents errors.old) (E.contents errors.new) usage }
{
    let _ = write_text(USAGE.as_bytes(), errors);
}
