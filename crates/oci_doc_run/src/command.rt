//! What the words ask for.
ghost use Rattle.std.specs.Prelude.{◌≡◌, map, option_map, string_bytes, OnOk, IfErr};
ghost use Rattle.std.specs.Io.KnownBytes.{Appends, Keeps};
ghost use Rattle.oci_doc_run.specs.Commands.{asked, asked_of, command_of, LeavesInput};
ghost use Rattle.oci_doc_run.specs.Outputs.{Writes};
ghost use Rattle.oci_doc_run.specs.Refusals.{Tells};

use crate::document::{normal_of_kind, pretty_of_kind};
use crate::pinning::pinned;
use crate::refusal::Refusal;
use crate::text::{digest, reference};
use oci_schemas::Kind;
use std::alloc::Global;
use std::io::{Read, Write};

/// A command with what it is asked of.
#[derive(Clone, Copy)]
pub enum Command<'a> {
    /// `norm KIND`: writes the compact text of a document.
    Normalize(Kind),
    /// `pretty KIND`: writes the pretty text of a document.
    Pretty(Kind),
    /// `ref TEXT`: writes the parts of a reference.
    Reference(&'a str),
    /// `digest TEXT`: writes the parts of a digest.
    Digest(&'a str),
    /// `pin TEXT`: writes a reference with the digest of a descriptor.
    Pin(&'a str),
}

impl<'a> Command<'a> {
    /// The command that the words ask for, if there is one.
    pub fn from_words(words: &'a [String]) -> Option<Command<'a>>
        ensures { option_map asked result ≡ command_of (map string_bytes words.now) }
    {
        match words {
            [command, word] => Command::from_pair(command.as_str(), word.as_str()),
            _ => None,
        }
    }

    fn from_pair(command: &str, word: &'a str) -> Option<Command<'a>>
        ensures { option_map asked result ≡ asked_of command.now word.now }
    {
        match command {
            "norm" => match Kind::from_word(word) {
                Some(kind) => Some(Command::Normalize(kind)),
                None => None,
            },
            "pretty" => match Kind::from_word(word) {
                Some(kind) => Some(Command::Pretty(kind)),
                None => None,
            },
            "ref" => Some(Command::Reference(word)),
            "digest" => Some(Command::Digest(word)),
            "pin" => Some(Command::Pin(word)),
            _ => None,
        }
    }

    /// Makes the whole output of the command, then writes and flushes it.
    pub fn perform<R: Read, W: Write>(
        self,
        alloc: Global,
        reader: &mut R,
        writer: &mut W,
    ) -> Result<(), Refusal>
        ensures ok { OnOk result (Writes (asked self.entry) (R.remaining reader.old) (Appends (W.contents writer.old) (W.contents writer.new))) }
        ensures err { IfErr result (λ r. Tells (asked self.entry) (R.remaining reader.old) (W.contents writer.old) (W.contents writer.new) r) }
        ensures unasked { LeavesInput (asked self.entry) → Keeps (R.remaining reader.old) (R.remaining reader.new) }
    {
        match self {
            Command::Normalize(kind) => normal_of_kind(kind, alloc, reader, writer),
            Command::Pretty(kind) => pretty_of_kind(kind, alloc, reader, writer),
            Command::Reference(text) => reference(alloc, text, writer),
            Command::Digest(text) => digest(alloc, text, writer),
            Command::Pin(text) => pinned(alloc, text, reader, writer),
        }
    }
}
