//! The calls that are made on the text of a reference.
ghost use Rattle.std.specs.Prelude.{◌≡◌};
ghost use Rattle.oci_bench.specs.Words.{text_call_of};

use crate::arguments::Run;
use anyhow::Result;
use oci_reference::{Reference, Scanner, parts};
use std::alloc::Global;

/// A call on the text of a reference.
#[derive(Clone, Copy)]
pub enum TextCall {
    /// `from_str`: the reference.
    Read,
    /// `parts`: the text's parts, without taking memory.
    Parts,
    /// `scanner`: the text's bytes, pushed one by one.
    Scanner,
}

impl TextCall {
    /// The call that a word names, if there is one.
    pub fn from_word(word: &str) -> Option<TextCall>
        ensures { result ≡ text_call_of word.now }
    {
        match word {
            "from_str" => Some(TextCall::Read),
            "parts" => Some(TextCall::Parts),
            "scanner" => Some(TextCall::Scanner),
            _ => None,
        }
    }
}

/// Makes the call once.
fn make(alloc: Global, call: TextCall, text: &str) -> Result<()> {
    match call {
        TextCall::Read => {
            let _reference = Reference::from_str(alloc, text)?;
        }
        TextCall::Parts => {
            let _pieces = parts(text)?;
        }
        TextCall::Scanner => {
            let _places = pushed(text)?;
        }
    }
    Ok(())
}

/// Where the name ends, as a scanner tells that is shown the bytes one by one.
fn pushed(text: &str) -> Result<usize> {
    let mut scanner = Scanner::new();
    for b in text.as_bytes() {
        if scanner.room() {
            scanner.push(*b);
        }
    }
    Ok(scanner.finish()?.name)
}

/// Makes a call on each line of the bytes.
pub fn perform(alloc: Global, bytes: &[u8], run: Run<TextCall>) -> Result<()> {
    for text in str::from_utf8(bytes)?.lines() {
        for _ in 0..run.count {
            make(alloc, run.call, text)?;
        }
    }
    Ok(())
}
