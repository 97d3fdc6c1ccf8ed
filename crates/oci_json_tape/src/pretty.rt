//! Writing pretty JSON.
ghost use Rattle.std.specs.Prelude.{◌≡◌, [], false, IsUtf8};
ghost use Rattle.serde_json.specs.Data.{Data};
ghost use Rattle.serde_json.specs.Written.{has_float};
ghost use Rattle.oci_json.specs.Engines.{IsPretty};
ghost use Rattle.oci_json.specs.Readable.{IsReadable};
ghost use Rattle.oci_json_tape.specs.Tokens.{data_tokens};

use crate::sink::Sink;
use itoa::Buffer;
use json::{Pretty, Token};
use std::alloc::{AllocError, Global};
use std::marker::Model;

/// Writes the pretty text of a JSON value, as `serde_json` does: a line for each item and member, indented by two spaces a level. A
/// contract sees the tokens that have been written; commas, colons and gaps are placed by the writer. A call that fails is out of
/// memory, and has written nothing.
///
/// Nesting is left to the caller: what was written is a value's text exactly if its tokens are those of the value.
#[derive(Drop)]
pub struct PrettyWriter {
    out: Pretty,
}

impl Model for PrettyWriter {
    ghost use Rattle.std.specs.Prelude.{List};
    ghost use Rattle.json.specs.Token.{Token, tokens_code};

    ghost Value = { List Token };

    ghost coded = { tokens_code };

    ghost view = { λ w. w.out };
}

impl PrettyWriter {
    /// A writer with nothing written.
    pub fn new(alloc: Global) -> PrettyWriter
        ensures { result ≡ [] }
    {
        PrettyWriter {
            out: Pretty::new(alloc),
        }
    }

    /// The text.
    pub fn into_bytes(self) -> Vec<u8>
        ensures text { (d : Data) → self ≡ data_tokens d → IsReadable d → has_float d ≡ false → IsPretty d result.items }
        ensures utf8 { IsUtf8 result.items }
    {
        let PrettyWriter { out } = self;
        out.into_inner()
    }
}

/// The tokens become text.
impl Sink for PrettyWriter {
    ghost use Rattle.std.specs.Prelude.{◌≡◌};

    ghost holds = { λ w ts. w ≡ ts };

    #[inline]
    fn null(&mut self) -> Result<(), AllocError> {
        self.out.token(Token::Null)
    }

    #[inline]
    fn boolean(&mut self, truth: bool) -> Result<(), AllocError> {
        self.out.token(Token::Bool(truth))
    }

    #[inline]
    fn unsigned(&mut self, integer: u64) -> Result<(), AllocError> {
        let mut buffer = Buffer::new();
        self.out.token(Token::Number(buffer.format(integer)))
    }

    #[inline]
    fn signed(&mut self, integer: i64) -> Result<(), AllocError> {
        let mut buffer = Buffer::new();
        self.out.token(Token::Number(buffer.format(integer)))
    }

    #[inline]
    fn string(&mut self, text: &str) -> Result<(), AllocError> {
        self.out.token(Token::String(text))
    }

    #[inline]
    fn begin_array(&mut self) -> Result<(), AllocError> {
        self.out.token(Token::BeginArray)
    }

    #[inline]
    fn end_array(&mut self) -> Result<(), AllocError> {
        self.out.token(Token::EndArray)
    }

    #[inline]
    fn begin_object(&mut self) -> Result<(), AllocError> {
        self.out.token(Token::BeginObject)
    }

    #[inline]
    fn key(&mut self, name: &str) -> Result<(), AllocError> {
        self.out.token(Token::Key(name))
    }

    #[inline]
    fn end_object(&mut self) -> Result<(), AllocError> {
        self.out.token(Token::EndObject)
    }
}
