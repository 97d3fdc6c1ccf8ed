//! Writing compact JSON.
ghost use Rattle.std.specs.Prelude.{◌≡◌, [], ◌∷◌, ◌++◌, IfOk, OnOk, OnErr, IsUtf8};
ghost use Rattle.json.specs.Token.{Token, key as key_token};
ghost use Rattle.serde_json.specs.Data.{Data, unsigned as unsigned_number, null as null_data, boolean as boolean_data, number, string as string_data, array, object, no_items, no_members, Items, Members};
ghost use Rattle.serde_json.specs.Find.{of_integer};
ghost use Rattle.serde_json.specs.Written.{compact_text};
ghost use Rattle.oci_json_tape.specs.Tokens.{data_tokens, IsOpenArray, IsOpenObject};

use json::Writer;
use std::alloc::{AllocError, Global};
use std::marker::Model;

/// Writes the compact text of a JSON value: no spaces, and the shortest escapes. A contract sees the tokens that have been written;
/// commas and colons are placed by the writer. A call that fails is out of memory, and has written nothing.
///
/// Nesting is left to the caller: what was written is a value's text exactly if its tokens are those of the value.
#[derive(Drop)]
pub struct CompactWriter {
    out: Writer,
}

impl Model for CompactWriter {
    ghost use Rattle.std.specs.Prelude.{◌≡◌, List, []};
    ghost use Rattle.json.specs.Token.{Token, tokens_code};

    ghost Value = { List Token };

    ghost coded = { tokens_code };

    ghost view = { λ w. w.out.tokens };

    ghost invariant = { λ w. w.out.before ≡ [] };
}

impl CompactWriter {
    /// A writer with nothing written and a buffer of `capacity` bytes. Fails if out of memory.
    pub fn with_capacity(alloc: Global, capacity: usize) -> Result<CompactWriter, AllocError>
        ensures { IfOk result (λ w. w ≡ []) }
    {
        let bytes = Vec::with_capacity(alloc, capacity)?;
        Ok(CompactWriter {
            out: Writer::new(bytes),
        })
    }

    /// The text.
    #[tactic(auto, using(crate::proofs::Containers::text_of))]
    pub fn into_bytes(self) -> Vec<u8>
        ensures text { (d : Data) → self ≡ data_tokens d → result.items ≡ compact_text d }
        ensures utf8 { IsUtf8 result.items }
    {
        let CompactWriter { out } = self;
        out.into_inner()
    }

    /// Writes null.
    #[inline]
    pub fn null(&mut self) -> Result<(), AllocError>
        ensures ok { OnOk result (self.new ≡ self.old ++ data_tokens null_data) }
        ensures err { OnErr result (self.new ≡ self.old) }
    {
        self.out.null()
    }

    /// Writes a boolean.
    #[inline]
    pub fn boolean(&mut self, b: bool) -> Result<(), AllocError>
        ensures ok { OnOk result (self.new ≡ self.old ++ data_tokens (boolean_data b)) }
        ensures err { OnErr result (self.new ≡ self.old) }
    {
        self.out.boolean(b)
    }

    /// Writes an unsigned integer, in decimal.
    #[inline]
    pub fn unsigned(&mut self, n: u64) -> Result<(), AllocError>
        ensures ok { OnOk result (self.new ≡ self.old ++ data_tokens (number (unsigned_number n))) }
        ensures err { OnErr result (self.new ≡ self.old) }
    {
        self.out.u64(n)
    }

    /// Writes a signed integer, in decimal.
    #[inline]
    pub fn signed(&mut self, n: i64) -> Result<(), AllocError>
        ensures ok { OnOk result (self.new ≡ self.old ++ data_tokens (number (of_integer n))) }
        ensures err { OnErr result (self.new ≡ self.old) }
    {
        self.out.i64(n)
    }

    /// Writes a string, in quotes and escaped.
    #[inline]
    pub fn string(&mut self, text: &str) -> Result<(), AllocError>
        ensures ok { OnOk result (self.new ≡ self.old ++ data_tokens (string_data text.now)) }
        ensures err { OnErr result (self.new ≡ self.old) }
    {
        self.out.string(text)
    }

    /// Opens an array, which has no items yet.
    #[inline]
    pub fn begin_array(&mut self) -> Result<(), AllocError>
        ensures ok { OnOk result (IsOpenArray self.old no_items self.new) }
        ensures err { OnErr result (self.new ≡ self.old) }
    {
        self.out.begin_array()
    }

    /// Closes an array. What stands since it was opened is then the array of its items.
    #[inline]
    pub fn end_array(&mut self) -> Result<(), AllocError>
        ensures ok { OnOk result (self.new ≡ self.old ++ Token.end_array ∷ []) }
        ensures closed { OnOk result ((start : _) (ds : Items) → IsOpenArray start ds self.old → self.new ≡ start ++ data_tokens (array ds)) }
        ensures err { OnErr result (self.new ≡ self.old) }
    {
        self.out.end_array()
    }

    /// Opens an object, which has no members yet.
    #[inline]
    pub fn begin_object(&mut self) -> Result<(), AllocError>
        ensures ok { OnOk result (IsOpenObject self.old no_members self.new) }
        ensures err { OnErr result (self.new ≡ self.old) }
    {
        self.out.begin_object()
    }

    /// Writes the name of a member, with its colon. Its value is to be written next.
    #[inline]
    pub fn key(&mut self, name: &str) -> Result<(), AllocError>
        ensures ok { OnOk result (self.new ≡ self.old ++ key_token name.now ∷ []) }
        ensures err { OnErr result (self.new ≡ self.old) }
    {
        self.out.key(name)
    }

    /// Closes an object. What stands since it was opened is then the object of its members.
    #[inline]
    pub fn end_object(&mut self) -> Result<(), AllocError>
        ensures ok { OnOk result (self.new ≡ self.old ++ Token.end_object ∷ []) }
        ensures closed { OnOk result ((start : _) (ms : Members) → IsOpenObject start ms self.old → self.new ≡ start ++ data_tokens (object ms)) }
        ensures err { OnErr result (self.new ≡ self.old) }
    {
        self.out.end_object()
    }
}
