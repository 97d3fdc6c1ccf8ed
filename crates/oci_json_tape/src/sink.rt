//! What a walk writes to: a text, compact or pretty, or nothing where a document is only to be checked.
ghost use Rattle.std.specs.Prelude.{◌≡◌, ◌++◌, ◌∷◌, [], List, OnOk};
ghost use Rattle.json.specs.Token.{Token, begin_array, end_array, begin_object, end_object, key as key_token};
ghost use Rattle.serde_json.specs.Data.{unsigned as unsigned_number, null as null_data, boolean as boolean_data, number, string as string_data};
ghost use Rattle.serde_json.specs.Find.{of_integer};
ghost use Rattle.oci_json_tape.specs.Sinks.{Writes};
ghost use Rattle.oci_json_tape.specs.Tokens.{data_tokens};

use crate::compact::CompactWriter;
use std::alloc::AllocError;

/// Takes the tokens of a JSON text, one call after the other. A call fails only if out of memory.
pub trait Sink {
    /// Whether the sink may hold these tokens.
    ghost holds: { Self → List Token → Type 0 };

    /// Takes null.
    fn null(&mut self) -> Result<(), AllocError>
        ensures { OnOk result (Writes holds (λ a b. b ≡ a ++ data_tokens null_data) self.old self.new) };

    /// Takes a boolean.
    fn boolean(&mut self, truth: bool) -> Result<(), AllocError>
        ensures { OnOk result (Writes holds (λ a b. b ≡ a ++ data_tokens (boolean_data truth)) self.old self.new) };

    /// Takes an unsigned integer.
    fn unsigned(&mut self, integer: u64) -> Result<(), AllocError>
        ensures { OnOk result (Writes holds (λ a b. b ≡ a ++ data_tokens (number (unsigned_number integer))) self.old self.new) };

    /// Takes a signed integer.
    fn signed(&mut self, integer: i64) -> Result<(), AllocError>
        ensures { OnOk result (Writes holds (λ a b. b ≡ a ++ data_tokens (number (of_integer integer))) self.old self.new) };

    /// Takes a string.
    fn string(&mut self, text: &str) -> Result<(), AllocError>
        ensures { OnOk result (Writes holds (λ a b. b ≡ a ++ data_tokens (string_data text.now)) self.old self.new) };

    /// Takes the opening of an array.
    fn begin_array(&mut self) -> Result<(), AllocError>
        ensures { OnOk result (Writes holds (λ a b. b ≡ a ++ begin_array ∷ []) self.old self.new) };

    /// Takes the end of an array.
    fn end_array(&mut self) -> Result<(), AllocError>
        ensures { OnOk result (Writes holds (λ a b. b ≡ a ++ end_array ∷ []) self.old self.new) };

    /// Takes the opening of an object.
    fn begin_object(&mut self) -> Result<(), AllocError>
        ensures { OnOk result (Writes holds (λ a b. b ≡ a ++ begin_object ∷ []) self.old self.new) };

    /// Takes the name of a member. Its value is to be taken next.
    fn key(&mut self, name: &str) -> Result<(), AllocError>
        ensures { OnOk result (Writes holds (λ a b. b ≡ a ++ key_token name.now ∷ []) self.old self.new) };

    /// Takes the end of an object.
    fn end_object(&mut self) -> Result<(), AllocError>
        ensures { OnOk result (Writes holds (λ a b. b ≡ a ++ end_object ∷ []) self.old self.new) };
}

/// The tokens become text.
impl Sink for CompactWriter {
    ghost use Rattle.std.specs.Prelude.{◌≡◌};

    ghost holds = { λ w ts. w ≡ ts };

    #[inline(always)]
    fn null(&mut self) -> Result<(), AllocError> {
        CompactWriter::null(self)
    }

    #[inline(always)]
    fn boolean(&mut self, truth: bool) -> Result<(), AllocError> {
        CompactWriter::boolean(self, truth)
    }

    #[inline(always)]
    fn unsigned(&mut self, integer: u64) -> Result<(), AllocError> {
        CompactWriter::unsigned(self, integer)
    }

    #[inline(always)]
    fn signed(&mut self, integer: i64) -> Result<(), AllocError> {
        CompactWriter::signed(self, integer)
    }

    #[inline(always)]
    fn string(&mut self, text: &str) -> Result<(), AllocError> {
        CompactWriter::string(self, text)
    }

    #[inline(always)]
    fn begin_array(&mut self) -> Result<(), AllocError> {
        CompactWriter::begin_array(self)
    }

    #[inline(always)]
    fn end_array(&mut self) -> Result<(), AllocError> {
        CompactWriter::end_array(self)
    }

    #[inline(always)]
    fn begin_object(&mut self) -> Result<(), AllocError> {
        CompactWriter::begin_object(self)
    }

    #[inline(always)]
    fn key(&mut self, name: &str) -> Result<(), AllocError> {
        CompactWriter::key(self, name)
    }

    #[inline(always)]
    fn end_object(&mut self) -> Result<(), AllocError> {
        CompactWriter::end_object(self)
    }
}

/// A sink that keeps nothing.
#[derive(Clone, Copy)]
pub struct Nothing;

/// The tokens are dropped.
impl Sink for Nothing {
    ghost use Rattle.std.specs.Prelude.{⊤};

    ghost holds = { λ n ts. ⊤ };

    #[inline(always)]
    fn null(&mut self) -> Result<(), AllocError> {
        Ok(())
    }

    #[inline(always)]
    fn boolean(&mut self, _truth: bool) -> Result<(), AllocError> {
        Ok(())
    }

    #[inline(always)]
    fn unsigned(&mut self, _integer: u64) -> Result<(), AllocError> {
        Ok(())
    }

    #[inline(always)]
    fn signed(&mut self, _integer: i64) -> Result<(), AllocError> {
        Ok(())
    }

    #[inline(always)]
    fn string(&mut self, _text: &str) -> Result<(), AllocError> {
        Ok(())
    }

    #[inline(always)]
    fn begin_array(&mut self) -> Result<(), AllocError> {
        Ok(())
    }

    #[inline(always)]
    fn end_array(&mut self) -> Result<(), AllocError> {
        Ok(())
    }

    #[inline(always)]
    fn begin_object(&mut self) -> Result<(), AllocError> {
        Ok(())
    }

    #[inline(always)]
    fn key(&mut self, _name: &str) -> Result<(), AllocError> {
        Ok(())
    }

    #[inline(always)]
    fn end_object(&mut self) -> Result<(), AllocError> {
        Ok(())
    }
}
