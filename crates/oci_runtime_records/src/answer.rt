//! What a resolver of paths answers.
ghost use Rattle.std.specs.Prelude.{ℕ, List, string_bytes, IfOk, IfErr};
ghost use Rattle.oci_base.specs.declared.error.OciSpecError.{OciSpecError};
ghost use Rattle.oci_runtime_records.specs.Answers.{GivesText, GivesError};

use oci_base::Result;

/// What a resolver of paths answers: a text, or why there is none.
pub trait Answer: Drop {
    /// That it is this text.
    ghost gives: { Self → List ℕ → Type 0 };

    /// That it is this refusal.
    ghost refuses: { Self → OciSpecError → Type 0 };

    /// The text, or why there is none.
    fn answer(self) -> Result<String>
        ensures ok { IfOk result (λ t. gives self (string_bytes t)) }
        ensures err { IfErr result (refuses self) };
}

impl Answer for Result<String> {
    ghost gives = { GivesText };

    ghost refuses = { GivesError };

    fn answer(self) -> Result<String> {
        self
    }
}
