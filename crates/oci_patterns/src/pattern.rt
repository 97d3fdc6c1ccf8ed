//! Matches of regular expressions, with the syntax and the answers of the crate `regex`.
ghost use Rattle.std.specs.Prelude.{◌≡◌, ◌↔◌, IsTrue, IfOk, IfErr, OnOk};
ghost use Rattle.oci_patterns.specs.Expressions.{IsExpression, HasMatch, IsSyntax};
ghost use Rattle.oci_patterns.specs.declared.pattern.PatternError.TheVariants.{Memory, TooBig};

use regex::{Error as RegexError, Regex};
use std::alloc::{AllocError, Global};
use thiserror::Error;

/// Why a text is not taken as a regular expression.
#[derive(Clone, Copy, Debug, Error)]
pub enum PatternError {
    /// Out of memory.
    #[error("out of memory")]
    Memory,
    /// It would take more than the 10 MiB that a compiled expression may take.
    #[error("the regular expression is too big")]
    TooBig,
    /// It is no regular expression.
    #[error("{what}, at byte {at}")]
    Syntax {
        /// What is wrong.
        what: &'static str,
        /// Where that begins: the byte, from 0.
        at: usize,
    },
}

/// Checks that a text is a regular expression, in the syntax of the crate `regex`. Fails with `Syntax` if it is none, and with `TooBig` if
/// it would take too much memory.
#[tactic(auto, using(crate::proofs::Matching::is_expression, crate::proofs::Matching::no_expression, crate::proofs::Matching::not_expression))]
pub fn validate(pattern: &str, alloc: Global) -> Result<(), PatternError>
    ensures ok { OnOk result (IsExpression pattern.now) }
    ensures refused { IfErr result (λ e. ¬ (e ≡ Memory) → ¬ (e ≡ TooBig) → ¬ IsExpression pattern.now) }
{
    match Regex::new(alloc, pattern) {
        Ok(regex) => {
            drop(regex);
            Ok(())
        }
        Err(error) => Err(refusal(error)),
    }
}

fn refusal(error: RegexError) -> PatternError
    ensures { ¬ (result ≡ Memory) → ¬ (result ≡ TooBig) → IsSyntax error }
{
    match error {
        RegexError::Syntax(error) => PatternError::Syntax {
            what: error.kind.message(),
            at: error.span.start,
        },
        RegexError::OutOfMemory => PatternError::Memory,
        // `Regex::new` is proved not to give `Internal`.
        RegexError::CompiledTooBig | RegexError::Internal => PatternError::TooBig,
    }
}

/// Returns whether a part of the text matches the regular expression: `^` and `$` hold it to the ends of the text. A pattern that is no
/// regular expression has no match. Fails if out of memory, or if the expression would take too much of it.
pub fn is_match(pattern: &str, text: &str, alloc: Global) -> Result<bool, AllocError>
    ensures { IfOk result (λ b. IsTrue b ↔ HasMatch pattern.now text.now) }
{
    match Regex::new(alloc, pattern) {
        Ok(regex) => {
            let mut matcher = regex.matcher(alloc)?;
            Ok(matcher.is_match(text))
        }
        Err(RegexError::Syntax(_)) => Ok(false),
        Err(_) => Err(AllocError),
    }
}
