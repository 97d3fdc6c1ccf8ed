//! Why a file is no policy.
use std::alloc::{AllocError, AllocFailed};
use thiserror::Error;

/// Why a file is no policy.
#[derive(Debug, Drop, Error)]
pub enum PolicyError {
    /// Out of memory.
    #[error("out of memory")]
    Memory,
    /// The text is no TOML document; the line is that of the error.
    #[error("line {line}: {}", .error.message())]
    Toml {
        /// The line, from 1.
        line: usize,
        /// What the TOML reader says.
        error: toml::de::Error,
    },
    /// A regular expression would take too much memory; the line is that at which the rule begins.
    #[error("line {line}: `matches`: the regular expression is too big")]
    TooBig {
        /// The line, from 1.
        line: usize,
    },
    /// The document is no policy; the line is that at which the rule begins.
    #[error("line {line}: {reason}")]
    Rule {
        /// The line, from 1.
        line: usize,
        /// What is wrong.
        reason: Reason,
    },
}

/// What is wrong with a rule.
#[derive(Debug, Drop, Error)]
pub enum Reason {
    /// A member that has to be there is not.
    #[error("`{0}` is missing")]
    Missing(&'static str),
    /// A member is of another kind, or has another value, than is asked for.
    #[error("`{key}`: expected {expected}")]
    Expected {
        /// The name of the member.
        key: &'static str,
        /// What is asked for.
        expected: &'static str,
    },
    /// A member is an empty array or an empty string, and would ask nothing, or what nothing keeps.
    #[error("`{0}` is empty")]
    Empty(&'static str),
    /// A member is no regular expression.
    #[error("`{key}`: expected a regular expression: {what}, at byte {at}")]
    Pattern {
        /// The name of the member.
        key: &'static str,
        /// What is wrong with it.
        what: &'static str,
        /// Where that begins: the byte, from 0.
        at: usize,
    },
    /// There is no member of this name.
    #[error("unknown member `{0}`")]
    Unknown(String),
    /// The table has no test.
    #[error("it tests nothing: a member as `one_of` is missing")]
    NoTest,
    /// The table has two members of which one is a test, or none.
    #[error("`{0}` beside another: a rule tests one thing")]
    SecondTest(String),
}

/// Why a value is not read.
#[derive(Debug, Drop)]
pub(crate) enum Fault {
    /// Out of memory.
    Memory,
    /// A regular expression would take too much memory.
    TooBig,
    /// It is not what is asked for.
    Refused(Reason),
}

impl From<AllocError> for Fault {
    ghost use Rattle.std.specs.Prelude.{◌≡◌};
    ghost use Rattle.oci_policies.specs.declared.error.Fault.TheVariants.{Memory};

    ghost from_gives = { λ _ e. e ≡ Memory };

    fn from(_refused: AllocError) -> Fault {
        Fault::Memory
    }
}

impl<T: Drop> From<AllocFailed<T>> for Fault {
    ghost use Rattle.std.specs.Prelude.{◌≡◌};
    ghost use Rattle.oci_policies.specs.declared.error.Fault.TheVariants.{Memory};

    ghost from_gives = { λ _ e. e ≡ Memory };

    fn from(_refused: AllocFailed<T>) -> Fault {
        Fault::Memory
    }
}

impl From<AllocError> for PolicyError {
    ghost use Rattle.std.specs.Prelude.{◌≡◌};
    ghost use Rattle.oci_policies.specs.declared.error.PolicyError.TheVariants.{Memory};

    ghost from_gives = { λ _ e. e ≡ Memory };

    fn from(_refused: AllocError) -> PolicyError {
        PolicyError::Memory
    }
}

impl<T: Drop> From<AllocFailed<T>> for PolicyError {
    ghost use Rattle.std.specs.Prelude.{◌≡◌};
    ghost use Rattle.oci_policies.specs.declared.error.PolicyError.TheVariants.{Memory};

    ghost from_gives = { λ _ e. e ≡ Memory };

    fn from(_refused: AllocFailed<T>) -> PolicyError {
        PolicyError::Memory
    }
}

/// That a member is empty.
pub(crate) fn empty(key: &'static str) -> Fault {
    Fault::Refused(Reason::Empty(key))
}

/// That a member is not what is asked for.
pub(crate) fn expected(key: &'static str, expected: &'static str) -> Fault {
    Fault::Refused(Reason::Expected { key, expected })
}
