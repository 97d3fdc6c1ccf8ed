//! All that an error knows, in one line.
ghost use Rattle.std.specs.Prelude.{◌≡◌};

use oci_base::{OciSpecError, SchemaFault, SerDeError};
use std::fmt;

/// What an error says: a line without a newline of its own, which [`explain`] makes of a borrowed error.
#[derive(Clone, Copy, Debug)]
pub struct Explanation<'a> {
    error: &'a OciSpecError,
}

/// Returns a value that displays all that an error says. A schema error: the record and the member that were rejected, as
/// `Descriptor.size is missing or not as its schema wants it`, or the record alone where the whole document was rejected. A JSON error:
/// what the parser found, with line and column. A builder's error: the field that was not set. An I/O error: the system's reason, with
/// its number. `Other`: its text. `Memory`: `out of memory`.
///
/// It takes no memory. What the system and the JSON parser print is promised by no clause.
pub fn explain(error: &OciSpecError) -> Explanation<'_>
    ensures { result.error.now ≡ error.now }
{
    Explanation { error }
}

impl fmt::Display for Explanation<'_> {
    ghost use Rattle.oci_text.specs.Explained.{explained};

    ghost output = { λ x. explained x.error.now };

    fn fmt<W: fmt::Write>(&self, f: &mut fmt::Formatter<W>) -> fmt::Result {
        match self.error {
            OciSpecError::Other(text) => f.write_str(text.as_str()),
            OciSpecError::Io(fault) => write!(f, "{fault}"),
            OciSpecError::SerDe(SerDeError::Json(fault)) => write!(f, "{fault}"),
            OciSpecError::SerDe(SerDeError::Schema(fault)) => write!(f, "{}", Place { fault }),
            OciSpecError::Builder(unset) => write!(
                f,
                "`{}` must be initialized",
                unset.field_name()
            ),
            OciSpecError::Memory => f.write_str("out of memory"),
        }
    }
}

/// A schema error, to be displayed.
#[derive(Clone, Copy)]
struct Place<'a> {
    fault: &'a SchemaFault,
}

impl fmt::Display for Place<'_> {
    ghost use Rattle.std.specs.Prelude.{Some};
    ghost use Rattle.oci_text.specs.Explained.{explained_fault};

    ghost output = { λ x. Some (explained_fault x.fault.now) };

    fn fmt<W: fmt::Write>(&self, f: &mut fmt::Formatter<W>) -> fmt::Result {
        let (owner, member) = (self.fault.owner, self.fault.member);
        if member.is_empty() {
            write!(f, "{owner} is not as its schema wants it")
        } else {
            write!(
                f,
                "{owner}.{member} is missing or not as its schema wants it"
            )
        }
    }
}
