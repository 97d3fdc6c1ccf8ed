//! Violations of a schema by a value.
ghost use Rattle.std.specs.Prelude.{◌≡◌};
ghost use Rattle.oci_schema.specs.Shapes.{scalar_shape, part_shape, schema_shape};
ghost use Rattle.oci_schema.specs.Violations.{kind_of, value_kind};

use crate::{Part, Records, Scalar, Schema};
use oci_base::Escaped;
use std::fmt;

/// A kind of values. The items and members of a value have violations of their own.
#[derive(Clone, Copy)]
pub enum ExpectedKind {
    /// A scalar.
    Scalar(Scalar),
    /// An array.
    Array,
    /// An object.
    Object,
}

/// What is expected at a place.
#[derive(Clone, Copy)]
pub enum Expected {
    /// A value of this kind, which the value there is not.
    Value(ExpectedKind),
    /// A member of this kind, which is missing.
    Member(ExpectedKind),
    /// No member of this alias, since one of its own name is there.
    NoAlias(&'static str),
}

/// A violation of a schema.
#[derive(Drop)]
pub struct Violation {
    /// Where it is, as a JSON pointer (RFC 6901) from the whole value.
    pub pointer: String,
    /// What is expected there.
    pub expected: Expected,
}

/// The kind of the values that the schema allows.
pub fn expected_kind<T: Records>(records: &T, schema: &Schema) -> ExpectedKind
    ensures { value_kind result ≡ kind_of (schema_shape (T.shape_at records.now) schema.now) }
{
    match schema {
        Schema::One(part) => part_kind(records, part),
        Schema::List(_) => ExpectedKind::Array,
        Schema::Map(_) => ExpectedKind::Object,
    }
}

fn part_kind<T: Records>(records: &T, part: &Part) -> ExpectedKind
    ensures { value_kind result ≡ kind_of (part_shape (T.shape_at records.now) part.now) }
{
    match part {
        Part::Scalar(scalar) => scalar_kind(scalar),
        Part::Record(place) => record_kind(records, *place),
    }
}

fn scalar_kind(scalar: &Scalar) -> ExpectedKind
    ensures { value_kind result ≡ kind_of (scalar_shape scalar.now) }
{
    ExpectedKind::Scalar(*scalar)
}

/// An object. The look-up is for its contract, which says that the shape at this place is that of an object.
fn record_kind<T: Records>(records: &T, place: usize) -> ExpectedKind
    ensures { value_kind result ≡ kind_of (T.shape_at records.now place) }
{
    let _record = records.record(place);
    ExpectedKind::Object
}

impl fmt::Display for ExpectedKind {
    ghost use Rattle.std.specs.Prelude.{Some};
    ghost use Rattle.oci_schema.specs.Lines.{kind_text};
    ghost use Rattle.oci_schema.specs.Violations.{value_kind};

    ghost output = { λ x. Some (kind_text (value_kind x)) };

    fn fmt<W: fmt::Write>(&self, f: &mut fmt::Formatter<W>) -> fmt::Result {
        match self {
            ExpectedKind::Scalar(scalar) => write!(f, "{scalar}"),
            ExpectedKind::Array => f.write_str("an array"),
            ExpectedKind::Object => f.write_str("an object"),
        }
    }
}

impl fmt::Display for Expected {
    ghost use Rattle.std.specs.Prelude.{Some};
    ghost use Rattle.oci_schema.specs.Lines.{expectation_text};
    ghost use Rattle.oci_schema.specs.Violations.{expectation_of};

    ghost output = { λ x. Some (expectation_text (expectation_of x)) };

    fn fmt<W: fmt::Write>(&self, f: &mut fmt::Formatter<W>) -> fmt::Result {
        match self {
            Expected::Value(kind) => write!(f, "{kind}"),
            Expected::Member(kind) => write!(f, "required member is missing ({kind})"),
            Expected::NoAlias(alias) => write!(f, "no member {alias} beside it"),
        }
    }
}

/// The line of the violation: its pointer, `: ` and what is expected there. The pointer is escaped, so that no name of a member ends
/// the line, moves a terminal's cursor or reverses the direction of what is read.
impl fmt::Display for Violation {
    ghost use Rattle.std.specs.Prelude.{Some};
    ghost use Rattle.oci_schema.specs.Lines.{line};
    ghost use Rattle.oci_schema.specs.Violations.{reported};

    ghost output = { λ x. Some (line (reported x)) };

    fn fmt<W: fmt::Write>(&self, f: &mut fmt::Formatter<W>) -> fmt::Result {
        let pointer = Escaped(self.pointer.as_str());
        let expected = self.expected;
        write!(f, "{pointer}: {expected}")
    }
}
