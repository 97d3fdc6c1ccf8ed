//! Values with no members or items of their own in a schema, and whether a member is required.
ghost use Rattle.std.specs.Prelude.{Some, codes};
ghost use Rattle.std.specs.Fmt.{DisplaysOnOk};
ghost use Rattle.oci_schema.specs.Shapes.{names_of};
ghost use Rattle.oci_schema.specs.Texts.{listed};

use std::fmt;

/// A value with no members or items that a schema describes.
#[derive(Clone, Copy)]
pub enum Scalar {
    /// A string.
    String,
    /// A boolean.
    Boolean,
    /// An integer, from the one bound to the other, both included.
    Integer(i128, i128),
    /// One of these strings.
    Enum(&'static [&'static str]),
    /// Any string; the media types of the image specification are named variants.
    MediaType,
    /// Any string; the operating systems of `GOOS` are named variants.
    Os,
    /// Any string; the architectures of `GOARCH` are named variants.
    Arch,
    /// A digest (image specification, "Descriptor", "Digests").
    Digest,
    /// A CPU list (Linux, cpuset(7), "List format"), as a string.
    CpuList,
    /// An array of names of capabilities.
    Capabilities,
    /// An object of objects, of which only the names count.
    Keys,
    /// Any value but null, in which each number is a 64-bit integer.
    Detail,
    /// An object in which each number is a 64-bit integer.
    FreeValues,
}

/// The value of a member that is absent.
#[derive(Clone, Copy)]
pub enum DefaultValue {
    /// This string.
    String(&'static str),
    /// This boolean.
    Boolean(bool),
    /// This integer.
    Integer(i128),
    /// This variant of an enum, by its JSON text.
    Variant(&'static str),
    /// The empty array.
    EmptyArray,
}

/// Whether a member is required, and what its absence means.
#[derive(Clone, Copy)]
pub enum Presence {
    /// It is required.
    Required,
    /// It may be absent or null, and is then omitted.
    Optional,
    /// It may be absent or null, and is then written as null.
    Nullable,
    /// It may be absent or null, and is omitted then and where it is an empty array.
    UnlessEmpty,
    /// It may be absent, and then has this value.
    Defaulted(DefaultValue),
    /// It may be absent, and is then the record whose members have these values, or none.
    DefaultedRecord(&'static [Option<DefaultValue>]),
}

impl fmt::Display for Scalar {
    ghost use Rattle.std.specs.Prelude.{Some};
    ghost use Rattle.oci_schema.specs.Shapes.{scalar_shape};
    ghost use Rattle.oci_schema.specs.Texts.{shape_text};

    ghost output = { λ x. Some (shape_text (scalar_shape x)) };

    fn fmt<W: fmt::Write>(&self, f: &mut fmt::Formatter<W>) -> fmt::Result {
        match self {
            Scalar::String | Scalar::MediaType | Scalar::Os | Scalar::Arch => {
                f.write_str("a string")
            }
            Scalar::Boolean => f.write_str("a boolean"),
            Scalar::Integer(low, high) => write!(f, "an integer from {low} to {high}"),
            Scalar::Enum(table) => {
                f.write_str("one of the strings")?;
                write_names(table, f)
            }
            Scalar::Digest => f.write_str("a digest"),
            Scalar::CpuList => f.write_str("a CPU list as a string"),
            Scalar::Capabilities => f.write_str("an array of capability names"),
            Scalar::Keys => f.write_str("an object of objects"),
            Scalar::Detail => {
                f.write_str("a value other than null whose numbers are 64-bit integers")
            }
            Scalar::FreeValues => f.write_str("an object whose numbers are 64-bit integers"),
        }
    }
}

/// Writes the names, with commas between them.
fn write_names<W: fmt::Write>(table: &[&str], f: &mut fmt::Formatter<W>) -> fmt::Result
    ensures { DisplaysOnOk W.write_str_gives f.old result (Some (listed (codes " ") (names_of table.now))) f.new }
{
    let mut mark = " ";
    for name in table {
        f.write_str(mark)?;
        f.write_str(name)?;
        mark = ", ";
    }
    Ok(())
}
