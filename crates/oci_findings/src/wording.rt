//! What a schema expects, in words.
ghost use Rattle.std.specs.Prelude.{◌≡◌, ◌++◌, OnOk, codes, map, string_bytes};
ghost use Rattle.std.specs.Fmt.{signed_decimal};
ghost use Rattle.oci_findings.specs.Wording.{scalar_words, kind_words, expected_words, marked, mark_text};

use oci_schema::{Expected, ExpectedKind, Scalar};
use std::alloc::{AllocError, Global};

/// Adds what a scalar may be.
pub fn push_scalar(text: &mut String, scalar: &Scalar, alloc: Global) -> Result<(), AllocError>
    ensures { OnOk result (string_bytes text.new ≡ string_bytes text.old ++ scalar_words scalar.now) }
{
    match scalar {
        Scalar::String | Scalar::MediaType | Scalar::Os | Scalar::Arch => text.push_str("a string"),
        Scalar::Boolean => text.push_str("a boolean"),
        Scalar::Integer(low, high) => push_bounds(text, *low, *high, alloc),
        Scalar::Enum(names) => push_names(text, names),
        Scalar::Digest => text.push_str("a digest"),
        Scalar::CpuList => text.push_str("a CPU list as a string"),
        Scalar::Capabilities => text.push_str("an array of capability names"),
        Scalar::Keys => text.push_str("an object of objects"),
        Scalar::Detail => {
            text.push_str("a value other than null whose numbers are 64-bit integers")
        }
        Scalar::FreeValues => text.push_str("an object whose numbers are 64-bit integers"),
    }
}

fn push_bounds(text: &mut String, low: i128, high: i128, alloc: Global) -> Result<(), AllocError>
    ensures { OnOk result (string_bytes text.new ≡ string_bytes text.old ++ (codes "an integer from " ++ (signed_decimal low ++ (codes " to " ++ signed_decimal high)))) }
{
    let low = low.to_string(alloc)?;
    let high = high.to_string(alloc)?;
    push_range(text, low.as_str(), high.as_str())
}

fn push_range(text: &mut String, low: &str, high: &str) -> Result<(), AllocError>
    ensures { OnOk result (string_bytes text.new ≡ string_bytes text.old ++ (codes "an integer from " ++ (low.now ++ (codes " to " ++ high.now)))) }
{
    text.push_str("an integer from ")?;
    text.push_str(low)?;
    text.push_str(" to ")?;
    text.push_str(high)
}

/// Adds the names of an enum.
fn push_names(text: &mut String, names: &[&str]) -> Result<(), AllocError>
    ensures { OnOk result (string_bytes text.new ≡ string_bytes text.old ++ (codes "one of the strings" ++ marked (codes " ") (map (λ name. name.now) names.now))) }
{
    text.push_str("one of the strings")?;
    push_marked_names(text, names)
}

fn push_marked_names(text: &mut String, names: &[&str]) -> Result<(), AllocError>
    ensures { OnOk result (string_bytes text.new ≡ string_bytes text.old ++ marked (codes " ") (map (λ name. name.now) names.now)) }
{
    let mut first = true;
    for name in names {
        let mark = mark_of(first);
        push_marked(text, mark, name)?;
        first = false;
    }
    Ok(())
}

/// What is before the first name, or before another one.
fn mark_of(first: bool) -> &'static str
    ensures { result.now ≡ mark_text first }
{
    if first { " " } else { ", " }
}

fn push_marked(text: &mut String, mark: &str, name: &str) -> Result<(), AllocError>
    ensures { OnOk result (string_bytes text.new ≡ string_bytes text.old ++ (mark.now ++ name.now)) }
{
    text.push_str(mark)?;
    text.push_str(name)
}

/// Adds what a value of a kind is.
fn push_kind(text: &mut String, kind: &ExpectedKind, alloc: Global) -> Result<(), AllocError>
    ensures { OnOk result (string_bytes text.new ≡ string_bytes text.old ++ kind_words kind.now) }
{
    match kind {
        ExpectedKind::Scalar(scalar) => push_scalar(text, scalar, alloc),
        ExpectedKind::Array => text.push_str("an array"),
        ExpectedKind::Object => text.push_str("an object"),
    }
}

/// Adds what is expected at a place.
pub fn push_expected(
    text: &mut String,
    expected: &Expected,
    alloc: Global,
) -> Result<(), AllocError>
    ensures { OnOk result (string_bytes text.new ≡ string_bytes text.old ++ expected_words expected.now) }
{
    match expected {
        Expected::Value(kind) => {
            text.push_str("expected ")?;
            push_kind(text, kind, alloc)
        }
        Expected::Member(kind) => push_missing(text, kind, alloc),
        Expected::NoAlias(alias) => push_alias(text, alias),
    }
}

fn push_missing(text: &mut String, kind: &ExpectedKind, alloc: Global) -> Result<(), AllocError>
    ensures { OnOk result (string_bytes text.new ≡ string_bytes text.old ++ (codes "required member is missing (" ++ (kind_words kind.now ++ codes ")"))) }
{
    text.push_str("required member is missing (")?;
    push_kind(text, kind, alloc)?;
    text.push_str(")")
}

fn push_alias(text: &mut String, alias: &str) -> Result<(), AllocError>
    ensures { OnOk result (string_bytes text.new ≡ string_bytes text.old ++ (codes "expected no member " ++ (alias.now ++ codes " beside it"))) }
{
    text.push_str("expected no member ")?;
    text.push_str(alias)?;
    text.push_str(" beside it")
}
