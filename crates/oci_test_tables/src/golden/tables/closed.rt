//! Enums with a text for each variant. What is found of a text or a value is made into a row, which has to be one of the table's.

use anyhow::Result;
use oci_model::{ClosedName, JsonName};
use oci_test_support::rows::{ask, compare, count, count_variants, read, report, text_of};
use std::alloc::Global;
use std::fmt::{Debug, Display};

/// An enum that a call of its own reads from a text.
pub trait FromText: Debug + Drop {
    /// The value of a text, if it has one.
    fn read(alloc: Global, text: &str) -> Option<Self>;
}

/// An enum with a number for each variant.
pub trait Numbered: ClosedName + Debug {
    /// The variant's number.
    fn number_of(&self) -> u32;
}

/// Compares the JSON texts: those of the table are read as their variants, and each variant writes its own.
pub fn json<T: JsonName + Debug>(rt: &HostRuntime, table: &str, all: &[T]) -> Result<()> {
    spelled::<T>(rt, table, "json")?;
    written(rt, table, "json", all)
}

/// Compares what the texts of a kind of rows are read as in JSON.
pub fn spelled<T: JsonName + Debug>(rt: &HostRuntime, table: &str, kind: &str) -> Result<()> {
    let rows = read(rt, table)?;
    let mut compared = 0usize;
    for row in rows.as_str().split('\n') {
        if let Some(text) = text_of(row, kind) {
            compare_read(rt, table, kind, row, text, T::from_json_name(text))?;
            compared = compared.saturating_add(1);
        }
    }
    count(rt, table, kind, compared)
}

/// Compares what the texts of a kind of rows are read as by the enum's own call.
pub fn made<T: FromText>(rt: &HostRuntime, table: &str, kind: &str) -> Result<()> {
    let rows = read(rt, table)?;
    let mut compared = 0usize;
    for row in rows.as_str().split('\n') {
        if let Some(text) = text_of(row, kind) {
            compare_read(rt, table, kind, row, text, T::read(rt.alloc(), text))?;
            compared = compared.saturating_add(1);
        }
    }
    count(rt, table, kind, compared)
}

/// Compares what a row's text is read as with the row.
fn compare_read<T: Debug + Drop>(
    rt: &HostRuntime,
    table: &str,
    kind: &str,
    row: &str,
    text: &str,
    found: Option<T>,
) -> Result<()> {
    let here = match found {
        Some(x) => format!(in rt.alloc(); "{kind} {x:?} {text}")?,
        None => format!(in rt.alloc(); "{kind} none {text}")?,
    };
    compare(rt, table, row, here.as_str())
}

/// Compares the JSON text of each variant with the rows of a kind.
pub fn written<T: JsonName + Debug>(
    rt: &HostRuntime,
    table: &str,
    kind: &str,
    all: &[T],
) -> Result<()> {
    let rows = read(rt, table)?;
    for x in all {
        let text = x.json_name();
        let here = format!(in rt.alloc(); "{kind} {x:?} {text}")?;
        ask(rt, table, rows.as_str(), here.as_str())?;
    }
    count_variants(rt, table, kind, all.len())
}

/// Compares what each variant displays.
pub fn displayed<T: Debug + Display>(rt: &HostRuntime, table: &str, all: &[T]) -> Result<()> {
    let rows = read(rt, table)?;
    for x in all {
        let here = format!(in rt.alloc(); "display {x:?} {x}")?;
        ask(rt, table, rows.as_str(), here.as_str())?;
    }
    count_variants(rt, table, "display", all.len())
}

/// Compares each variant's number with the rows of a kind.
pub fn numbers<T: Numbered + 'static>(rt: &HostRuntime, table: &str, kind: &str) -> Result<()> {
    let rows = read(rt, table)?;
    for x in T::all() {
        ask_number(rt, table, rows.as_str(), kind, x, x.number_of())?;
    }
    count_variants(rt, table, kind, T::all().len())
}

/// Compares a variant's number with the rows of a kind.
pub fn ask_number<T: Debug>(
    rt: &HostRuntime,
    table: &str,
    rows: &str,
    kind: &str,
    variant: &T,
    number: u32,
) -> Result<()> {
    let here = format!(in rt.alloc(); "{kind} {variant:?} 0x{number:08x}")?;
    ask(rt, table, rows, here.as_str())
}

/// Compares an enum's JSON texts, what it displays and what is read of its texts; and its JSON texts with the kernel's headers, where
/// the table has their rows.
pub fn closed<T: ClosedName + FromText + Display + 'static>(rt: &HostRuntime, table: &str) {
    report(rt, table, texts::<T>(rt, table));
    report(rt, table, headers::<T>(rt, table));
}

fn texts<T: ClosedName + FromText + Display + 'static>(
    rt: &HostRuntime,
    table: &str,
) -> Result<()> {
    json::<T>(rt, table, T::all())?;
    displayed(rt, table, T::all())?;
    made::<T>(rt, table, "from_str")
}

fn headers<T: ClosedName + Debug + 'static>(rt: &HostRuntime, table: &str) -> Result<()> {
    let rows = read(rt, table)?;
    if rows.as_str().contains("\nheader ") {
        written(rt, table, "header", T::all())?;
    }
    Ok(())
}
