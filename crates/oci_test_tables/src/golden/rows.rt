//! The rows of one record.
ghost use Rattle.oci_model.specs.WellFormed.{WellFormed};
ghost use Rattle.oci_schema.specs.Shapes.{schema_shape};

use crate::golden::found::{Found, Reading, by_bytes, by_schema, by_type, line_of};
use anyhow::{Context, Result};
use oci_model::OciRecord;
use oci_spec::schema::{HasSchema, Records, Schema, Workspace};
use std::fs;
use std::rt::Files;

/// Checks the rows of a record, by its schema too, and prints each that differs, and how many there are. This and what it hands on a
/// record's type is compiled once for each record, so it holds no more than the calls of the record.
pub fn rows<T: HasSchema, R: Files + Print + AllocGlobal>(rt: &R, record: &str) {
    let (records, schema) = T::schema();
    let by_record = check_rows::<T, R>(rt, record);
    report(rt, record, "by the record", by_record);
    let by_schema = check_schema(rt, record, records, schema);
    report(rt, record, "by its schema", by_schema);
}

/// Prints what did not end as it should.
fn report<R: Print>(rt: &R, record: &str, way: &str, outcome: Result<()>) {
    if let Err(fault) = outcome {
        let _ = println!(rt; "{record}, {way}: {fault}");
    }
}

/// Prints what the calls by a record's type find; the rows make these calls by a record's schema.
pub fn check_type<R: Print + AllocGlobal>(rt: &R) {
    let _ = match by_type(rt.alloc()) {
        Ok(found) => println!(rt; "by type: {found}"),
        Err(fault) => println!(rt; "by type: {fault}"),
    };
}

fn read<R: Files + AllocGlobal>(rt: &R, record: &str) -> Result<String> {
    let path = format!(in rt.alloc(); "golden/{record}.rows")?;
    Ok(fs::read_to_string(rt, path.as_str())?)
}

fn check_rows<T: OciRecord, R: Files + Print + AllocGlobal>(rt: &R, record: &str) -> Result<()> {
    let text = read(rt, record)?;
    let mut count = 0u64;
    for row in text.as_str().trim().split("\n\n") {
        if !row.starts_with('#') {
            check_row::<T, R>(rt, record, row)?;
            count = count.saturating_add(1);
        }
    }
    count_rows(rt, record, count)
}

/// Prints how many rows a record has.
fn count_rows<R: Print>(rt: &R, record: &str, count: u64) -> Result<()> {
    println!(rt; "{record}: {count} rows")?;
    Ok(())
}

fn check_row<T: OciRecord, R: Files + Print + AllocGlobal>(
    rt: &R,
    record: &str,
    row: &str,
) -> Result<()> {
    for reading in Reading::ALL {
        let found = reading.found::<T>(rt.alloc(), text_of(row));
        tell_reading(rt, record, reading, row, &found)?;
    }
    Ok(())
}

/// The text of a row, above its last line.
fn text_of(row: &str) -> &str {
    match row.rsplit_once('\n') {
        Some((text, _)) => text,
        None => "",
    }
}

/// Prints what is found of a row's text by a way of reading, unless it is what the row expects.
fn tell_reading<R: Print + AllocGlobal>(
    rt: &R,
    record: &str,
    reading: Reading,
    row: &str,
    found: &Found,
) -> Result<()> {
    let (text, expected) = row.rsplit_once('\n').context("a row has one line")?;
    let found = line_of(rt.alloc(), found)?;
    if found.as_str() != expected {
        println!(rt; "{record}: {reading:?} of {text}\nfound {found}")?;
    }
    Ok(())
}

/// The same by a schema, one function for all records.
fn check_schema<T: Records, R: Files + Print + AllocGlobal>(
    rt: &R,
    record: &str,
    records: &T,
    schema: &Schema,
) -> Result<()>
    requires { WellFormed (schema_shape (T.shape_at records.now) schema.now) }
{
    let text = read(rt, record)?;
    let mut workspace = Workspace::new(rt.alloc());
    for row in text.as_str().trim().split("\n\n") {
        if !row.starts_with('#') {
            check_row_of(rt, record, records, schema, row, &mut workspace)?;
        }
    }
    Ok(())
}

fn check_row_of<T: Records, R: Print + AllocGlobal>(
    rt: &R,
    record: &str,
    records: &T,
    schema: &Schema,
    row: &str,
    workspace: &mut Workspace,
) -> Result<()>
    requires { WellFormed (schema_shape (T.shape_at records.now) schema.now) }
{
    let (text, expected) = row.rsplit_once('\n').context("a row has one line")?;
    let found = by_schema(records, schema, rt.alloc(), text, workspace)?;
    tell(rt, record, "by its schema", text, found.as_str(), expected)?;
    let found = by_bytes(records, schema, rt.alloc(), text, workspace)?;
    tell(rt, record, "from bytes", text, found.as_str(), expected)
}

/// Prints what is found of a text, unless it is what its row expects.
fn tell<R: Print>(
    rt: &R,
    record: &str,
    way: &str,
    text: &str,
    found: &str,
    expected: &str,
) -> Result<()> {
    if found != expected {
        println!(rt; "{record}: {way}, of {text}\nfound {found}")?;
    }
    Ok(())
}
