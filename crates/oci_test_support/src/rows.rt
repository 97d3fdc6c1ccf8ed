//! The rows of a file of `tables/`: `KIND VARIANT TEXT`, as the original crate has them.

use anyhow::Result;
use std::fs;

/// The rows of a table.
pub fn read(rt: &HostRuntime, table: &str) -> Result<String> {
    let path = format!(in rt.alloc(); "tables/{table}.rows")?;
    Ok(fs::read_to_string(rt, path.as_str())?)
}

/// The text of a row, if the row is of this kind.
pub fn text_of<'a>(row: &'a str, kind: &str) -> Option<&'a str> {
    let (found, rest) = row.split_once(' ')?;
    if found != kind {
        return None;
    }
    let (_, text) = rest.split_once(' ')?;
    Some(text)
}

/// Prints what is here of a row, unless it is the row.
pub fn compare(rt: &HostRuntime, table: &str, row: &str, here: &str) -> Result<()> {
    if here != row {
        println!(rt; "{table}: {row}; here {here}")?;
    }
    Ok(())
}

/// Prints a row that is made here, unless it is one of these.
pub fn ask(rt: &HostRuntime, table: &str, rows: &str, here: &str) -> Result<()> {
    for row in rows.split('\n') {
        if here == row {
            return Ok(());
        }
    }
    println!(rt; "{table}: no row; here {here}")?;
    Ok(())
}

/// Prints how many rows of a kind were compared.
pub fn count(rt: &HostRuntime, table: &str, kind: &str, rows: usize) -> Result<()> {
    println!(rt; "{table}, {kind}: {rows} rows")?;
    Ok(())
}

/// Prints of how many variants a row of a kind was asked for.
pub fn count_variants(rt: &HostRuntime, table: &str, kind: &str, variants: usize) -> Result<()> {
    println!(rt; "{table}, {kind}: {variants} variants")?;
    Ok(())
}

/// Prints what did not end as it should.
pub fn report(rt: &HostRuntime, table: &str, outcome: Result<()>) {
    if let Err(fault) = outcome {
        let _ = println!(rt; "{table}: {fault}");
    }
}
