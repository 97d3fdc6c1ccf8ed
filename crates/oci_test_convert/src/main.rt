//! The program `oci_test_convert`: golden tests of the conversion of image configurations. It prints how many rows `convert.rows` has, and
//! each whose result is another. Users and groups are those of `passwd` and `group`, and volumes are in memory.
#![tactic(auto)]

use anyhow::{Context, Result, anyhow};
use oci_accounts::AccountFiles;
use oci_convert::{ConvertError, convert};
use oci_image::ImageConfiguration;
use oci_json::{from_slice, to_string};
use oci_runtime::Spec;
use oci_runtime_records::{Mount, MountBuilder};
use oci_text::explain;
use std::alloc::Global;
use std::fs;
use std::process::ExitCode;

/// A row, line by line.
#[derive(Clone, Copy)]
struct Row<'a> {
    base: Option<&'a str>,
    has_volumes: bool,
    image: &'a str,
    expected: &'a str,
}

impl<'a> Row<'a> {
    fn of(text: &'a str) -> Row<'a> {
        let mut row = Row {
            base: None,
            has_volumes: true,
            image: "",
            expected: "",
        };
        for line in text.split('\n') {
            match line.split_once(' ') {
                Some(("<", base)) => row.base = Some(base),
                Some(("-", _)) => row.has_volumes = false,
                Some(("=", _)) => row.expected = line,
                Some(("!", _)) => row.expected = line,
                _ => row.image = line,
            }
        }
        row
    }
}

/// What the library returns, with its error's words.
fn said<T>(answer: oci_base::Result<T>) -> Result<T> {
    match answer {
        Ok(x) => Ok(x),
        Err(error) => Err(anyhow!("{}", explain(&error))),
    }
}

/// The mount that is copied for each volume.
fn volume(alloc: Global) -> Result<Mount> {
    let options = vec![in alloc;
        String::from_str(alloc, "rw")?,
        String::from_str(alloc, "nosuid")?,
        String::from_str(alloc, "nodev")?,
    ]?;
    let built = MountBuilder::default()
        .destination(String::new(alloc))
        .typ(String::from_str(alloc, "tmpfs")?)
        .source(String::from_str(alloc, "tmpfs")?)
        .options(options)
        .build(alloc);
    said(built)
}

/// What every row is converted with.
#[derive(Drop)]
struct Shared<'a> {
    base: &'a str,
    accounts: AccountFiles<'a>,
    volume: Mount,
}

/// The line that a result is expected as.
fn line(alloc: Global, converted: std::result::Result<Spec, ConvertError>) -> Result<String> {
    match converted {
        Ok(spec) => {
            let text = said(to_string(&spec, alloc))?;
            Ok(format!(in alloc; "= {text}")?)
        }
        Err(error) => Ok(format!(in alloc; "! {error:?}")?),
    }
}

/// The line for what a row is converted to.
fn converted(alloc: Global, shared: &Shared<'_>, row: &Row<'_>) -> Result<String> {
    let base = row.base.unwrap_or(shared.base);
    let base: Spec = said(from_slice(alloc, base.as_bytes()))?;
    let image: ImageConfiguration = said(from_slice(alloc, row.image.as_bytes()))?;
    let volume = if row.has_volumes {
        Some(&shared.volume)
    } else {
        None
    };
    line(
        alloc,
        convert(alloc, &image, base, &shared.accounts, volume),
    )
}

/// Checks a row, and prints it if its result is another.
fn check(rt: &HostRuntime, shared: &Shared<'_>, text: &str) -> Result<()> {
    let row = Row::of(text);
    let found = converted(rt.alloc(), shared, &row)?;
    if found.as_str() != row.expected {
        let image = row.image;
        println!(rt; "of {image}\nfound {found}")?;
    }
    Ok(())
}

/// Checks all rows, and prints how many there are.
fn check_all(rt: &HostRuntime, shared: &Shared<'_>, rows: &str) -> Result<()> {
    let mut count = 0u64;
    for text in rows.trim().split("\n\n") {
        if !text.starts_with('#') {
            check(rt, shared, text)?;
            count = count.saturating_add(1);
        }
    }
    println!(rt; "convert: {count} rows")?;
    Ok(())
}

fn run(rt: &HostRuntime) -> Result<()> {
    let alloc = rt.alloc();
    let passwd = fs::read(rt, "passwd").context("passwd")?;
    let group = fs::read(rt, "group").context("group")?;
    let base = fs::read_to_string(rt, "base.json").context("base.json")?;
    let rows = fs::read_to_string(rt, "convert.rows").context("convert.rows")?;
    let volume = volume(alloc)?;
    let accounts = AccountFiles::new(alloc, passwd.as_slice(), group.as_slice())?;
    let shared = Shared {
        base: base.as_str().trim(),
        accounts,
        volume,
    };
    check_all(rt, &shared, rows.as_str())
}

fn main(rt: HostRuntime) -> ExitCode {
    match run(&rt) {
        Ok(()) => ExitCode::SUCCESS,
        Err(error) => {
            let _ = eprintln!(&rt; "{error:#}");
            ExitCode::FAILURE
        }
    }
}
