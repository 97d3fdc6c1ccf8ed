//! Objects of any values in documents of Windows, and the names of namespaces of z/OS.

use crate::checks::{check, written};
use oci_base::{OciSpecError, Result};
use oci_model::OciRecord;
use oci_platforms::{Windows, WindowsBuilder, ZOSNamespaceType};
use oci_test_support::Harness;
use serde_json::Value;
use std::alloc::Global;
use std::collections::BTreeMap;

/// Windows with a credential of one value.
fn windows(alloc: Global, value: Option<Value>) -> Result<Windows> {
    let mut values = BTreeMap::new(alloc);
    let name = String::from_str(alloc, "a")?;
    drop(values.insert(name, value)?);
    WindowsBuilder::default()
        .credential_spec(values)
        .build(alloc)
}

/// A null that code sets as a value, read back from what is written.
fn read_back(alloc: Global) -> Result<Windows> {
    let value = windows(alloc, Some(Value::Null))?.to_value(alloc)?;
    Windows::from_value(alloc, &value)
}

fn copied(alloc: Global) -> Result<Windows> {
    windows(alloc, Some(Value::Null))?.clone(alloc)
}

/// Whether a null that code sets as a value is another document than none.
fn is_told_apart(alloc: Global) -> bool {
    match (windows(alloc, Some(Value::Null)), windows(alloc, None)) {
        (Ok(set), Ok(none)) => set != none,
        _ => false,
    }
}

/// A null that code sets as a value is written as null, and read back as none.
fn null_credentials(harness: &mut Harness<'_>) {
    let alloc = harness.rt.alloc();
    let text = r#"{"credentialSpec":{"a":null}}"#;
    check(harness, text, written(alloc, copied(alloc)), Ok(text));
    harness.same("copy", copied(alloc), windows(alloc, Some(Value::Null)));
    harness.same("read back", read_back(alloc), windows(alloc, None));
    harness.count("set and none", 0, is_told_apart(alloc));
}

fn of_number(alloc: Global, text: &str) -> Result<Windows> {
    windows(alloc, Some(Value::from_str(alloc, text)?))
}

/// A number that is no 64-bit whole one is not written, and counts as equal to any other such number.
fn other_numbers_in_credentials(harness: &mut Harness<'_>) {
    let alloc = harness.rt.alloc();
    let found = written(alloc, of_number(alloc, "[1.5]"));
    check(harness, "[1.5]", found, Err(("Windows", "credentialSpec")));
    harness.same(
        "[1e300]",
        of_number(alloc, "[1.5]"),
        of_number(alloc, "[1e300]"),
    );
}

static NAMESPACES: [(&str, std::result::Result<ZOSNamespaceType, &str>); 7] = [
    ("pid", Ok(ZOSNamespaceType::Pid)),
    ("mount", Ok(ZOSNamespaceType::Mount)),
    ("ipc", Ok(ZOSNamespaceType::Ipc)),
    ("uts", Ok(ZOSNamespaceType::Uts)),
    ("x", Err("unknown z/OS namespace x, could not convert")),
    ("Pid", Err("unknown z/OS namespace Pid, could not convert")),
    ("", Err("unknown z/OS namespace , could not convert")),
];

fn is_named(
    alloc: Global,
    text: &str,
    expected: std::result::Result<ZOSNamespaceType, &str>,
) -> bool {
    match ZOSNamespaceType::try_from(alloc, text) {
        Ok(found) => expected == Ok(found),
        Err(OciSpecError::Other(why)) => expected == Err(why.as_str()),
        Err(_) => false,
    }
}

pub fn all(harness: &mut Harness<'_>) {
    null_credentials(harness);
    other_numbers_in_credentials(harness);
    for (text, expected) in &NAMESPACES {
        let kept = is_named(harness.rt.alloc(), text, *expected);
        harness.count(text, 0, kept);
    }
    harness.end("platforms", "answers");
}
