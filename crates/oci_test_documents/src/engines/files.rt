use crate::checks::{check_io, check_refused};
use crate::distribution::reply;
use oci_base::Result;
use oci_distribution::ErrorResponse;
use oci_json::{from_file, to_file, to_file_pretty};
use oci_test_support::{Harness, HarnessOutOfMemory};
use std::fs;
use std::io::ErrorKind;

/// A document that can't be written makes no file. What is written to one, and one that keeps its bytes, is run in `oci_vectors`.
fn unwritable(harness: &mut Harness<'_>) -> std::result::Result<(), HarnessOutOfMemory> {
    let path = "unwritable.json";
    let refused = put(harness.rt, "abcd", path);
    check_refused(harness, path, refused, ("ErrorInfo", "detail"));
    let left = fs::exists(harness.rt, path)?;
    harness.count(path, 0, !left);
    Ok(())
}

fn put(rt: &HostRuntime, detail: &str, path: &str) -> Result<()> {
    to_file(rt, &reply(rt.alloc(), detail)?, rt.alloc(), path)
}

fn put_pretty(rt: &HostRuntime, path: &str) -> Result<()> {
    to_file_pretty(rt, &reply(rt.alloc(), "5")?, rt.alloc(), path)
}

/// A file that is not there, and a folder that is not there.
fn missing_files(harness: &mut Harness<'_>) {
    let (rt, path) = (harness.rt, "missing/reply.json");
    let found: Result<ErrorResponse> = from_file(rt, rt.alloc(), "missing.json");
    check_io(harness, "missing.json", found, ErrorKind::NotFound);
    let put = put(rt, "5", path);
    check_io(harness, path, put, ErrorKind::NotFound);
    let pretty = put_pretty(rt, path);
    check_io(harness, path, pretty, ErrorKind::NotFound);
}

pub fn all(harness: &mut Harness<'_>) -> std::result::Result<(), HarnessOutOfMemory> {
    unwritable(harness)?;
    missing_files(harness);
    harness.end("engines", "calls on files");
    Ok(())
}
