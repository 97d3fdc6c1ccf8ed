//! Reads a registry's error reply, and prints what it displays and then its errors, a line each.

use oci_json::from_file;
use oci_spec::Result;
use oci_spec::distribution::{ErrorInfo, ErrorResponse};
use std::rt::Files;

/// Prints an error: its code, and its message and detail where it has them.
fn print_error<R: Print>(rt: &R, error: &ErrorInfo) -> Result<()> {
    rt.print(error.code())?;
    if let Some(message) = error.message() {
        print!(rt; ": {message}")?;
    }
    if let Some(detail) = error.detail() {
        print!(rt; " {detail}")?;
    }
    rt.println("")?;
    Ok(())
}

/// Prints the reply of a file.
pub fn print<R: Files + Print + AllocGlobal>(rt: &R, path: &str) -> Result<()> {
    let reply: ErrorResponse = from_file(rt, rt.alloc(), path)?;
    rt.println(&reply)?;
    for error in reply.detail() {
        print_error(rt, error)?;
    }
    Ok(())
}
