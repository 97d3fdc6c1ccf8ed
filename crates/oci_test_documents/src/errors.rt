//! The printed texts of errors, and what is explained of them.

use crate::distribution::reply;
use oci_base::{
    OciSpecError, Result, SchemaFault, SerDeError, UninitializedFieldError, UnknownName,
};
use oci_reference::ParseError;
use oci_test_support::Harness;
use oci_text::explain;
use serde_json::Value;
use std::alloc::Global;
use std::fmt::Display;
use std::io;

/// Counts a value that displays this text.
fn check_shown<E: Display>(harness: &mut Harness<'_>, shown: &E, expected: &str) {
    let kept = match shown.to_string(harness.rt.alloc()) {
        Ok(text) => text.as_str() == expected,
        Err(_) => false,
    };
    harness.count(expected, 0, kept);
}

const WHOLE: SchemaFault = SchemaFault {
    owner: "Descriptor",
    member: "",
};

const MEMBER: SchemaFault = SchemaFault {
    owner: "Descriptor",
    member: "size",
};

fn other(alloc: Global, why: &str) -> OciSpecError {
    match String::from_str(alloc, why) {
        Ok(why) => OciSpecError::Other(why),
        Err(_) => OciSpecError::Memory,
    }
}

fn check_error(harness: &mut Harness<'_>, error: OciSpecError, expected: &str) {
    check_shown(harness, &error, expected);
}

fn of_calls(harness: &mut Harness<'_>) {
    let why = other(harness.rt.alloc(), "why");
    check_error(harness, why, "why");
    let not_found = io::Error::from(io::ErrorKind::NotFound);
    check_error(harness, not_found.into(), "io operation failed");
    check_error(harness, OciSpecError::Memory, "out of memory");
    check_shown(harness, &ParseError::Memory, "out of memory");
}

fn of_documents(harness: &mut Harness<'_>) {
    check_shown(harness, &WHOLE, "Descriptor: not allowed here");
    check_shown(harness, &MEMBER, "Descriptor.size: not allowed here");
    let fault = SerDeError::Schema(MEMBER);
    check_error(harness, OciSpecError::SerDe(fault), "serde failed");
    let unset = UninitializedFieldError::new("size");
    check_shown(harness, &unset, "`size` must be initialized");
    check_error(harness, unset.into(), "uninitialized field");
    check_shown(harness, &UnknownName, "unknown name");
}

fn of_registries(harness: &mut Harness<'_>) {
    let expected = "distribution: registry returned error";
    match reply(harness.rt.alloc(), "5") {
        Ok(reply) => check_shown(harness, &reply, expected),
        Err(_) => harness.count(expected, 0, false),
    }
}

fn check_explained(harness: &mut Harness<'_>, error: &OciSpecError, expected: &str) {
    check_shown(harness, &explain(error), expected);
}

fn explained_of_calls(harness: &mut Harness<'_>) {
    let missing = OciSpecError::from(io::Error::from_raw_os_error(2));
    check_explained(harness, &missing, "No such file or directory (os error 2)");
    let unset = OciSpecError::from(UninitializedFieldError::new("size"));
    check_explained(harness, &unset, "`size` must be initialized");
    check_explained(harness, &OciSpecError::Memory, "out of memory");
}

/// Counts a text that is no JSON, and of which this is explained.
fn explain_json(harness: &mut Harness<'_>, text: &[u8], expected: &str) {
    match Value::from_slice(harness.rt.alloc(), text) {
        Ok(_) => harness.count(expected, 0, false),
        Err(error) => check_explained(harness, &OciSpecError::from(error), expected),
    }
}

fn explained_of_documents(harness: &mut Harness<'_>) {
    let expected = "invalid JSON at line 2 column 11";
    explain_json(harness, b"{\n  \"size\": x\n}", expected);
    let expected = "EOF while parsing at line 2 column 0";
    explain_json(harness, b"{\"size\": 5,\n", expected);
    let fault = OciSpecError::SerDe(SerDeError::Schema(MEMBER));
    let expected = "Descriptor.size is missing or not as its schema wants it";
    check_explained(harness, &fault, expected);
}

pub fn all(harness: &mut Harness<'_>) {
    of_calls(harness);
    of_documents(harness);
    of_registries(harness);
    harness.end("errors", "texts");
    explained_of_calls(harness);
    explained_of_documents(harness);
    harness.end("errors", "explained");
}
