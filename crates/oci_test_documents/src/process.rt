//! CPU lists.

use crate::checks::{Answer, check, check_refused, repeated, written};
use oci_base::Result;
use oci_json::to_writer;
use oci_process::{ExecCPUAffinity, ExecCPUAffinityBuilder, is_cpu_list};
use oci_test_support::{Harness, HarnessOutOfMemory, Manner};
use std::alloc::Global;
use std::io::Write;

/// The lists that a builder is given, if any, and the text of what it makes, or its refusal, which names the list.
static AFFINITIES: [(Option<&str>, Option<&str>, Answer<'_>); 9] = [
    (
        Some("0-3,7,8,9,10"),
        Some("4-6,8"),
        Ok(r#"{"final":"4-6,8","initial":"0-3,7,8,9,10"}"#),
    ),
    (None, None, Ok("{}")),
    (
        Some("0-3,i"),
        Some("4-6,8"),
        Err(("Other", "Invalid execCPUAffinity format: 0-3,i")),
    ),
    (
        Some("0-3,i"),
        Some("0-l1"),
        Err(("Other", "Invalid execCPUAffinity format: 0-3,i")),
    ),
    (
        Some("0-3,7"),
        Some("0-l1"),
        Err(("Other", "Invalid execCPUAffinity format: 0-l1")),
    ),
    (
        Some("-"),
        Some("4-6,8"),
        Err(("Other", "Invalid execCPUAffinity format: -")),
    ),
    (
        Some("0-3,7"),
        Some(",1,2"),
        Err(("Other", "Invalid execCPUAffinity format: ,1,2")),
    ),
    (
        Some("-"),
        None,
        Err(("Other", "Invalid execCPUAffinity format: -")),
    ),
    (
        None,
        Some(",1,2"),
        Err(("Other", "Invalid execCPUAffinity format: ,1,2")),
    ),
];

fn made(alloc: Global, initial: Option<&str>, last: Option<&str>) -> Result<ExecCPUAffinity> {
    let mut builder = ExecCPUAffinityBuilder::default();
    if let Some(list) = initial {
        builder = builder.initial(String::from_str(alloc, list)?);
    }
    if let Some(list) = last {
        builder = builder.cpu_affinity_final(String::from_str(alloc, list)?);
    }
    builder.build(alloc)
}

fn affinities(harness: &mut Harness<'_>) {
    let alloc = harness.rt.alloc();
    for (initial, last, expected) in &AFFINITIES {
        let found = written(alloc, made(alloc, *initial, *last));
        check(harness, initial.unwrap_or("none"), found, *expected);
    }
}

/// In code any text is kept, also one that is no CPU list.
fn unwritable(alloc: Global) -> Result<ExecCPUAffinity> {
    let list = String::from_str(alloc, "x")?;
    let mut affinity = ExecCPUAffinity::try_default(alloc)?;
    affinity.set_initial(Some(list));
    Ok(affinity)
}

fn put<W: Write>(alloc: Global, output: &mut W) -> Result<()> {
    to_writer(&unwritable(alloc)?, alloc, output)
}

/// A document with a text that is no CPU list is not written.
fn unwritable_affinity(harness: &mut Harness<'_>) {
    let (alloc, place) = (harness.rt.alloc(), ("ExecCPUAffinity", "initial"));
    let found = written(alloc, unwritable(alloc));
    check(harness, "unwritable", found, Err(place));
    harness.output.begin(Manner::AMPLE);
    let refused = put(alloc, &mut harness.output);
    check_refused(harness, "unwritable", refused, place);
    let kept = harness.output.is_untouched();
    harness.count("nothing written", 0, kept);
}

fn long_list_of_processors(
    harness: &mut Harness<'_>,
) -> std::result::Result<(), HarnessOutOfMemory> {
    let mut list = repeated(harness.rt.alloc(), "", "7", 100_000, "")?;
    harness.count("digits", 100_000, is_cpu_list(list.as_str()));
    list.push(',')?;
    harness.count("digits and a comma", 100_000, !is_cpu_list(list.as_str()));
    Ok(())
}

pub fn all(harness: &mut Harness<'_>) -> std::result::Result<(), HarnessOutOfMemory> {
    affinities(harness);
    unwritable_affinity(harness);
    long_list_of_processors(harness)?;
    harness.end("process", "answers");
    Ok(())
}
