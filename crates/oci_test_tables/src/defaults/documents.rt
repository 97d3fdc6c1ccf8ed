//! A default, as its row has it.

use anyhow::Result;
use oci_model::OciMember;
use oci_spec::OciSpecError;
use oci_test_support::rows::{ask, count, report};
use std::alloc::Global;

/// Compares a default, or what a builder makes that is given nothing, with its row: `NAME JSON` or `NAME ! FIELD`.
pub fn document<T: OciMember>(rt: &HostRuntime, rows: &str, name: &str, made: oci_spec::Result<T>) {
    report(rt, name, ask_document(rt, rows, name, made));
}

/// Prints how many defaults of a group were compared.
pub fn report_count(rt: &HostRuntime, group: &str, rows: usize) {
    report(rt, group, count(rt, "defaults", group, rows));
}

fn ask_document<T: OciMember>(
    rt: &HostRuntime,
    rows: &str,
    name: &str,
    made: oci_spec::Result<T>,
) -> Result<()> {
    let text = text_of(rt.alloc(), made)?;
    let here = format!(in rt.alloc(); "{name} {text}")?;
    ask(rt, "defaults", rows, here.as_str())
}

/// The compact text, or the first field that a builder wants.
fn text_of<T: OciMember>(alloc: Global, made: oci_spec::Result<T>) -> Result<String> {
    match made {
        Ok(x) => Ok(x.write(alloc)?.to_string(alloc)?),
        Err(OciSpecError::Builder(unset)) => {
            let field = unset.field_name();
            Ok(format!(in alloc; "! {field}")?)
        }
        Err(fault) => Ok(format!(in alloc; "{fault}")?),
    }
}
