//! The program `ocidoc`: documents of the three specifications, references and digests in their normal form.
#![tactic(auto)]

use oci_doc_run::run_on_streams;
use std::process::ExitCode;

fn main(rt: HostRuntime) -> ExitCode {
    run_on_streams(&rt)
}
