//! Six small programs over the public calls, one after the other: a manifest is put together, a registry's error reply is reported, a
//! reference is pinned to what an index has for a platform, a bundle's specification is checked by a policy, tightened and checked
//! again, and one without privileges is printed. Their inputs are in `data/`. What an error knows is printed by `explain`.
#![tactic(auto)]

mod build_manifest;
mod check_policy;
mod error_reply;
mod paths;
mod pin_reference;
mod rootless_spec;
mod tighten_bundle;

use oci_spec::{Result, explain};
use std::process::ExitCode;
use std::rt::Files;

/// Runs the programs in turn.
fn all<R: Files + Print + AllocGlobal>(rt: &R) -> Result<()> {
    build_manifest::print(rt)?;
    error_reply::print(rt, "reply.json")?;
    pin_reference::print(rt, "ghcr.io/ciderglen/tools:1.4", "index.json")?;
    check_policy::print(rt, "config.json")?;
    tighten_bundle::print(rt, "/bundles/./web", "config.json", "tightened.json")?;
    check_policy::print(rt, "tightened.json")?;
    rootless_spec::print(rt)
}

fn main(rt: HostRuntime) -> ExitCode {
    match all(&rt) {
        Ok(()) => ExitCode::SUCCESS,
        Err(fault) => {
            let _ = eprintln!(&rt; "{}", explain(&fault));
            ExitCode::FAILURE
        }
    }
}
