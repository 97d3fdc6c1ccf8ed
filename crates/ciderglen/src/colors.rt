//! Whether lines for people have colours.
use clap::ArgMatches;
use std::env;
use std::env::VarError;
use std::io::IsTerminal;

/// Whether they do: as `--color` says; without it, on a terminal, unless the variable NO_COLOR is set and not empty (no-color.org) or TERM is
/// `dumb`.
pub fn has_colors(rt: &HostRuntime, given: &ArgMatches<'_>) -> bool {
    match given.get_str("color") {
        Some("always") => true,
        Some("never") => false,
        _ => rt.stdout().is_terminal() && !forbids_colors(rt),
    }
}

fn forbids_colors(rt: &HostRuntime) -> bool {
    is_set(rt, "NO_COLOR") || env::var(rt, "TERM").is_ok_and(|it| it.as_str() == "dumb")
}

/// Whether a variable has a value that is not empty.
fn is_set(rt: &HostRuntime, name: &str) -> bool {
    match env::var(rt, name) {
        Ok(value) => !value.is_empty(),
        Err(VarError::NotPresent) => false,
        Err(_) => true,
    }
}
