//! Paths without what leads nowhere, by their text alone: `/proc/`, `//proc`, `/./proc` and `/a/../proc` are `/proc`.
ghost use Rattle.std.specs.Prelude.{◌≡◌, OnOk, IfOk, map, string_bytes};
ghost use Rattle.oci_examples.specs.Paths.{cleaned, names, next, spelled};

use std::alloc::{AllocError, Global};

/// Goes on to the next part of a path.
fn step<'a>(names: &mut Vec<&'a str>, part: &'a str) -> Result<(), AllocError>
    ensures { OnOk result (map (λ n. n.now) names.new.items ≡ next (map (λ n. n.now) names.old.items) part.now) }
{
    if part.is_empty() || part == "." {
        return Ok(());
    }
    if part == ".." {
        names.pop();
    } else {
        names.push(part)?;
    }
    Ok(())
}

/// The names that a path leads through.
fn names<'a>(alloc: Global, path: &'a str) -> Result<Vec<&'a str>, AllocError>
    ensures { IfOk result (λ v. map (λ n. n.now) v.items ≡ names path.now) }
{
    let parts: Vec<&str> = path.split('/').collect(alloc)?;
    let mut names = Vec::new(alloc);
    for part in &parts {
        step(&mut names, part)?;
    }
    Ok(names)
}

/// The text of a path that leads through these names.
fn spelled(alloc: Global, names: &Vec<&str>) -> Result<String, AllocError>
    ensures { IfOk result (λ t. string_bytes t ≡ spelled (map (λ n. n.now) names.now.items)) }
{
    let mut text = String::new(alloc);
    for name in names {
        text.push_str("/")?;
        text.push_str(name)?;
    }
    if names.is_empty() {
        text.push_str("/")?;
    }
    Ok(text)
}

/// The shortest text of an absolute path that leads through the same names. A relative path begins at the root.
pub fn cleaned(alloc: Global, path: &str) -> Result<String, AllocError>
    ensures { IfOk result (λ t. string_bytes t ≡ cleaned path.now) }
{
    spelled(alloc, &names(alloc, path)?)
}
