//! Environments: entries, and the variables that they are for.
ghost use Rattle.std.specs.Prelude.{◌≡◌, ◌++◌, [], ◌∷◌, bytes_eq, map, string_bytes, filter, not, IfOk, OnOk};
ghost use Rattle.oci_convert.specs.Texts.{texts_of};
ghost use Rattle.oci_convert.specs.Verbatim.{name_of, sets};

use crate::texts::append_all;
use std::alloc::{AllocError, Global};

/// The name of the variable that an entry is for.
fn name_of(entry: &str) -> &str
    ensures { result.now ≡ name_of entry.now }
{
    match entry.split_once('=') {
        Some((name, _)) => name,
        None => entry,
    }
}

/// Whether an entry is for the variable of this name.
fn is_for(entry: &String, name: &str) -> bool
    ensures { result ≡ bytes_eq name.now (name_of (string_bytes entry.now)) }
{
    name == name_of(entry.as_str())
}

/// Whether an environment has an entry for the same variable.
fn sets(env: &Vec<String>, entry: &str) -> bool
    ensures { result ≡ sets (map string_bytes env.now.items) entry.now }
{
    let name = name_of(entry);
    env.iter().any(|other| is_for(other, name))
}

/// Adds an entry, unless an environment has one for the same variable. Fails if out of memory.
fn keep(kept: &mut Vec<String>, entry: &String, env: &Vec<String>) -> Result<(), AllocError>
    ensures { OnOk result (map string_bytes kept.new.items ≡ map string_bytes kept.old.items ++ filter (λ e. not (sets (map string_bytes env.now.items) e)) (string_bytes entry.now ∷ [])) }
{
    if sets(env, entry.as_str()) {
        return Ok(());
    }
    kept.push(entry.clone()?)?;
    Ok(())
}

/// Adds the entries of an environment for whose variables another one has none. Fails if out of memory.
fn keep_others(
    kept: &mut Vec<String>,
    before: &Vec<String>,
    env: &Vec<String>,
) -> Result<(), AllocError>
    ensures { OnOk result (map string_bytes kept.new.items ≡ map string_bytes kept.old.items ++ filter (λ e. not (sets (map string_bytes env.now.items) e)) (map string_bytes before.now.items)) }
{
    for entry in before {
        keep(kept, entry, env)?;
    }
    Ok(())
}

/// The same, where there is an environment. Fails if out of memory.
fn keep_others_of(
    kept: &mut Vec<String>,
    before: &Option<Vec<String>>,
    env: &Vec<String>,
) -> Result<(), AllocError>
    ensures { OnOk result (map string_bytes kept.new.items ≡ map string_bytes kept.old.items ++ filter (λ e. not (sets (map string_bytes env.now.items) e)) (texts_of before.now)) }
{
    match before {
        Some(before) => keep_others(kept, before, env),
        None => Ok(()),
    }
}

/// The entries that were there, without those for variables of an environment, and then the entries of that. Fails if out of memory.
pub(crate) fn merged(
    alloc: Global,
    before: &Option<Vec<String>>,
    env: &Vec<String>,
) -> Result<Vec<String>, AllocError>
    ensures { IfOk result (λ merged. map string_bytes merged.items ≡ filter (λ e. not (sets (map string_bytes env.now.items) e)) (texts_of before.now) ++ map string_bytes env.now.items) }
{
    let mut merged = Vec::new(alloc);
    keep_others_of(&mut merged, before, env)?;
    append_all(&mut merged, env)?;
    Ok(merged)
}
