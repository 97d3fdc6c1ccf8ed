//! Platforms as they are written on command lines.
ghost use Rattle.std.specs.Prelude.{◌≡◌, ◌↔◌, ℕ, ◌++◌, ◌∷◌, List, Option, IsTrue, IfOk, IfErr, IfSome, IsNone, string_bytes, option_map};
ghost use Rattle.std.specs.Option.{option_copied};
ghost use Rattle.oci_select.specs.Texts.{IsPart, HasParts, IsOfParts, IsOfText, IsNoPlatform};

use oci_base::{OciSpecError, Result};
use oci_descriptor::{Platform, PlatformBuilder};
use oci_text::{Arch, Os};
use std::alloc::Global;

/// The parts of a platform's text.
#[derive(Clone, Copy)]
struct Parts<'t> {
    os: &'t str,
    architecture: &'t str,
    variant: Option<&'t str>,
}

/// Whether a text can be a part: one or more ASCII letters, digits, `_`, `-` and `.`.
fn is_part(text: &str) -> bool
    ensures { IsTrue result ↔ IsPart text.now }
{
    !text.is_empty()
        && text.as_bytes().iter().all(|b| b.is_ascii_alphanumeric()
            || matches!(*b, b'_' | b'-' | b'.'))
}

/// The two texts around the first slash, if the first one can be a part.
fn first_part(text: &str) -> Option<(&str, &str)>
    ensures some { IfSome result (λ x. IsPart x.0.now × (text.now ≡ x.0.now ++ 47 ∷ x.1.now)) }
    ensures none { IsNone result → (part rest : List ℕ) → IsPart part → ¬ (text.now ≡ part ++ 47 ∷ rest) }
{
    let (part, rest) = text.split_once('/')?;
    if is_part(part) {
        Some((part, rest))
    } else {
        None
    }
}

/// The parts of a text, if each can be one.
fn parts_of(text: &str) -> Option<Parts<'_>>
    ensures some { IfSome result (λ p. HasParts text.now p.os.now p.architecture.now (option_copied p.variant)) }
    ensures none { IsNone result → IsNoPlatform text.now }
{
    let (os, rest) = first_part(text)?;
    match first_part(rest) {
        Some((architecture, variant)) if is_part(variant) => Some(Parts {
            os,
            architecture,
            variant: Some(variant),
        }),
        None if is_part(rest) => Some(Parts {
            os,
            architecture: rest,
            variant: None,
        }),
        _ => None,
    }
}

/// The platform that these parts name. Fails with `Memory` alone.
fn platform(alloc: Global, parts: Parts<'_>) -> Result<Platform>
    ensures ok { IfOk result (λ p. IsOfParts parts.entry.os.now parts.entry.architecture.now (option_copied parts.entry.variant) p) }
    ensures err { IfErr result (λ e. e ≡ OciSpecError.Memory) }
{
    let os = Os::from_text(alloc, parts.os)?;
    let architecture = Arch::from_text(alloc, parts.architecture)?;
    let mut builder = PlatformBuilder::default().os(os).architecture(architecture);
    if let Some(variant) = parts.variant {
        builder = builder.variant(String::from_str(alloc, variant)?);
    }
    builder.build(alloc)
}

/// The platform that a text writes, `os/architecture` or `os/architecture/variant`, as containerd's `platforms.Parse` reads it; `None` for every
/// other text. Each part is one or more ASCII letters, digits, `_`, `-` and `.`, and is kept as it is written: `select` and `chosen` compare
/// normalized names. Unlike there, both the system and the architecture have to be named, and a part may have a `.`. Fails with `Memory` alone.
pub fn platform_of_text(alloc: Global, text: &str) -> Result<Option<Platform>>
    ensures some { IfOk result (λ o. IfSome o (λ p. IsOfText text.now p)) }
    ensures none { IfOk result (λ o. IsNone o → IsNoPlatform text.now) }
    ensures err { IfErr result (λ e. e ≡ OciSpecError.Memory) }
{
    match parts_of(text) {
        Some(parts) => Ok(Some(platform(alloc, parts)?)),
        None => Ok(None),
    }
}
