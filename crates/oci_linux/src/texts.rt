//! Texts in memory of their own.
ghost use Rattle.std.specs.Prelude.{◌≡◌, IfOk, IfErr, map};
ghost use Rattle.oci_model.specs.Plain as plain;
ghost use Rattle.oci_model.specs.Types.{list_plain, text_plain};

use oci_base::{OciSpecError, Result};
use std::alloc::Global;

/// These texts.
pub fn texts_of(alloc: Global, texts: &[&'static str]) -> Result<Vec<String>>
    ensures ok { IfOk result (λ x. list_plain text_plain x ≡ plain.list (plain.plains (map (λ t. plain.text t.now) texts.now))) }
    ensures err { IfErr result (λ e. e ≡ OciSpecError.Memory) }
{
    let mut listed = Vec::with_capacity(alloc, texts.len())?;
    for text in texts {
        listed.push(String::from_str(alloc, *text)?)?;
    }
    Ok(listed)
}
