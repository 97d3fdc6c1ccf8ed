//! Objects of strings, a line each, for programs.
ghost use Rattle.std.specs.Prelude.{◌≡◌, ◌++◌, ◌∷◌, [], option_map, IfOk, OnOk, string_bytes};
ghost use Rattle.json.specs.Token.{begin_object, end_object};
ghost use Rattle.oci_base.specs.Escaped.{IsLine};
ghost use Rattle.oci_commands.specs.Objects.{line_of as line_of_tokens, text_member as member_tokens, text_member_if as member_tokens_if};

use json::Writer;
use oci_base::line_of;
use std::alloc::{AllocError, Global};

/// An object that is begun.
pub fn begun(alloc: Global) -> Result<Writer, AllocError>
    ensures before { IfOk result (λ w. w.before ≡ []) }
    ensures tokens { IfOk result (λ w. w.tokens ≡ begin_object ∷ []) }
{
    let mut out = Writer::new(Vec::new(alloc));
    out.begin_object()?;
    Ok(out)
}

/// Adds a member that is a string.
pub fn text_member(out: &mut Writer, name: &str, value: &str) -> Result<(), AllocError>
    ensures before { OnOk result (out.new.before ≡ out.old.before) }
    ensures tokens { OnOk result (out.new.tokens ≡ out.old.tokens ++ member_tokens name.now value.now) }
{
    out.key(name)?;
    out.string(value)
}

/// The same, if it has a value.
pub fn text_member_if(out: &mut Writer, name: &str, value: Option<&str>) -> Result<(), AllocError>
    ensures before { OnOk result (out.new.before ≡ out.old.before) }
    ensures tokens { OnOk result (out.new.tokens ≡ out.old.tokens ++ member_tokens_if name.now (option_map (λ x. x.now) value.entry)) }
{
    match value {
        Some(value) => text_member(out, name, value),
        None => Ok(()),
    }
}

/// The line of the object, which ends here.
pub fn ended(mut out: Writer, alloc: Global) -> Result<String, AllocError>
    requires { out.before ≡ [] }
    ensures text { IfOk result (λ t. string_bytes t ≡ line_of_tokens (out.tokens ++ end_object ∷ [])) }
    ensures line { IfOk result (λ t. IsLine (string_bytes t)) }
{
    out.end_object()?;
    let bytes = out.into_inner();
    let text = String::from_utf8_lossy(alloc, bytes.as_slice())?;
    line_of(text.as_str(), alloc)
}
