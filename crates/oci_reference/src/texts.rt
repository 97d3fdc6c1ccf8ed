ghost use Rattle.std.specs.Prelude.{◌≡◌, [], IfOk, option_map, unwrap_or, string_bytes};
ghost use Rattle.oci_reference.specs.Accepted.{or_latest};
ghost use Rattle.oci_reference.specs.Written.{some_text, mark_if};

use std::alloc::{AllocError, Global};

pub(crate) fn some_text(text: &str) -> bool
    ensures { result ≡ some_text text.now }
{
    !text.is_empty()
}

pub(crate) fn mark_if(wanted: bool, mark: &str) -> &str
    ensures { result.now ≡ mark_if wanted mark.now }
{
    if wanted { mark } else { "" }
}

pub(crate) fn text_or_empty(text: &Option<String>) -> &str
    ensures { result.now ≡ unwrap_or (option_map string_bytes text.now) [] }
{
    match text {
        Some(text) => text.as_str(),
        None => "",
    }
}

pub(crate) fn lent(text: &Option<String>) -> Option<&str>
    ensures { option_map (λ x. x.now) result ≡ option_map string_bytes text.now }
{
    match text {
        Some(text) => Some(text.as_str()),
        None => None,
    }
}

pub(crate) fn copied(text: &Option<String>) -> Result<Option<String>, AllocError>
    ensures { IfOk result (λ t. option_map string_bytes t ≡ option_map string_bytes text.now) }
{
    match text {
        Some(text) => Ok(Some(text.clone()?)),
        None => Ok(None),
    }
}

pub(crate) fn owned(alloc: Global, text: Option<&str>) -> Result<Option<String>, AllocError>
    ensures { IfOk result (λ t. option_map string_bytes t ≡ option_map (λ x. x.now) text.entry) }
{
    match text {
        Some(text) => Ok(Some(String::from_str(alloc, text)?)),
        None => Ok(None),
    }
}

pub(crate) fn tag_or_latest<'a>(tag: Option<&'a str>, digest: Option<&str>) -> Option<&'a str>
    ensures { option_map (λ x. x.now) result ≡ or_latest (option_map (λ x. x.now) tag.entry) (option_map (λ x. x.now) digest.entry) }
{
    match (tag, digest) {
        (None, None) => Some("latest"),
        (tag, _) => tag,
    }
}
