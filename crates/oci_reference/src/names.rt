ghost use Rattle.std.specs.Prelude.{◌≡◌, ◌<◌, IfOk, string_bytes};
ghost use Rattle.oci_base.specs.Classes.{has, until, after};
ghost use Rattle.oci_reference.specs.Names.{is_registry, cut_name, usual_registry, with_library, default_name};
ghost use Rattle.oci_reference.specs.Named.{names_of};

use std::alloc::{AllocError, Global};

/// Registry and repository, where the repository is `library/` and the rest if `library` is true.
#[derive(Clone, Copy)]
pub(crate) struct Named<'a> {
    pub(crate) registry: &'a str,
    pub(crate) library: bool,
    pub(crate) rest: &'a str,
}

/// Registry and repository of a name.
pub(crate) fn default_name(name: &str) -> Named<'_>
    ensures { names_of result ≡ default_name name.now }
{
    let (front, rest) = cut_name(name);
    with_library(usual_registry(front), rest)
}

fn with_library<'a>(registry: &'a str, rest: &'a str) -> Named<'a>
    ensures { names_of result ≡ with_library registry.now rest.now }
{
    Named {
        registry,
        library: registry == "docker.io" && !has(rest, b'/'),
        rest,
    }
}

fn cut_name(name: &str) -> (&str, &str)
    ensures { (result.0.now, result.1.now) ≡ cut_name name.now }
{
    if has(name, b'/') {
        let (front, rest) = cut_at(name, '/');
        if is_registry(front) {
            return (front, rest);
        }
    }
    ("docker.io", name)
}

fn is_registry(front: &str) -> bool
    ensures { result ≡ is_registry front.now }
{
    has(front, b'.') || has(front, b':') || front == "localhost"
}

fn usual_registry(registry: &str) -> &str
    ensures { result.now ≡ usual_registry registry.now }
{
    if registry == "index.docker.io" {
        "docker.io"
    } else {
        registry
    }
}

fn has(text: &str, mark: u8) -> bool
    ensures { result ≡ has mark text.now }
{
    text.as_bytes().iter().any(|b| *b == mark)
}

/// What comes before the first mark, and what follows it.
pub(crate) fn cut_at(text: &str, mark: char) -> (&str, &str)
    requires { mark < 128 }
    ensures before { result.0.now ≡ until mark text.now }
    ensures behind { result.1.now ≡ after mark text.now }
{
    match text.split_once(mark) {
        None => (text, ""),
        Some(parts) => parts,
    }
}

/// The repository's text.
pub(crate) fn repository_text(alloc: Global, names: &Named<'_>) -> Result<String, AllocError>
    ensures { IfOk result (λ t. string_bytes t ≡ (names_of names.now).1) }
{
    let rest = names.rest;
    if names.library {
        format!(in alloc; "library/{rest}")
    } else {
        String::from_str(alloc, rest)
    }
}
