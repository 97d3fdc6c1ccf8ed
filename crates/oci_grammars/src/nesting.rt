//! Paths inside one another, as Windows compares them.
ghost use Rattle.std.specs.Prelude.{◌≡◌, ◌↔◌, IsTrue};
ghost use Rattle.oci_grammars.specs.DecidedNesting as decided;
ghost use Rattle.oci_grammars.specs.Nesting as nesting;

use crate::cuts::{behind, front};

/// Returns whether the path is inside the other, as Windows compares paths: in any case, and `/` as `\`.
pub fn is_inside(path: &str, other: &str) -> bool
    ensures { IsTrue result ↔ nesting.IsInside other.now path.now }
{
    let path = path.as_bytes();
    let other = other.as_bytes();
    is_inside_bytes(path, other)
}

#[tactic(auto, unfolding(crate::specs::DecidedNesting::is_inside))]
fn is_inside_bytes(path: &[u8], other: &[u8]) -> bool
    ensures { result ≡ decided.is_inside other.now path.now }
{
    is_same_path(front(path, other.len()), other) & is_deeper(behind(path, other.len()), other)
}

fn is_same_path(path: &[u8], other: &[u8]) -> bool
    ensures { result ≡ decided.is_same_path other.now path.now }
{
    (path.len() == other.len()) & is_same_bytes(path, other)
}

fn is_same_bytes(path: &[u8], other: &[u8]) -> bool
    ensures { result ≡ decided.is_same_bytes other.now path.now }
{
    path.iter()
        .zip(other.iter())
        .all(|(a, b)| fold(*a) == fold(*b))
}

fn fold(b: u8) -> u8
    ensures { result ≡ nesting.folded b }
{
    if b == b'/' {
        b'\\'
    } else {
        b.to_ascii_lowercase()
    }
}

/// Returns whether the rest of a path goes on inside the other.
fn is_deeper(rest: &[u8], other: &[u8]) -> bool
    ensures { result ≡ decided.is_deeper other.now rest.now }
{
    is_below(rest) | (is_root(other) & !rest.is_empty())
}

fn is_below(rest: &[u8]) -> bool
    ensures { result ≡ decided.is_below rest.now }
{
    let more = !behind(rest, 1).is_empty();
    (rest.starts_with(b"\\") & more) | (rest.starts_with(b"/") & more)
}

fn is_root(path: &[u8]) -> bool
    ensures { result ≡ decided.is_root path.now }
{
    path.ends_with(b"\\") | path.ends_with(b"/")
}
