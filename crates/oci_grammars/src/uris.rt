//! URIs (RFC 3986, section 3).
ghost use Rattle.std.specs.Prelude.{◌≡◌};
ghost use Rattle.oci_grammars.specs.Classes.{class_of};
ghost use Rattle.oci_grammars.specs.DecidedUris as decided;

use crate::classes::Class;
use crate::cuts::{behind, cut};

/// Where in a percent-encoding a text stands.
#[derive(Clone, Copy)]
enum Escape {
    Plain,
    First,
    Second,
    Broken,
}

impl Escape {
    fn next(self, b: u8, class: Class) -> Self
        ensures { result ≡ decided.next_escape (class_of class) self b }
    {
        match self {
            Escape::Plain if class.has(b) => Escape::Plain,
            Escape::Plain if b == b'%' => Escape::First,
            Escape::First if b.is_ascii_hexdigit() => Escape::Second,
            Escape::Second if b.is_ascii_hexdigit() => Escape::Plain,
            _ => Escape::Broken,
        }
    }
}

/// Returns whether the text is bytes of the class, and `%` with two hexadecimal digits.
#[tactic(auto, unfolding(crate::specs::DecidedUris::is_coded))]
fn is_coded(text: &[u8], class: Class) -> bool
    ensures { result ≡ decided.is_coded (class_of class) text.now }
{
    let mut state = Escape::Plain;
    for b in text {
        state = state.next(*b, class);
    }
    matches!(state, Escape::Plain)
}

#[tactic(auto, unfolding(crate::specs::DecidedUris::is_uri))]
pub(crate) fn is_uri(text: &[u8]) -> bool
    ensures { result ≡ decided.is_uri text.now }
{
    let (rest, fragment) = cut(text, b'#');
    is_before_fragment(rest) & (!text.contains(&b'#') | is_coded(fragment, Class::Query))
}

#[tactic(auto, unfolding(crate::specs::DecidedUris::is_before_fragment))]
fn is_before_fragment(text: &[u8]) -> bool
    ensures { result ≡ decided.is_before_fragment text.now }
{
    let (path, query) = cut(text, b'?');
    is_scheme_path(path) & (!text.contains(&b'?') | is_coded(query, Class::Query))
}

#[tactic(auto, unfolding(crate::specs::DecidedUris::is_scheme_path))]
fn is_scheme_path(text: &[u8]) -> bool
    ensures { result ≡ decided.is_scheme_path text.now }
{
    let (scheme, path) = cut(text, b':');
    text.contains(&b':') & (Class::Letter.begins(scheme, Class::Scheme) & is_hier_part(path))
}

#[tactic(auto, unfolding(crate::specs::DecidedUris::is_hier_part))]
fn is_hier_part(text: &[u8]) -> bool
    ensures { result ≡ decided.is_hier_part text.now }
{
    let begins = text.starts_with(b"//");
    (begins & is_authority_path(behind(text, 2))) | (is_coded(text, Class::Path) & !begins)
}

#[tactic(auto, unfolding(crate::specs::DecidedUris::is_authority_path))]
fn is_authority_path(text: &[u8]) -> bool
    ensures { result ≡ decided.is_authority_path text.now }
{
    let (authority, path) = cut(text, b'/');
    is_authority(authority) & (!text.contains(&b'/') | is_coded(path, Class::Path))
}

#[tactic(auto, unfolding(crate::specs::DecidedUris::is_authority))]
fn is_authority(text: &[u8]) -> bool
    ensures { result ≡ decided.is_authority text.now }
{
    let (user, host) = cut(text, b'@');
    let named = text.contains(&b'@');
    (!named & is_host_port(text)) | (named & (is_coded(user, Class::UserInfo) & is_host_port(host)))
}

#[tactic(auto, unfolding(crate::specs::DecidedUris::is_host_port))]
fn is_host_port(text: &[u8]) -> bool
    ensures { result ≡ decided.is_host_port text.now }
{
    (text.starts_with(b"[") & is_literal_port(behind(text, 1))) | is_name_port(text)
}

#[tactic(auto, unfolding(crate::specs::DecidedUris::is_name_port))]
fn is_name_port(text: &[u8]) -> bool
    ensures { result ≡ decided.is_name_port text.now }
{
    let (name, port) = cut(text, b':');
    is_coded(name, Class::RegName) & (!text.contains(&b':') | Class::Digit.has_all(port))
}

#[tactic(auto, unfolding(crate::specs::DecidedUris::is_literal_port))]
fn is_literal_port(text: &[u8]) -> bool
    ensures { result ≡ decided.is_literal_port text.now }
{
    let (address, port) = cut(text, b']');
    text.contains(&b']') & (is_address(address) & is_port_tail(port))
}

#[tactic(auto, unfolding(crate::specs::DecidedUris::is_port_tail))]
fn is_port_tail(text: &[u8]) -> bool
    ensures { result ≡ decided.is_port_tail text.now }
{
    text.is_empty() | (text.starts_with(b":") & Class::Digit.has_all(behind(text, 1)))
}

#[tactic(auto, unfolding(crate::specs::DecidedUris::is_address))]
fn is_address(text: &[u8]) -> bool
    ensures { result ≡ decided.is_address text.now }
{
    let future = is_future_address(behind(text, 1));
    Class::Address.has_some(text)
        | ((text.starts_with(b"v") & future) | (text.starts_with(b"V") & future))
}

#[tactic(auto, unfolding(crate::specs::DecidedUris::is_future_address))]
fn is_future_address(text: &[u8]) -> bool
    ensures { result ≡ decided.is_future_address text.now }
{
    let (version, address) = cut(text, b'.');
    Class::Hex.has_some(version) & Class::UserInfo.has_some(address)
}

#[tactic(auto, unfolding(crate::specs::DecidedUris::is_http_uri))]
pub(crate) fn is_http_uri(text: &[u8]) -> bool
    ensures { result ≡ decided.is_http_uri text.now }
{
    let (scheme, path) = cut(text, b':');
    let http = is_any_case(scheme, b"http") | is_any_case(scheme, b"https");
    is_uri(text) & (http & path.starts_with(b"//"))
}

/// Returns whether the text is the word, but for the case of letters.
pub(crate) fn is_any_case(text: &[u8], word: &[u8]) -> bool
    ensures { result ≡ decided.is_any_case word.now text.now }
{
    text.eq_ignore_ascii_case(word)
}
