//! Texts of a container's configuration.
ghost use Rattle.std.specs.Prelude.{◌≡◌};
ghost use Rattle.oci_grammars.specs.Decided as decided;

use crate::classes::Class;
use crate::cuts::{behind, cut};

pub(crate) fn is_page_size(text: &[u8]) -> bool
    ensures { result ≡ decided.is_page_size text.now }
{
    let (size, unit) = Class::Digit.run(text);
    let known = (unit == b"KB".as_slice())
        | ((unit == b"MB".as_slice()) | (unit == b"GB".as_slice()));
    Class::Positive.begins(size, Class::Digit) & known
}

pub(crate) fn is_selinux_label(text: &[u8]) -> bool
    ensures { result ≡ decided.is_selinux_label text.now }
{
    let (user, rest) = cut(text, b':');
    let (role, rest) = cut(rest, b':');
    Class::Context.has_some(user) & (Class::Context.has_some(role) & is_selinux_tail(rest))
}

fn is_selinux_tail(text: &[u8]) -> bool
    ensures { result ≡ decided.is_selinux_tail text.now }
{
    let (kind, level) = cut(text, b':');
    Class::Context.has_some(kind) & (!text.contains(&b':') | Class::Graphic.has_some(level))
}

fn is_no_dots(text: &[u8]) -> bool
    ensures { result ≡ decided.is_no_dots text.now }
{
    (text != b".".as_slice()) & (text != b"..".as_slice())
}

pub(crate) fn is_interface_name(text: &[u8]) -> bool
    ensures { result ≡ decided.is_interface_name text.now }
{
    (Class::Interface.has_some(text) & (text.len() <= 15)) & is_no_dots(text)
}

pub(crate) fn is_one_directory(text: &[u8]) -> bool
    ensures { result ≡ decided.is_one_directory text.now }
{
    Class::NotSlash.has_some(text) & is_no_dots(text)
}

pub(crate) fn is_cgroup_file(text: &[u8]) -> bool
    ensures { result ≡ decided.is_cgroup_file text.now }
{
    let (controller, file) = cut(text, b'.');
    Class::FileStart.has_some(controller) & Class::NotSlash.has_some(file)
}

fn is_once(text: &[u8], mark: u8) -> bool
    ensures { result ≡ decided.is_once mark text.now }
{
    let (_, rest) = cut(text, mark);
    !rest.contains(&mark)
}

pub(crate) fn is_device_access(text: &[u8]) -> bool
    ensures { result ≡ decided.is_device_access text.now }
{
    Class::Access.has_some(text)
        & (is_once(text, b'r') & (is_once(text, b'w') & is_once(text, b'm')))
}

pub(crate) fn is_capability_name(text: &[u8]) -> bool
    ensures { result ≡ decided.is_capability_name text.now }
{
    text.starts_with(b"CAP_") & Class::Capability.has_some(behind(text, 4))
}

pub(crate) fn is_scaled_number(text: &[u8]) -> bool
    ensures { result ≡ decided.is_scaled_number text.now }
{
    let (number, scale) = Class::Digit.run(text);
    Class::Digit.has_some(number) & (Class::Scale.has_all(scale) & (scale.len() <= 1))
}

pub(crate) fn is_decimal_number(text: &[u8]) -> bool
    ensures { result ≡ decided.is_decimal_number text.now }
{
    let (whole, fraction) = cut(text, b'.');
    Class::Digit.has_some(text) | (Class::Digit.has_all(whole) & Class::Digit.has_some(fraction))
}
