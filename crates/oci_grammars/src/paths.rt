//! Paths.
ghost use Rattle.std.specs.Prelude.{◌≡◌};
ghost use Rattle.oci_grammars.specs.Decided as decided;

use crate::classes::Class;
use crate::cuts::{behind, cut};

pub(crate) fn is_windows_path(text: &[u8]) -> bool
    ensures { result ≡ decided.is_windows_path text.now }
{
    is_drive_path(text) | (is_unc_share(text) | (is_long_path(text) | is_pipe(text)))
}

fn is_drive_path(text: &[u8]) -> bool
    ensures { result ≡ decided.is_drive_path text.now }
{
    let (drive, path) = cut(text, b':');
    Class::Letter.has_count(drive, 1) & Class::Separator.begins(path, Class::NotNul)
}

fn is_unc_share(text: &[u8]) -> bool
    ensures { result ≡ decided.is_unc_share text.now }
{
    let share = is_server_share(behind(text, 2));
    (text.starts_with(b"\\\\") & share) | (text.starts_with(b"//") & share)
}

fn is_server_share(text: &[u8]) -> bool
    ensures { result ≡ decided.is_server_share text.now }
{
    let (server, rest) = Class::Share.run(text);
    is_server(server) & is_behind_separator(rest)
}

fn is_server(text: &[u8]) -> bool
    ensures { result ≡ decided.is_server text.now }
{
    Class::Share.has_some(text) & ((text != b".".as_slice()) & (text != b"?".as_slice()))
}

fn is_behind_separator(text: &[u8]) -> bool
    ensures { result ≡ decided.is_behind_separator text.now }
{
    let share = is_share(behind(text, 1));
    (text.starts_with(b"\\") & share) | (text.starts_with(b"/") & share)
}

fn is_share(text: &[u8]) -> bool
    ensures { result ≡ decided.is_share text.now }
{
    let (share, rest) = Class::Share.run(text);
    Class::Share.has_some(share) & (rest.is_empty() | Class::Separator.begins(rest, Class::NotNul))
}

/// Returns whether the text is a path behind `\\?\`.
fn is_long_path(text: &[u8]) -> bool
    ensures { result ≡ decided.is_long_path text.now }
{
    (text.starts_with(b"\\\\?\\") & is_drive_path(behind(text, 4)))
        | ((text.starts_with(b"\\\\?\\UNC\\") & is_server_share(behind(text, 8)))
            | (text.starts_with(b"\\\\?\\Volume{") & is_volume_path(behind(text, 11))))
}

fn is_volume_path(text: &[u8]) -> bool
    ensures { result ≡ decided.is_volume_path text.now }
{
    let (guid, path) = cut(text, b'}');
    is_guid(guid) & Class::Separator.begins(path, Class::NotNul)
}

fn is_pipe(text: &[u8]) -> bool
    ensures { result ≡ decided.is_pipe text.now }
{
    text.starts_with(b"\\\\.\\pipe\\") & Class::NotNul.has_some(behind(text, 9))
}

pub(crate) fn is_guid(text: &[u8]) -> bool
    ensures { result ≡ decided.is_guid text.now }
{
    let (first, rest) = cut(text, b'-');
    let (second, rest) = cut(rest, b'-');
    let (third, rest) = cut(rest, b'-');
    let (fourth, last) = cut(rest, b'-');
    Class::Hex.has_count(first, 8)
        & (Class::Hex.has_count(second, 4)
            & (Class::Hex.has_count(third, 4)
                & (Class::Hex.has_count(fourth, 4) & Class::Hex.has_count(last, 12))))
}

pub(crate) fn is_volume_guid_path(text: &[u8]) -> bool
    ensures { result ≡ decided.is_volume_guid_path text.now }
{
    let (guid, end) = cut(behind(text, 11), b'}');
    text.starts_with(b"\\\\?\\Volume{") & (is_guid(guid) & (end == b"\\".as_slice()))
}

pub(crate) fn is_unc_path(text: &[u8]) -> bool
    ensures { result ≡ decided.is_unc_path text.now }
{
    ((text.starts_with(b"\\\\") | text.starts_with(b"//"))
        & !(text.starts_with(b"\\\\?\\") | text.starts_with(b"\\\\.\\")))
        | text.starts_with(b"\\\\?\\UNC\\")
}

pub(crate) fn is_rootfs_path(text: &[u8]) -> bool
    ensures { result ≡ decided.is_rootfs_path text.now }
{
    (text == b"rootfs".as_slice()) | text.ends_with(b"/rootfs")
}
