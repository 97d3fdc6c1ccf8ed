//! The grammars by name.
ghost use Rattle.std.specs.Prelude.{◌↔◌, IsTrue};
ghost use Rattle.oci_grammars.specs.Grammars.{IsOf};

use crate::base64_text::is_base64;
use crate::classes::Class;
use crate::controls::{
    is_capability_name, is_cgroup_file, is_decimal_number, is_device_access, is_interface_name,
    is_one_directory, is_page_size, is_scaled_number, is_selinux_label,
};
use crate::date_time::is_date_time;
use crate::entries::{is_environment_entry, is_portable_entry, is_reverse_domain};
use crate::licenses::is_spdx_expression;
use crate::media_type::is_media_type;
use crate::names::{is_domain, is_full_reference, is_tag};
use crate::parts::Part;
use crate::paths::{is_guid, is_rootfs_path, is_unc_path, is_volume_guid_path, is_windows_path};
use crate::settings::{is_port_spec, is_user_spec};
use crate::signals::is_signal;
use crate::uris::{is_http_uri, is_uri};
use crate::versions::is_semver;
use oci_reference::parts;
use oci_text::{is_cpu_list, is_digest};

/// A grammar that a rule asks for.
#[derive(Clone, Copy)]
pub enum Grammar {
    /// It begins with `/` (POSIX, XBD 3.2, "Absolute Pathname").
    AbsolutePath,
    /// A CPU list as the kernel reads it: numbers of 32 bits, and ranges that do not descend (Linux, bitmap_parselist).
    AscendingCpuList,
    /// Base64 with padding (RFC 4648, section 4).
    Base64,
    /// `CAP_` and capitals.
    CapabilityName,
    /// The name of a file in a cgroup, as `memory.max`.
    CgroupFile,
    /// A CPU list (Linux, cpuset(7)).
    CpuList,
    /// A date and time (RFC 3339, section 5.6).
    DateTime,
    /// An integer, a fraction as `.75`, or both, as `1.25`.
    DecimalNumber,
    /// Some of `r`, `w` and `m`, each once at most.
    DeviceAccess,
    /// A digest (image specification, "Digests").
    Digest,
    /// A domain, as `registry.example.com:5000` (distribution specification, "Pulling manifests").
    Domain,
    /// `NAME=value`, with any name that is not empty.
    EnvironmentEntry,
    /// Ports, joined by commas.
    ExposedPorts,
    /// A reference that says its registry.
    FullReference,
    /// 32 hexadecimal digits in five groups (RFC 4122, section 3).
    Guid,
    /// A URI of the scheme `http` or `https`.
    HttpUri,
    /// The name of a network interface (Linux, netdevice(7)).
    InterfaceName,
    /// No UNC path (Windows).
    LocalDirectory,
    /// Type and subtype (RFC 6838, section 4.2).
    MediaType,
    /// No byte 0.
    NoNul,
    /// No part of the path is `..`.
    NoParent,
    /// The name of one directory.
    OneDirectory,
    /// No newline.
    OneLine,
    /// `64KB`, `2MB`, `1GB`.
    PageSize,
    /// A port or a range of ports, `8080`, `8080/tcp`, `7000-7002/udp`, `9/sctp`.
    Port,
    /// `NAME=value`, with a name of POSIX (XBD 3.235).
    PortableEntry,
    /// The name of a reference (image specification, "Pre-Defined Annotation Keys").
    RefName,
    /// The characters of a reference's name (image specification, "Pre-Defined Annotation Keys").
    RefNameCharacters,
    /// A reference to an image (distribution specification, "Pulling manifests").
    Reference,
    /// The name of a repository (distribution specification, "Pulling manifests").
    Repository,
    /// `com.example.myKey`.
    ReverseDomain,
    /// Its last part is `rootfs`.
    RootfsPath,
    /// Digits, and perhaps K, M, G or T.
    ScaledNumber,
    /// user:role:type[:level].
    SelinuxLabel,
    /// A semantic version (SemVer 2.0.0).
    SemVer,
    /// A signal by its name or number, `SIGKILL`, `SIGRTMIN+3`, `kill`, `15`.
    Signal,
    /// A licence expression (SPDX specification 2.3, annex D), with identifiers by their shape.
    SpdxExpression,
    /// A tag (distribution specification, "Pulling manifests").
    Tag,
    /// A URI (RFC 3986, section 3).
    Uri,
    /// user[:group].
    User,
    /// `\\?\Volume{GUID}\`.
    VolumeGuidPath,
    /// An absolute path of Windows: on a drive, a share or a volume, or of a named pipe.
    WindowsPath,
}

impl Grammar {
    /// Returns whether the text is of the grammar.
    pub fn accepts(self, text: &str) -> bool
        ensures { IsTrue result ↔ IsOf self text.now }
    {
        let bytes = text.as_bytes();
        match self {
            Grammar::AbsolutePath => bytes.starts_with(b"/"),
            Grammar::AscendingCpuList => Part::CpuRange.joins(bytes, b','),
            Grammar::Base64 => is_base64(bytes),
            Grammar::CapabilityName => is_capability_name(bytes),
            Grammar::CgroupFile => is_cgroup_file(bytes),
            Grammar::CpuList => is_cpu_list(text),
            Grammar::DateTime => is_date_time(bytes),
            Grammar::DecimalNumber => is_decimal_number(bytes),
            Grammar::DeviceAccess => is_device_access(bytes),
            Grammar::Digest => is_digest(text),
            Grammar::Domain => is_domain(bytes),
            Grammar::EnvironmentEntry => is_environment_entry(bytes),
            Grammar::ExposedPorts => Part::PortSpec.joins(bytes, b','),
            Grammar::FullReference => is_full_reference(text),
            Grammar::Guid => is_guid(bytes),
            Grammar::HttpUri => is_http_uri(bytes),
            Grammar::InterfaceName => is_interface_name(bytes),
            Grammar::LocalDirectory => !is_unc_path(bytes),
            Grammar::MediaType => is_media_type(bytes),
            Grammar::NoNul => Class::NotNul.has_all(bytes),
            Grammar::NoParent => Part::NotParent.joins(bytes, b'/'),
            Grammar::OneDirectory => is_one_directory(bytes),
            Grammar::OneLine => Class::NotLineFeed.has_all(bytes),
            Grammar::PageSize => is_page_size(bytes),
            Grammar::Port => is_port_spec(bytes),
            Grammar::PortableEntry => is_portable_entry(bytes),
            Grammar::RefName => Part::RefComponent.joins(bytes, b'/'),
            Grammar::RefNameCharacters => Class::RefName.has_all(bytes),
            Grammar::Reference => parts(text).is_ok(),
            Grammar::Repository => Part::PathComponent.joins(bytes, b'/'),
            Grammar::ReverseDomain => is_reverse_domain(bytes),
            Grammar::RootfsPath => is_rootfs_path(bytes),
            Grammar::ScaledNumber => is_scaled_number(bytes),
            Grammar::SelinuxLabel => is_selinux_label(bytes),
            Grammar::SemVer => is_semver(bytes),
            Grammar::Signal => is_signal(bytes),
            Grammar::SpdxExpression => is_spdx_expression(bytes),
            Grammar::Tag => is_tag(bytes),
            Grammar::Uri => is_uri(bytes),
            Grammar::User => is_user_spec(bytes),
            Grammar::VolumeGuidPath => is_volume_guid_path(bytes),
            Grammar::WindowsPath => is_windows_path(bytes),
        }
    }
}
