//! Grammars by their names.
ghost use Rattle.std.specs.Prelude.{◌≡◌, map};
ghost use Rattle.oci_policies.specs.Grammars as defined;
ghost use Rattle.oci_policies.specs.Values.{Reads};
ghost use Rattle.toml.specs.View.{view};

use crate::error::{Fault, expected};
use crate::values::text;
use oci_grammars::Grammar;
use toml::Value;

static GRAMMARS: [(&str, Grammar); 42] = [
    ("absolute-path", Grammar::AbsolutePath),
    ("ascending-cpu-list", Grammar::AscendingCpuList),
    ("base64", Grammar::Base64),
    ("capability-name", Grammar::CapabilityName),
    ("cgroup-file", Grammar::CgroupFile),
    ("cpu-list", Grammar::CpuList),
    ("date-time", Grammar::DateTime),
    ("decimal-number", Grammar::DecimalNumber),
    ("device-access", Grammar::DeviceAccess),
    ("digest", Grammar::Digest),
    ("domain", Grammar::Domain),
    ("environment-entry", Grammar::EnvironmentEntry),
    ("exposed-ports", Grammar::ExposedPorts),
    ("full-reference", Grammar::FullReference),
    ("guid", Grammar::Guid),
    ("http-uri", Grammar::HttpUri),
    ("interface-name", Grammar::InterfaceName),
    ("local-directory", Grammar::LocalDirectory),
    ("media-type", Grammar::MediaType),
    ("no-nul", Grammar::NoNul),
    ("no-parent", Grammar::NoParent),
    ("one-directory", Grammar::OneDirectory),
    ("one-line", Grammar::OneLine),
    ("page-size", Grammar::PageSize),
    ("port", Grammar::Port),
    ("portable-entry", Grammar::PortableEntry),
    ("ref-name", Grammar::RefName),
    ("ref-name-characters", Grammar::RefNameCharacters),
    ("reference", Grammar::Reference),
    ("repository", Grammar::Repository),
    ("reverse-domain", Grammar::ReverseDomain),
    ("rootfs-path", Grammar::RootfsPath),
    ("scaled-number", Grammar::ScaledNumber),
    ("selinux-label", Grammar::SelinuxLabel),
    ("semver", Grammar::SemVer),
    ("signal", Grammar::Signal),
    ("spdx-expression", Grammar::SpdxExpression),
    ("tag", Grammar::Tag),
    ("uri", Grammar::Uri),
    ("user", Grammar::User),
    ("volume-guid-path", Grammar::VolumeGuidPath),
    ("windows-path", Grammar::WindowsPath),
];

/// The grammars with their names.
fn grammars() -> &'static [(&'static str, Grammar)]
    ensures { map (λ r. (r.0.now, r.1)) result.now ≡ defined.grammars }
{
    &GRAMMARS
}

/// The grammar with the name.
fn named(rows: &[(&str, Grammar)], name: &str) -> Option<Grammar>
    ensures { result ≡ defined.named (map (λ r. (r.0.now, r.1)) rows.now) name.now }
{
    for row in rows {
        if name == row.0 {
            return Some(row.1);
        }
    }
    None
}

/// A grammar by its name.
#[tactic(auto, unfolding(crate::specs::Grammars::grammar_in))]
pub(crate) fn grammar(key: &'static str, value: &Value) -> Result<Grammar, Fault>
    ensures { Reads (λ g. g) result (defined.grammar_in (view value.now)) }
{
    match named(grammars(), text(key, value)?) {
        Some(grammar) => Ok(grammar),
        None => Err(expected(key, "the name of a format")),
    }
}
