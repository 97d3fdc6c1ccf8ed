//! Semantic versions.
ghost use Rattle.std.specs.Prelude.{◌≡◌};
ghost use Rattle.oci_grammars.specs.Decided as decided;

use crate::cuts::cut;
use crate::numbers::is_numeric;
use crate::parts::Part;

pub(crate) fn is_semver(text: &[u8]) -> bool
    ensures { result ≡ decided.is_semver text.now }
{
    let (version, build) = cut(text, b'+');
    is_pre_release(version) & (!text.contains(&b'+') | Part::BuildIdentifier.joins(build, b'.'))
}

fn is_pre_release(text: &[u8]) -> bool
    ensures { result ≡ decided.is_pre_release text.now }
{
    let (core, identifiers) = cut(text, b'-');
    is_version_core(core) & (!text.contains(&b'-') | Part::PreIdentifier.joins(identifiers, b'.'))
}

fn is_version_core(text: &[u8]) -> bool
    ensures { result ≡ decided.is_version_core text.now }
{
    let (major, rest) = cut(text, b'.');
    let (minor, patch) = cut(rest, b'.');
    is_numeric(major) & (is_numeric(minor) & is_numeric(patch))
}
