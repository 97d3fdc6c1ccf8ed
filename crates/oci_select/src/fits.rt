//! What a platform states of its operating system beside the name.
ghost use Rattle.std.specs.Prelude.{◌≡◌, ◌↔◌, IsTrue, map, slice_get, string_bytes};
ghost use Rattle.std.specs.List.{Contains};
ghost use Rattle.std.specs.Option.{option_copied};
ghost use Rattle.oci_select.specs.Fits.{parts_of, IsSameBuild, AreAmong, VersionFits, FeaturesFit, Fits};
ghost use Rattle.oci_select.specs.Normal.{lower, names_of};
ghost use Rattle.oci_select.specs.Told.{told};

use crate::normal::{PlatformNames, is_name};
use oci_descriptor::Platform;

/// The part of this index of a version, from 0 on.
fn part(version: &[u8], index: usize) -> Option<&[u8]>
    ensures { option_copied result ≡ slice_get (parts_of version.now) index }
{
    version.split(|b| *b == b'.').nth(index)
}

/// Whether two parts are the same, or both missing.
fn is_same(a: Option<&[u8]>, b: Option<&[u8]>) -> bool
    ensures { IsTrue result ↔ (option_copied a.entry ≡ option_copied b.entry) }
{
    match (a, b) {
        (Some(a), Some(b)) => a == b,
        (None, None) => true,
        _ => false,
    }
}

/// Whether two versions have the same major, minor and build number.
fn is_same_build(a: &[u8], b: &[u8]) -> bool
    ensures { IsTrue result ↔ IsSameBuild a.now b.now }
{
    for k in 0..3 {
        if !is_same(part(a, k), part(b, k)) {
            return false;
        }
    }
    true
}

/// Whether the versions of a system fit together, where both are stated.
fn version_fits(os: &str, wanted: &Option<String>, stated: &Option<String>) -> bool
    ensures { IsTrue result ↔ VersionFits (lower os.now) wanted.now stated.now }
{
    match (wanted, stated) {
        (Some(v), Some(w)) => !is_name(os, "windows")
            || is_same_build(v.as_str().as_bytes(), w.as_str().as_bytes()),
        _ => true,
    }
}

/// Whether a feature is one of these.
fn is_given(features: &[String], feature: &str) -> bool
    ensures { IsTrue result ↔ Contains (map string_bytes features.now) feature.now }
{
    for given in features {
        if given.as_str() == feature {
            return true;
        }
    }
    false
}

/// Whether each of the first features is one of the second.
fn are_among(needed: &[String], given: &[String]) -> bool
    ensures { IsTrue result ↔ AreAmong (map string_bytes needed.now) (map string_bytes given.now) }
{
    for feature in needed {
        if !is_given(given, feature.as_str()) {
            return false;
        }
    }
    true
}

/// Whether the features that a platform needs are given, where the other states any.
fn features_fit(given: &Option<Vec<String>>, needed: &Option<Vec<String>>) -> bool
    ensures { IsTrue result ↔ FeaturesFit given.now needed.now }
{
    match (given, needed) {
        (Some(given), Some(needed)) => are_among(needed, given),
        _ => true,
    }
}

/// Whether what both platforms state of the system fits together; `names` are those of the wanted one.
pub(crate) fn fits(names: &PlatformNames<'_>, wanted: &Platform, platform: &Platform) -> bool
    requires { told names.now ≡ names_of wanted.now }
    ensures { IsTrue result ↔ Fits wanted.now platform.now }
{
    version_fits(names.os, wanted.os_version(), platform.os_version())
        && features_fit(wanted.os_features(), platform.os_features())
}
