//! Which manifest of an image index runs on a platform (image specification, "Image Index").
ghost use Rattle.std.specs.Prelude.{◌≡◌, ◌↔◌, ℕ, ◌<◌, IsTrue, IfOk, IfSome, IsNone, map};
ghost use Rattle.oci_descriptor.specs.declared.descriptor.Descriptor.{Descriptor};
ghost use Rattle.oci_select.specs.Chosen.{IsFor, IsForAt, IsChosen, Chooses, NoneRuns};
ghost use Rattle.oci_select.specs.Normal.{names_of};
ghost use Rattle.oci_select.specs.Runs.{runs_on};
ghost use Rattle.oci_select.specs.Told.{told};

use crate::fits::fits;
use crate::normal::{PlatformNames, is_name, names_of};
use crate::runs::runs_on;
use oci_descriptor::{Descriptor, Platform};
use oci_image::ImageIndex;
use std::alloc::{AllocError, Global};

/// Whether two platforms have the same names.
fn is_same(a: &PlatformNames<'_>, b: &PlatformNames<'_>) -> bool
    ensures { IsTrue result ↔ (told a.now ≡ told b.now) }
{
    is_name(a.os, b.os) && is_name(a.architecture, b.architecture) && is_name(a.variant, b.variant)
}

/// Whether a manifest is for a platform of these names; `own` are those of the wanted one.
fn is_for(
    manifest: &Descriptor,
    wanted: &Platform,
    own: &PlatformNames<'_>,
    names: &PlatformNames<'_>,
) -> bool
    requires { told own.now ≡ names_of wanted.now }
    ensures { IsTrue result ↔ IsFor wanted.now (told names.now) manifest.now }
{
    match manifest.platform() {
        Some(platform) => is_same(&names_of(platform), names) && fits(own, wanted, platform),
        None => false,
    }
}

/// The place of the first manifest for a platform of these names.
fn first_for(
    manifests: &[Descriptor],
    wanted: &Platform,
    own: &PlatformNames<'_>,
    names: &PlatformNames<'_>,
) -> Option<usize>
    requires { told own.now ≡ names_of wanted.now }
    ensures some { IfSome result (λ i. IsForAt manifests.now wanted.now (told names.now) i) }
    ensures first { IfSome result (λ i. (j : ℕ) → j < i → ¬ IsForAt manifests.now wanted.now (told names.now) j) }
    ensures none { IsNone result → (j : ℕ) → ¬ IsForAt manifests.now wanted.now (told names.now) j }
{
    for i in 0..manifests.len() {
        if is_for(&manifests[i], wanted, own, names) {
            return Some(i);
        }
    }
    None
}

/// The place of the manifest that is chosen; `own` are the names of the wanted platform, and `platforms` those that run on it.
fn first_of(
    manifests: &[Descriptor],
    wanted: &Platform,
    own: &PlatformNames<'_>,
    platforms: &[PlatformNames<'_>],
) -> Option<usize>
    requires own { told own.now ≡ names_of wanted.now }
    requires platforms { map told platforms.now ≡ runs_on (names_of wanted.now) }
    ensures some { IfSome result (λ i. IsChosen manifests.now wanted.now i) }
    ensures alone { IfSome result (λ i. (j : ℕ) → IsChosen manifests.now wanted.now j → j ≡ i) }
    ensures none { IsNone result ↔ NoneRuns manifests.now wanted.now }
{
    for names in platforms {
        if let Some(chosen) = first_for(manifests, wanted, own, names) {
            return Some(chosen);
        }
    }
    None
}

/// The place in `manifests` of the one that `select` returns, from 0 on. Fails if out of memory.
pub fn chosen(
    alloc: Global,
    index: &ImageIndex,
    wanted: &Platform,
) -> Result<Option<usize>, AllocError>
    ensures some { IfOk result (λ o. IfSome o (λ i. IsChosen index.now.manifests.items wanted.now i)) }
    ensures alone { IfOk result (λ o. IfSome o (λ i. (j : ℕ) → IsChosen index.now.manifests.items wanted.now j → j ≡ i)) }
    ensures none { IfOk result (λ o. IsNone o ↔ NoneRuns index.now.manifests.items wanted.now) }
{
    let own = names_of(wanted);
    let platforms = runs_on(alloc, own)?;
    Ok(first_of(index.manifests(), wanted, &own, &platforms))
}

/// The manifest of an image index that runs on a platform (image specification, "Image Index", `platform`): the first of those for the best
/// platform that runs there, of which [the crate](crate) says what runs where. `None` exactly if no manifest states one that does; whether a
/// manifest without a platform runs there is in its configuration, which is left to the caller. Media types are not looked at, so a nested
/// index is chosen like a manifest. Fails if out of memory.
pub fn select<'a>(
    alloc: Global,
    index: &'a ImageIndex,
    wanted: &Platform,
) -> Result<Option<&'a Descriptor>, AllocError>
    ensures some { IfOk result (λ o. IfSome o (λ d. Chooses index.now.manifests.items wanted.now d.now)) }
    ensures alone { IfOk result (λ o. IfSome o (λ d. (e : Descriptor) → Chooses index.now.manifests.items wanted.now e → e ≡ d.now)) }
    ensures none { IfOk result (λ o. IsNone o ↔ NoneRuns index.now.manifests.items wanted.now) }
{
    match chosen(alloc, index, wanted)? {
        Some(i) => Ok(Some(&index.manifests()[i])),
        None => Ok(None),
    }
}
