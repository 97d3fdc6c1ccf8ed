//! Which of some candidates is meant.
ghost use Rattle.std.specs.Prelude.{◌≡◌, ◌||◌, ◌∷◌, [], None, true, false, is_none, IfOk, IfErr, IfSome, IsNone};
ghost use Rattle.std.specs.Option.{option_copied};
ghost use Rattle.oci_select.specs.Chosen.{Chooses};
ghost use Rattle.oci_inspect.specs.Found.{IsMeant, IsNoneBest, IsNoneMeant, is_index, is_lone};

use crate::fault::FindError;
use crate::kinds::is_index;
use oci_descriptor::{Descriptor, Platform};
use oci_image::ImageIndex;
use oci_select::select;
use std::alloc::Global;

/// The manifest of an index that is meant where this platform is wanted; the number is how many indexes it lies below.
pub(crate) fn meant<'a>(
    index: &'a ImageIndex,
    depth: u8,
    wanted: Option<&Platform>,
    alloc: Global,
) -> Result<&'a Descriptor, FindError>
    ensures ok { IfOk result (λ d. IsMeant (option_copied wanted.entry) depth index.now.manifests.items d.now) }
    ensures err { IfErr result (IsNoneMeant (option_copied wanted.entry) depth index.now.manifests.items) }
{
    match wanted {
        None => only(index.manifests()),
        Some(wanted) => match lone(index.manifests(), depth) {
            Some(descriptor) => Ok(descriptor),
            None => best(index, wanted, alloc),
        },
    }
}

/// The only candidate.
fn only(candidates: &[Descriptor]) -> Result<&Descriptor, FindError>
    ensures ok { IfOk result (λ d. candidates.now ≡ d.now ∷ []) }
    ensures err { IfErr result (IsNoneMeant None 0 candidates.now) }
{
    match candidates {
        [] => Err(FindError::NoName),
        [descriptor] => Ok(descriptor),
        _ => Err(FindError::Several(candidates.len())),
    }
}

/// The candidate that is meant whatever platform is wanted.
fn lone(candidates: &[Descriptor], depth: u8) -> Option<&Descriptor>
    ensures some { IfSome result (λ d. (is_lone depth candidates.now ≡ true) × (candidates.now ≡ d.now ∷ [])) }
    ensures none { IsNone result → is_lone depth candidates.now ≡ false }
{
    match candidates {
        [descriptor] if depth == 0 && may_be_lone(descriptor) => Some(descriptor),
        _ => None,
    }
}

/// Whether it is an index, or states no platform.
fn may_be_lone(descriptor: &Descriptor) -> bool
    ensures { result ≡ (is_index descriptor.now || is_none descriptor.now.platform) }
{
    is_index(descriptor) || descriptor.platform().is_none()
}

/// The candidate that is chosen for a platform.
fn best<'a>(
    index: &'a ImageIndex,
    wanted: &Platform,
    alloc: Global,
) -> Result<&'a Descriptor, FindError>
    ensures ok { IfOk result (λ d. Chooses index.now.manifests.items wanted.now d.now) }
    ensures err { IfErr result (IsNoneBest index.now.manifests.items wanted.now) }
{
    if index.manifests().is_empty() {
        return Err(FindError::NoName);
    }
    match select(alloc, index, wanted)? {
        Some(descriptor) => Ok(descriptor),
        None => Err(FindError::NoPlatform),
    }
}
