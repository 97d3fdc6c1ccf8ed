//! The conversion.
ghost use Rattle.std.specs.Prelude.{IfOk, IfErr};
ghost use Rattle.std.specs.Option.{option_copied};
ghost use Rattle.oci_convert.specs.Converts.{Converts};
ghost use Rattle.oci_convert.specs.Refuses.{Refuses};

use crate::annotations::annotate;
use crate::error::ConvertError;
use crate::process::convert_process;
use crate::volumes::mount_volumes;
use oci_accounts::Accounts;
use oci_image::ImageConfiguration;
use oci_runtime::Spec;
use oci_runtime_records::Mount;
use std::alloc::Global;

/// The runtime configuration of an image: what the image says in place of what `base` says, and the rest of `base` as it is.
///
/// `base` is the caller's own configuration, the text's "implementation-defined defaults"; it needs a `process`. `accounts` are the
/// users and groups of the container. `volume` is a mount that is copied for each of the image's volumes, at each path at which `base`
/// has no mount; with `None` volumes are left out. Where the image has an empty `User` or `WorkingDir`, or neither `Entrypoint` nor
/// `Cmd`, `base` stays. A relative `WorkingDir` and entries of `Env` without `=` are copied as they are.
///
/// Fails with `NoProcess`, `UnknownUser`, `UnknownGroup` or `NoId` exactly where that is true of the input, or with `Memory`.
pub fn convert<A: Accounts>(
    alloc: Global,
    image: &ImageConfiguration,
    mut base: Spec,
    accounts: &A,
    volume: Option<&Mount>,
) -> Result<Spec, ConvertError>
    ensures ok { IfOk result (Converts (A.is_user accounts.now) (A.is_own_group accounts.now) (A.is_group accounts.now) (A.are_groups accounts.now) image.now (option_copied volume.entry) base) }
    ensures err { IfErr result (Refuses (A.is_user accounts.now) (A.is_group accounts.now) image.now base.process) }
{
    convert_process(base.process_mut(), alloc, image, accounts)?;
    mount_volumes(base.mounts_mut(), alloc, image.config(), volume)?;
    annotate(base.annotations_mut(), alloc, image)?;
    Ok(base)
}
