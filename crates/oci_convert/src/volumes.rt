//! The mounts of an image's volumes (image specification, "Conversion to OCI Runtime Configuration", `Config.Volumes`).
ghost use Rattle.std.specs.Prelude.{◌≡◌, [], ◌∷◌, bytes_eq, map, string_bytes, option_and_then, IfOk, OnOk};
ghost use Rattle.std.specs.Option.{option_copied};
ghost use Rattle.oci_convert.specs.Texts.{texts_of};
ghost use Rattle.oci_convert.specs.Volumes.{mounts_of, is_mounted, IsCopyAt, MountsVolumes, MountsGiven};

use crate::texts::has_none;
use oci_image::Config;
use oci_runtime_records::Mount;
use std::alloc::{AllocError, Global};

/// Whether a mount is at this destination.
fn is_at(mount: &Mount, destination: &str) -> bool
    ensures { result ≡ bytes_eq (string_bytes mount.now.destination) destination.now }
{
    mount.destination().as_str() == destination
}

/// Whether one of the mounts is at this destination.
fn is_mounted(mounts: &Vec<Mount>, destination: &str) -> bool
    ensures { result ≡ is_mounted mounts.now.items destination.now }
{
    mounts.iter().any(|mount| is_at(mount, destination))
}

/// A copy of a mount, at another destination. Fails if out of memory.
fn placed(volume: &Mount, alloc: Global, destination: &str) -> Result<Mount, AllocError>
    ensures { IfOk result (IsCopyAt volume.now destination.now) }
{
    let destination = String::from_str(alloc, destination)?;
    match volume.clone(alloc) {
        Ok(mut mount) => {
            mount.set_destination(destination);
            Ok(mount)
        }
        Err(_) => Err(AllocError),
    }
}

/// Adds a copy of `volume` at a path, unless a mount is there. Fails if out of memory.
fn mount_volume(
    mounts: &mut Vec<Mount>,
    alloc: Global,
    path: &str,
    volume: &Mount,
) -> Result<(), AllocError>
    ensures { OnOk result (MountsVolumes volume.now (path.now ∷ []) mounts.old.items mounts.new.items) }
{
    if is_mounted(mounts, path) {
        return Ok(());
    }
    mounts.push(placed(volume, alloc, path)?)?;
    Ok(())
}

/// Adds a mount for each volume at whose path there is none: a copy of `volume` at that path. Fails if out of memory.
fn mount_all(
    mounts: &mut Vec<Mount>,
    alloc: Global,
    paths: &Vec<String>,
    volume: &Mount,
) -> Result<(), AllocError>
    ensures { OnOk result (MountsVolumes volume.now (map string_bytes paths.now.items) mounts.old.items mounts.new.items) }
{
    for path in paths {
        mount_volume(mounts, alloc, path.as_str(), volume)?;
    }
    Ok(())
}

/// The same, in a list that is made if there is none.
fn mount_in(
    mounts: &mut Option<Vec<Mount>>,
    alloc: Global,
    paths: &Vec<String>,
    volume: &Mount,
) -> Result<(), AllocError>
    ensures { OnOk result (MountsVolumes volume.now (map string_bytes paths.now.items) (mounts_of mounts.old) (mounts_of mounts.new)) }
{
    let mounts = mounts.get_or_insert(Vec::new(alloc));
    mount_all(mounts, alloc, paths, volume)
}

/// The volumes of an image, where there are any.
fn volumes_of(config: &Option<Config>) -> Option<&Vec<String>>
    ensures { option_copied result ≡ option_and_then (λ c. c.volumes) config.now }
{
    match config {
        Some(config) => config.volumes().as_ref(),
        None => None,
    }
}

/// Adds the mounts of the image's volumes, if there are any and they are asked for. Fails if out of memory.
pub(crate) fn mount_volumes(
    mounts: &mut Option<Vec<Mount>>,
    alloc: Global,
    config: &Option<Config>,
    volume: Option<&Mount>,
) -> Result<(), AllocError>
    ensures { OnOk result (MountsGiven (option_copied volume.entry) (texts_of (option_and_then (λ c. c.volumes) config.now)) (mounts_of mounts.old) (mounts_of mounts.new)) }
{
    let Some(volume) = volume else {
        return Ok(());
    };
    let Some(paths) = volumes_of(config) else {
        return Ok(());
    };
    if has_none(paths) {
        return Ok(());
    }
    mount_in(mounts, alloc, paths, volume)
}
