//! The annotations of an image configuration (image specification, "Conversion to OCI Runtime Configuration", "Annotation Fields").
ghost use Rattle.std.specs.Prelude.{◌≡◌, ℕ, List, Some, OnOk};
ghost use Rattle.std.specs.Option.{option_or};
ghost use Rattle.oci_convert.specs.Maps.{value_of, look, look_in};
ghost use Rattle.oci_convert.specs.Annotations.{label_of, annotation, implied, of_platform, of_config};

use crate::map::{Annotations, put, put_labels, put_list, put_text};
use oci_image::{Config, ImageConfiguration};
use std::alloc::{AllocError, Global};
use std::collections::BTreeMap;

const OS: &str = "org.opencontainers.image.os";

const ARCHITECTURE: &str = "org.opencontainers.image.architecture";

const VARIANT: &str = "org.opencontainers.image.variant";

const OS_VERSION: &str = "org.opencontainers.image.os.version";

const OS_FEATURES: &str = "org.opencontainers.image.os.features";

const AUTHOR: &str = "org.opencontainers.image.author";

const CREATED: &str = "org.opencontainers.image.created";

const STOP_SIGNAL: &str = "org.opencontainers.image.stopSignal";

const EXPOSED_PORTS: &str = "org.opencontainers.image.exposedPorts";

/// Sets the annotations of the platform.
fn put_platform(
    map: &mut Annotations,
    alloc: Global,
    image: &ImageConfiguration,
) -> Result<(), AllocError>
    ensures { OnOk result ((q : List ℕ) → look map.new q ≡ option_or (value_of (of_platform image.now) q) (look map.old q)) }
{
    put_list(map, alloc, OS_FEATURES, image.os_features())?;
    put_text(map, alloc, OS_VERSION, image.os_version())?;
    put_text(map, alloc, VARIANT, image.variant())?;
    put(map, alloc, ARCHITECTURE, image.architecture().as_ref())?;
    put(map, alloc, OS, image.os().as_ref())?;
    Ok(())
}

/// Sets the annotations of the container's configuration.
fn put_config(map: &mut Annotations, alloc: Global, config: &Config) -> Result<(), AllocError>
    ensures { OnOk result ((q : List ℕ) → look map.new q ≡ option_or (value_of (of_config (Some config.now)) q) (look map.old q)) }
{
    put_list(map, alloc, EXPOSED_PORTS, config.exposed_ports())?;
    put_text(map, alloc, STOP_SIGNAL, config.stop_signal())?;
    Ok(())
}

/// The same, where the image has one.
fn put_config_of(
    map: &mut Annotations,
    alloc: Global,
    config: &Option<Config>,
) -> Result<(), AllocError>
    ensures { OnOk result ((q : List ℕ) → look map.new q ≡ option_or (value_of (of_config config.now) q) (look map.old q)) }
{
    match config {
        Some(config) => put_config(map, alloc, config),
        None => Ok(()),
    }
}

/// Sets the annotations that the fields of an image say.
fn put_fields(
    map: &mut Annotations,
    alloc: Global,
    image: &ImageConfiguration,
) -> Result<(), AllocError>
    ensures { OnOk result ((q : List ℕ) → look map.new q ≡ option_or (value_of (implied image.now) q) (look map.old q)) }
{
    put_config_of(map, alloc, image.config())?;
    put_text(map, alloc, CREATED, image.created())?;
    put_text(map, alloc, AUTHOR, image.author())?;
    put_platform(map, alloc, image)?;
    Ok(())
}

/// Sets the labels, which replace all else.
fn put_labels_of(
    map: &mut Annotations,
    alloc: Global,
    config: &Option<Config>,
) -> Result<(), AllocError>
    ensures { OnOk result ((q : List ℕ) → look map.new q ≡ option_or (label_of config.now q) (look map.old q)) }
{
    let Some(config) = config else {
        return Ok(());
    };
    match config.labels() {
        Some(labels) => put_labels(map, alloc, labels),
        None => Ok(()),
    }
}

/// Sets the annotations of an image configuration: those that its fields say, and then its labels, which take precedence. Fails if out
/// of memory.
fn annotate_map(
    map: &mut Annotations,
    alloc: Global,
    image: &ImageConfiguration,
) -> Result<(), AllocError>
    ensures { OnOk result ((q : List ℕ) → look map.new q ≡ annotation image.now (look map.old) q) }
{
    put_fields(map, alloc, image)?;
    put_labels_of(map, alloc, image.config())?;
    Ok(())
}

/// The same, in a map that is made if there is none. Fails if out of memory.
pub(crate) fn annotate(
    annotations: &mut Option<Annotations>,
    alloc: Global,
    image: &ImageConfiguration,
) -> Result<(), AllocError>
    ensures { OnOk result ((q : List ℕ) → look_in annotations.new q ≡ annotation image.now (look_in annotations.old) q) }
{
    let map = annotations.get_or_insert(BTreeMap::new(alloc));
    annotate_map(map, alloc, image)
}
