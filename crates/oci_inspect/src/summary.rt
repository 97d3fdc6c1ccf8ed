//! The summary of an image.
ghost use Rattle.std.specs.Prelude.{IfOk, string_bytes};
ghost use Rattle.oci_inspect.specs.Shown.{AreLines, IsSummary};

use crate::asked::Style;
use crate::rows::Rows;
use oci_descriptor::{Descriptor, Platform};
use oci_findings::outline::size_text;
use oci_image::{Config, ImageConfiguration, ImageManifest};
use serde_json::Value;
use std::alloc::{AllocError, Global};
use std::collections::BTreeMap;

/// What is known of an image: the manifest of an image manifest, and its configuration if it is one by its media type.
pub(crate) struct Facts<'a> {
    pub descriptor: &'a Descriptor,
    /// The name by which it was found, else that of its descriptor.
    pub name: Option<&'a str>,
    pub manifest: Option<&'a ImageManifest>,
    pub configuration: Option<&'a ImageConfiguration>,
}

impl<'a> Drop for Facts<'a> {
    fn drop(self) {
        let Facts {
            descriptor,
            name,
            manifest,
            configuration,
        } = self;
    }
}

impl<'a> Facts<'a> {
    /// The summary; `config` is the member of the configuration. Fails if out of memory.
    pub fn text(
        &self,
        config: Option<Value>,
        style: Style,
        alloc: Global,
    ) -> Result<String, AllocError>
        ensures { IfOk result (λ t. IsSummary style self.now.descriptor.now.digest (string_bytes t)) }
    {
        match style {
            Style::Text => self.lines(alloc),
            Style::Json => self.object_line(config, alloc),
        }
    }

    /// Lines for people. Fails if out of memory.
    pub fn lines(&self, alloc: Global) -> Result<String, AllocError>
        ensures { IfOk result (λ t. AreLines (string_bytes t)) }
    {
        let mut rows = Rows::new(alloc);
        add_descriptor(&mut rows, self.descriptor, self.name)?;
        self.add_platform(&mut rows, alloc)?;
        if let Some(configuration) = self.configuration {
            add_configuration(&mut rows, configuration, alloc)?;
        }
        if let Some(manifest) = self.manifest {
            add_layers(&mut rows, manifest.layers(), alloc)?;
        }
        rows.into_lines()
    }

    /// Adds the platform that the configuration states, else that of the descriptor.
    fn add_platform(&self, rows: &mut Rows, alloc: Global) -> Result<(), AllocError> {
        let text = match self.configuration {
            Some(it) => Some(platform_text(
                it.os().as_ref(),
                it.architecture().as_ref(),
                it.variant(),
                alloc,
            )?),
            None => match self.descriptor.platform() {
                Some(it) => Some(text_of_platform(it, alloc)?),
                None => None,
            },
        };
        rows.add_optional("platform", &text)
    }
}

fn text_of_platform(platform: &Platform, alloc: Global) -> Result<String, AllocError> {
    let os = platform.os().as_ref();
    platform_text(
        os,
        platform.architecture().as_ref(),
        platform.variant(),
        alloc,
    )
}

fn platform_text(
    os: &str,
    architecture: &str,
    variant: &Option<String>,
    alloc: Global,
) -> Result<String, AllocError> {
    match variant {
        Some(variant) => format!(in alloc; "{os}/{architecture}/{variant}"),
        None => format!(in alloc; "{os}/{architecture}"),
    }
}

/// Adds what the descriptor says.
fn add_descriptor(
    rows: &mut Rows,
    descriptor: &Descriptor,
    name: Option<&str>,
) -> Result<(), AllocError> {
    rows.add("digest", descriptor.digest().as_ref())?;
    rows.add("media type", descriptor.media_type().as_ref())?;
    match name {
        Some(name) => rows.add("name", name),
        None => Ok(()),
    }
}

/// Adds what the configuration says.
fn add_configuration(
    rows: &mut Rows,
    configuration: &ImageConfiguration,
    alloc: Global,
) -> Result<(), AllocError> {
    rows.add_optional("created", configuration.created())?;
    match configuration.config() {
        Some(config) => add_config(rows, config, alloc),
        None => Ok(()),
    }
}

/// Adds with what a container of the image runs.
fn add_config(rows: &mut Rows, config: &Config, alloc: Global) -> Result<(), AllocError> {
    rows.add_optional("user", config.user())?;
    rows.add_optional("workdir", config.working_dir())?;
    rows.add_array("entrypoint", config.entrypoint())?;
    rows.add_array("cmd", config.cmd())?;
    rows.add_optional("stop signal", config.stop_signal())?;
    rows.add_list("env", config.env())?;
    add_labels(rows, config.labels(), alloc)?;
    rows.add_list("ports", config.exposed_ports())?;
    rows.add_list("volumes", config.volumes())
}

/// Adds labels, each as its key and its value.
fn add_labels(
    rows: &mut Rows,
    labels: &Option<BTreeMap<String, String>>,
    alloc: Global,
) -> Result<(), AllocError> {
    let Some(labels) = labels else {
        return Ok(());
    };
    let mut texts = Vec::new(alloc);
    for (key, value) in labels.iter() {
        texts.push(format!(in alloc; "{key}={value}")?)?;
    }
    rows.add_list("labels", &Some(texts))
}

/// Adds how many layers there are, how large they are together, and each of them.
fn add_layers(rows: &mut Rows, layers: &[Descriptor], alloc: Global) -> Result<(), AllocError> {
    let mut total = 0u64;
    for layer in layers {
        total = total.saturating_add(layer.size());
    }
    let count = layers.len();
    let size = size_text(total, alloc)?;
    let text = format!(in alloc; "{count}, {size}")?;
    rows.add("layers", text.as_str())?;
    for layer in layers {
        add_layer(rows, layer, alloc)?;
    }
    Ok(())
}

fn add_layer(rows: &mut Rows, layer: &Descriptor, alloc: Global) -> Result<(), AllocError> {
    let digest = layer.digest().as_ref();
    let size = size_text(layer.size(), alloc)?;
    let media_type = layer.media_type().as_ref();
    let text = format!(in alloc; "{digest}  {size}  {media_type}")?;
    rows.add_below(text.as_str())
}
