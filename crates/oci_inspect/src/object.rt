//! The summary of an image as a JSON object.
ghost use Rattle.std.specs.Prelude.{IfOk, string_bytes};
ghost use Rattle.serde_json.specs.View.{view};
ghost use Rattle.oci_inspect.specs.Shown.{IsObjectLine, SaysDigest};

use crate::platforms::platform_of;
use crate::summary::Facts;
use oci_base::{Result, line_of};
use oci_descriptor::Descriptor;
use oci_model::{ObjectWriter, write_optional, write_required};
use oci_text::Digest;
use serde_json::Value;
use std::alloc::{AllocError, Global};

impl<'a> Facts<'a> {
    /// An object in one line; `config` is that of the configuration. Fails if out of memory.
    pub fn object_line(
        &self,
        config: Option<Value>,
        alloc: Global,
    ) -> std::result::Result<String, AllocError>
        ensures { IfOk result (λ t. IsObjectLine self.now.descriptor.now.digest (string_bytes t)) }
    {
        match self.object(config, alloc) {
            Ok(object) => {
                let text = object.to_string(alloc)?;
                line_of(text.as_str(), alloc)
            }
            Err(_) => Err(AllocError),
        }
    }

    /// The object.
    fn object(&self, config: Option<Value>, alloc: Global) -> Result<Value>
        ensures { IfOk result (λ v. SaysDigest self.now.descriptor.now.digest (view v)) }
    {
        let mut out = ObjectWriter::new(alloc);
        put_descriptor(&mut out, self.descriptor);
        if let Some(name) = self.name {
            out.insert("name", Value::String(String::from_str(alloc, name)?));
        }
        self.put_platform(&mut out, alloc)?;
        if let Some(configuration) = self.configuration {
            write_optional(&mut out, "created", configuration.created());
        }
        if let Some(config) = config {
            out.insert("config", config);
        }
        if let Some(manifest) = self.manifest {
            out.insert("layers", layers_of(manifest.layers(), alloc)?);
            write_optional(&mut out, "annotations", manifest.annotations());
        }
        with_digest(out, self.descriptor.digest(), alloc)
    }

    /// Adds the platform that the configuration states, else that of the descriptor.
    fn put_platform(&self, out: &mut ObjectWriter, alloc: Global) -> Result<()> {
        match self.configuration {
            Some(configuration) => {
                let platform = platform_of(configuration, alloc)?;
                write_required(out, "platform", &platform);
            }
            None => write_optional(out, "platform", self.descriptor.platform()),
        }
        Ok(())
    }
}

/// Adds the media type and the size that a descriptor says.
fn put_descriptor(out: &mut ObjectWriter, descriptor: &Descriptor) {
    write_required(out, "mediaType", descriptor.media_type());
    write_required(out, "size", &descriptor.size());
}

/// Layers, an object each.
fn layers_of(layers: &[Descriptor], alloc: Global) -> Result<Value> {
    let mut list = Vec::new(alloc);
    for layer in layers {
        let mut out = ObjectWriter::new(alloc);
        put_descriptor(&mut out, layer);
        list.push(with_digest(out, layer.digest(), alloc)?)?;
    }
    Ok(Value::Array(list))
}

/// The object of what was written, and of a digest.
fn with_digest(mut out: ObjectWriter, digest: &Digest, alloc: Global) -> Result<Value>
    ensures { IfOk result (λ v. SaysDigest digest.now (view v)) }
{
    let text = String::from_str(alloc, digest.as_ref())?;
    out.insert("digest", Value::String(text));
    out.object()
}
