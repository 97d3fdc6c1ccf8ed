//! An image, and what its documents say.
ghost use Rattle.std.specs.Prelude.{◌≡◌, option_map};
ghost use Rattle.serde_json.specs.View.{view, items_view};
ghost use Rattle.oci_agreement.specs.Images as images;
ghost use Rattle.oci_agreement.specs.Images.{image_of};

use crate::parts::{items_at, items_in, part_in, present, text_at, text_in, text_or};
use crate::types::is_config_type;
use serde_json::Value;

/// The documents of an image, as they were read.
#[derive(Clone, Copy)]
pub struct Image<'a> {
    /// The descriptor that leads to the manifest, where one does.
    pub descriptor: Option<&'a Value>,
    /// The manifest; it may be an index, of which less is asked.
    pub manifest: &'a Value,
    /// Its configuration, where that is known.
    pub config: Option<&'a Value>,
}

/// The media type of the configuration.
pub fn config_type(manifest: &Value) -> Option<&str>
    ensures { option_map (λ t. t.now) result ≡ images.config_type (view manifest.now) }
{
    text_in(present(manifest, "config"), "mediaType")
}

/// The type of the artifact, or that of the configuration where there is none.
pub fn artifact_type(manifest: &Value) -> Option<&str>
    ensures { option_map (λ t. t.now) result ≡ images.artifact_type (view manifest.now) }
{
    text_or(config_type(manifest), "artifactType", Some(manifest))
}

/// Whether the configuration's type is that of an image's.
pub fn has_image_config(manifest: &Value) -> bool
    ensures { result ≡ images.has_image_config (view manifest.now) }
{
    match config_type(manifest) {
        Some(media_type) => is_config_type(media_type),
        None => false,
    }
}

impl<'a> Image<'a> {
    /// The configuration, where its type is that of an image's.
    pub(crate) fn image_config(&self) -> Option<&'a Value>
        ensures { option_map (λ v. view v.now) result ≡ images.config_of (image_of self.now) }
    {
        if has_image_config(self.manifest) {
            self.config
        } else {
            None
        }
    }

    /// The platform that the descriptor is for.
    pub(crate) fn platform(&self) -> Option<&'a Value>
        ensures { option_map (λ v. view v.now) result ≡ images.platform_of (image_of self.now) }
    {
        part_in(self.descriptor, "platform")
    }

    /// The descriptors of the layers in the manifest, if it has a list of them.
    pub fn layers(&self) -> Option<&'a Vec<Value>>
        ensures { option_map (λ v. items_view v.now.items) result ≡ images.layers_of (image_of self.now) }
    {
        items_at(self.manifest, "layers")
    }

    /// The DiffIDs in the configuration, if that is an image's and has a list of them.
    pub fn diff_ids(&self) -> Option<&'a Vec<Value>>
        ensures { option_map (λ v. items_view v.now.items) result ≡ images.diff_ids_of (image_of self.now) }
    {
        items_in(part_in(self.image_config(), "rootfs"), "diff_ids")
    }

    pub(crate) fn history(&self) -> Option<&'a Vec<Value>>
        ensures { option_map (λ v. items_view v.now.items) result ≡ images.history_of (image_of self.now) }
    {
        items_in(self.image_config(), "history")
    }

    pub(crate) fn labels(&self) -> Option<&'a Value>
        ensures { option_map (λ v. view v.now) result ≡ images.labels_of (image_of self.now) }
    {
        part_in(part_in(self.image_config(), "config"), "Labels")
    }
}

/// The annotations of a descriptor or a document.
pub fn annotations(value: Option<&Value>) -> Option<&Value>
    ensures { option_map (λ v. view v.now) result ≡ images.annotations_of (option_map (λ v. view v.now) value.entry) }
{
    part_in(value, "annotations")
}

/// The variant of the processor that is meant where none is said.
fn implied_variant(architecture: Option<&str>) -> Option<&'static str>
    ensures { option_map (λ t. t.now) result ≡ images.implied_variant (option_map (λ t. t.now) architecture.entry) }
{
    match architecture {
        Some(architecture) => {
            if "arm64" == architecture {
                Some("v8")
            } else {
                None
            }
        }
        None => None,
    }
}

/// The variant of the processor of a platform or a configuration.
pub fn variant_in<'v>(value: Option<&'v Value>) -> Option<&'v str>
    ensures { option_map (λ t. t.now) result ≡ images.variant_in (option_map (λ v. view v.now) value.entry) }
{
    text_or(
        implied_variant(text_in(value, "architecture")),
        "variant",
        value,
    )
}
