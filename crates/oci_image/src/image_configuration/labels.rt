//! Look-ups of a configuration's labels (image specification, "Image Configuration", `config.Labels`, and "Annotations").
ghost use Rattle.std.specs.Prelude.{◌≡◌};

use super::ImageConfiguration;
use crate::annotations::ANNOTATION_VERSION;
use std::collections::BTreeMap;

/// An older key for the version of the packaged software.
pub const LABEL_VERSION: &str = "version";

impl ImageConfiguration {
    ghost use Rattle.std.specs.Prelude.{option_map};
    ghost use Rattle.std.specs.Option.{option_copied};
    ghost use Rattle.oci_image.specs.ImageConfigurationOwn.{labels_of, label_of, version_of};

    /// The labels of `config`, where both are there.
    pub fn labels_of_config(&self) -> Option<&BTreeMap<String, String>>
        ensures { option_copied result ≡ labels_of self.now }
    {
        match &self.config {
            Some(config) => config.labels().as_ref(),
            None => None,
        }
    }

    /// The label of this key, where there is one.
    pub fn get_config_annotation(&self, key: &str) -> Option<&str>
        ensures { option_map (λ t. t.now) result ≡ label_of self.now key.now }
    {
        match self.labels_of_config() {
            Some(labels) => match labels.get(key) {
                Some(label) => Some(label.as_str()),
                None => None,
            },
            None => None,
        }
    }

    /// The version of the packaged software: the label `org.opencontainers.image.version`, else the label `version`.
    pub fn version(&self) -> Option<&str>
        ensures { option_map (λ t. t.now) result ≡ version_of self.now }
    {
        match self.get_config_annotation(ANNOTATION_VERSION) {
            Some(version) => Some(version),
            None => self.get_config_annotation(LABEL_VERSION),
        }
    }
}
