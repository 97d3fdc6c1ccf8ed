//! The kinds of documents.
ghost use Rattle.std.specs.Prelude.{◌≡◌, Some};
ghost use Rattle.oci_model.specs.WellFormed.{WellFormed};
ghost use Rattle.oci_schema.specs.Shapes.{schema_shape, shape_at};
ghost use Rattle.oci_schemas.specs.Table.{shapes};
ghost use Rattle.oci_schemas.specs.Kinds.{kind_of, shape_of};

use crate::distribution::{error_response, repository_list, tag_list};
use crate::features::features;
use crate::image::image_configuration;
use crate::image_descriptor::descriptor;
use crate::image_manifest::{artifact_manifest, image_index, image_manifest, oci_layout};
use crate::reference::reference;
use crate::runtime_records::{container_process_state, state};
use crate::runtime_spec::spec;
use oci_schema::Schema;

/// A kind of document, which the program names by one word.
#[derive(Clone, Copy, Debug, PartialEq, Eq)]
pub enum Kind {
    /// `manifest`: an image manifest.
    Manifest,
    /// `index`: an image index.
    Index,
    /// `config`: an image configuration.
    Config,
    /// `artifact`: an artifact manifest.
    Artifact,
    /// `layout`: the marker of an image layout.
    Layout,
    /// `descriptor`: a content descriptor.
    Descriptor,
    /// `error`: a registry's reply to a request that failed.
    Error,
    /// `repositories`: a registry's list of repositories.
    Repositories,
    /// `tags`: a repository's list of tags.
    Tags,
    /// `reference`: a reference to an image, in its parts.
    Reference,
    /// `spec`: the configuration of a container.
    Spec,
    /// `state`: the state of a container.
    State,
    /// `process-state`: what a seccomp listener receives.
    ProcessState,
    /// `features`: what a runtime can do.
    Features,
}

/// All kinds, in their order.
pub static KINDS: [Kind; 14] = [
    Kind::Manifest,
    Kind::Index,
    Kind::Config,
    Kind::Artifact,
    Kind::Layout,
    Kind::Descriptor,
    Kind::Error,
    Kind::Repositories,
    Kind::Tags,
    Kind::Reference,
    Kind::Spec,
    Kind::State,
    Kind::ProcessState,
    Kind::Features,
];

impl Kind {
    /// The kind that a word names, if there is one.
    pub fn from_word(word: &str) -> Option<Kind>
        ensures { result ≡ kind_of word.now }
    {
        match word {
            "manifest" => Some(Kind::Manifest),
            "index" => Some(Kind::Index),
            "config" => Some(Kind::Config),
            "artifact" => Some(Kind::Artifact),
            "layout" => Some(Kind::Layout),
            "descriptor" => Some(Kind::Descriptor),
            "error" => Some(Kind::Error),
            "repositories" => Some(Kind::Repositories),
            "tags" => Some(Kind::Tags),
            "reference" => Some(Kind::Reference),
            "spec" => Some(Kind::Spec),
            "state" => Some(Kind::State),
            "process-state" => Some(Kind::ProcessState),
            "features" => Some(Kind::Features),
            _ => None,
        }
    }

    /// The word for the kind.
    pub fn word(self) -> &'static str
        ensures { kind_of result.now ≡ Some self }
    {
        match self {
            Kind::Manifest => "manifest",
            Kind::Index => "index",
            Kind::Config => "config",
            Kind::Artifact => "artifact",
            Kind::Layout => "layout",
            Kind::Descriptor => "descriptor",
            Kind::Error => "error",
            Kind::Repositories => "repositories",
            Kind::Tags => "tags",
            Kind::Reference => "reference",
            Kind::Spec => "spec",
            Kind::State => "state",
            Kind::ProcessState => "process-state",
            Kind::Features => "features",
        }
    }

    /// What a document of the kind is called, with its article.
    pub fn title(self) -> &'static str {
        match self {
            Kind::Manifest => "an image manifest",
            Kind::Index => "an image index",
            Kind::Config => "an image configuration",
            Kind::Artifact => "an artifact manifest",
            Kind::Layout => "an oci-layout file",
            Kind::Descriptor => "a content descriptor",
            Kind::Error => "a registry's error reply",
            Kind::Repositories => "a list of repositories",
            Kind::Tags => "a list of tags",
            Kind::Reference => "an image reference in its parts",
            Kind::Spec => "a runtime configuration",
            Kind::State => "the state of a container",
            Kind::ProcessState => "the state of a container process",
            Kind::Features => "the features of a runtime",
        }
    }

    /// Returns the schema of the kind's documents, by the records of `OciRecords`.
    pub fn schema(self) -> &'static Schema
        ensures shape { schema_shape (shape_at shapes) result.now ≡ shape_of self }
        ensures well { WellFormed (schema_shape (shape_at shapes) result.now) }
    {
        self.table()
    }

    fn table(self) -> &'static Schema
        ensures { schema_shape (shape_at shapes) result.now ≡ shape_of self }
    {
        match self {
            Kind::Manifest => image_manifest(),
            Kind::Index => image_index(),
            Kind::Config => image_configuration(),
            Kind::Artifact => artifact_manifest(),
            Kind::Layout => oci_layout(),
            Kind::Descriptor => descriptor(),
            Kind::Error => error_response(),
            Kind::Repositories => repository_list(),
            Kind::Tags => tag_list(),
            Kind::Reference => reference(),
            Kind::Spec => spec(),
            Kind::State => state(),
            Kind::ProcessState => container_process_state(),
            Kind::Features => features(),
        }
    }
}
