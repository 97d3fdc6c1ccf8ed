//! What the documents of an image agree on.
ghost use Rattle.std.specs.Prelude.{◌≡◌};
ghost use Rattle.oci_agreement.specs.Described.{described, description_of};

use oci_rules::Level;

/// What the documents of an image agree on. Nothing is asked where one of them does not say it, or where a member is of another type: that
/// is for its schema.
#[derive(Clone, Copy, Debug, PartialEq, Eq)]
pub enum Agreement {
    /// As many DiffIDs as layers.
    DiffIdsCount,
    /// The digest of a layer that is not compressed is its DiffID. Digests by different algorithms are not compared.
    DiffId,
    /// As many entries of the history that are no empty layers as DiffIDs.
    HistoryCount,
    /// The descriptor's platform has the configuration's operating system.
    PlatformOs,
    /// The same of the processor.
    PlatformArchitecture,
    /// The same of its variant. That of an `arm64` which says none is `v8` (image specification, "Image Index", "Platform Variants").
    PlatformVariant,
    /// The same of the operating system's version.
    PlatformOsVersion,
    /// The same of its features, in any order.
    PlatformOsFeatures,
    /// The descriptor has the manifest's type of artifact: its `artifactType`, or the media type of its configuration where there is none.
    ArtifactType,
    /// A key below `org.opencontainers.image` has one value in descriptor, manifest and labels.
    AnnotationCopies,
    /// A manifest of Docker's format has no configuration of OCI's.
    TypesMixed,
}

/// How an agreement is described, as a rule is.
#[derive(Clone, Copy)]
pub struct Description {
    /// Its name, which stays.
    pub name: &'static str,
    /// How strongly it is asked for.
    pub level: Level,
    /// Where it is stated.
    pub section: &'static str,
    /// What is wanted, for people.
    pub wanted: &'static str,
}

const DIFF_IDS_COUNT: Description = Description {
    name: "image-diff-ids-count",
    level: Level::Host,
    section: "image config.md#properties",
    wanted: "a DiffID for each layer of the manifest",
};

const DIFF_ID: Description = Description {
    name: "image-diff-id",
    level: Level::Stated,
    section: "image config.md#layer-diffid",
    wanted: "the digest of the layer at this place, which is not compressed",
};

const HISTORY_COUNT: Description = Description {
    name: "image-history-count",
    level: Level::Stated,
    section: "image config.md#properties",
    wanted: "an entry for each layer, beside those of no layer",
};

const PLATFORM_OS: Description = Description {
    name: "image-platform-os",
    level: Level::Host,
    section: "image image-index.md#image-index-property-descriptions",
    wanted: "the operating system that the descriptor is for",
};

const PLATFORM_ARCHITECTURE: Description = Description {
    name: "image-platform-architecture",
    level: Level::Host,
    section: "image image-index.md#image-index-property-descriptions",
    wanted: "the processor that the descriptor is for",
};

const PLATFORM_VARIANT: Description = Description {
    name: "image-platform-variant",
    level: Level::Host,
    section: "image image-index.md#platform-variants",
    wanted: "the variant of the processor that the descriptor is for",
};

const PLATFORM_OS_VERSION: Description = Description {
    name: "image-platform-os-version",
    level: Level::Host,
    section: "image image-index.md#image-index-property-descriptions",
    wanted: "the version of the operating system that the descriptor is for",
};

const PLATFORM_OS_FEATURES: Description = Description {
    name: "image-platform-os-features",
    level: Level::Host,
    section: "image image-index.md#image-index-property-descriptions",
    wanted: "the features of the operating system that the descriptor is for",
};

const ARTIFACT_TYPE: Description = Description {
    name: "descriptor-artifact-type-same",
    level: Level::Stated,
    section: "image descriptor.md#properties",
    wanted: "the type of artifact that the descriptor says",
};

const ANNOTATION_COPIES: Description = Description {
    name: "annotation-copies-same",
    level: Level::Host,
    section: "image conversion.md#annotations",
    wanted: "the value that the labels or the descriptor have under this key",
};

const TYPES_MIXED: Description = Description {
    name: "image-types-mixed",
    level: Level::Host,
    section: "image media-types.md#compatibility-matrix",
    wanted: "the configuration of Docker's format, as the manifest is",
};

impl Agreement {
    /// Its name, its level, and where it is stated.
    pub fn description(self) -> Description
        ensures { description_of result ≡ described self }
    {
        match self {
            Agreement::DiffIdsCount => DIFF_IDS_COUNT,
            Agreement::DiffId => DIFF_ID,
            Agreement::HistoryCount => HISTORY_COUNT,
            Agreement::PlatformOs => PLATFORM_OS,
            Agreement::PlatformArchitecture => PLATFORM_ARCHITECTURE,
            Agreement::PlatformVariant => PLATFORM_VARIANT,
            Agreement::PlatformOsVersion => PLATFORM_OS_VERSION,
            Agreement::PlatformOsFeatures => PLATFORM_OS_FEATURES,
            Agreement::ArtifactType => ARTIFACT_TYPE,
            Agreement::AnnotationCopies => ANNOTATION_COPIES,
            Agreement::TypesMixed => TYPES_MIXED,
        }
    }
}
