//! What is found in an image whose documents do not agree.
ghost use Rattle.std.specs.Prelude.{◌≡◌, ◌↔◌, ◌++◌, [], map, option_map, codes, bytes_eq, IfOk, OnOk};
ghost use Rattle.serde_json.specs.View.{view, items_view};
ghost use Rattle.oci_rules.specs.Decided.{there_and};
ghost use Rattle.oci_rules.specs.Parts.{without};
ghost use Rattle.oci_agreement.specs.Agree.{Agree};
ghost use Rattle.oci_agreement.specs.declared.agreement.Agreement.{Agreement};
ghost use Rattle.oci_agreement.specs.declared.agreement.Agreement.TheVariants as agreement;
ghost use Rattle.oci_agreement.specs.declared.broken.Document.TheVariants as document;
ghost use Rattle.oci_agreement.specs.Copies.{expected_of, found_of};
ghost use Rattle.oci_agreement.specs.Images as images;
ghost use Rattle.oci_agreement.specs.Images.{image_of};
ghost use Rattle.oci_agreement.specs.Listed as listed;
ghost use Rattle.oci_agreement.specs.Listed.{told_of, told_by, told_each, all_told, IsToldBy};

use crate::agreement::Agreement;
use crate::annotations::{Copies, add_copies};
use crate::broken::{Broken, Document, Seat, Shown, add_unless};
use crate::compared::{add_counts, add_lists, add_texts};
use crate::image::{Image, annotations, artifact_type, config_type, variant_in};
use crate::layers::{add_diff_ids, count_filled, is_filesystem_image};
use crate::parts::{count, items_in, present, text_at, text_in};
use crate::types::{DOCKER_CONFIG, DOCKER_MANIFEST, OCI_CONFIG};
use serde_json::Value;
use std::alloc::{AllocError, Global};

/// All agreements, in the order in which they are looked at.
pub static AGREEMENTS: [Agreement; 11] = [
    Agreement::DiffIdsCount,
    Agreement::DiffId,
    Agreement::HistoryCount,
    Agreement::PlatformOs,
    Agreement::PlatformArchitecture,
    Agreement::PlatformVariant,
    Agreement::PlatformOsVersion,
    Agreement::PlatformOsFeatures,
    Agreement::ArtifactType,
    Agreement::AnnotationCopies,
    Agreement::TypesMixed,
];

/// The agreements that the documents of an image break, in order, each with the place that shows it, what is expected there and what is
/// found. Fails if out of memory.
pub fn broken_agreements<'a>(
    image: &Image<'a>,
    alloc: Global,
) -> Result<Vec<Broken<'a>>, AllocError>
    ensures all { IfOk result (λ v. map told_of v.items ≡ all_told (image_of image.now)) }
    ensures none { IfOk result (λ v. (v.items ≡ []) ↔ ((a : Agreement) → Agree a (image_of image.now))) }
    ensures listed { IfOk result (λ v. (a : Agreement) → IsToldBy (map told_of v.items) a ↔ ¬ Agree a (image_of image.now)) }
{
    let mut broken = Vec::new(alloc);
    add_all(image, &mut broken, alloc)?;
    Ok(broken)
}

fn add_all<'a>(
    image: &Image<'a>,
    broken: &mut Vec<Broken<'a>>,
    alloc: Global,
) -> Result<(), AllocError>
    ensures { OnOk result (map told_of broken.new.items ≡ map told_of broken.old.items ++ all_told (image_of image.now)) }
{
    add_each(&AGREEMENTS, image, broken, alloc)
}

fn add_each<'a>(
    agreements: &[Agreement],
    image: &Image<'a>,
    broken: &mut Vec<Broken<'a>>,
    alloc: Global,
) -> Result<(), AllocError>
    ensures { OnOk result (map told_of broken.new.items ≡ map told_of broken.old.items ++ told_each agreements.now (image_of image.now)) }
{
    for agreement in agreements {
        add_one(*agreement, image, broken, alloc)?;
    }
    Ok(())
}

/// Adds what breaks the agreement.
fn add_one<'a>(
    agreement: Agreement,
    image: &Image<'a>,
    broken: &mut Vec<Broken<'a>>,
    alloc: Global,
) -> Result<(), AllocError>
    ensures { OnOk result (map told_of broken.new.items ≡ map told_of broken.old.items ++ told_by agreement (image_of image.now)) }
{
    match agreement {
        Agreement::DiffIdsCount => add_diff_ids_count(image, broken, alloc),
        Agreement::DiffId => add_diff_id(image, broken, alloc),
        Agreement::HistoryCount => add_history_count(image, broken, alloc),
        Agreement::PlatformOs => add_os(image, broken, alloc),
        Agreement::PlatformArchitecture => add_architecture(image, broken, alloc),
        Agreement::PlatformVariant => add_variant(image, broken, alloc),
        Agreement::PlatformOsVersion => add_os_version(image, broken, alloc),
        Agreement::PlatformOsFeatures => add_os_features(image, broken, alloc),
        Agreement::ArtifactType => add_artifact_type(image, broken, alloc),
        Agreement::AnnotationCopies => add_annotation_copies(image, broken, alloc),
        Agreement::TypesMixed => add_types_mixed(image, broken, alloc),
    }
}

fn add_diff_ids_count<'a>(
    image: &Image<'a>,
    broken: &mut Vec<Broken<'a>>,
    alloc: Global,
) -> Result<(), AllocError>
    ensures { OnOk result (map told_of broken.new.items ≡ map told_of broken.old.items ++ told_by agreement.DiffIdsCount (image_of image.now)) }
{
    if !is_filesystem_image(image) {
        return Ok(());
    }
    let at = Seat {
        agreement: Agreement::DiffIdsCount,
        document: Document::Configuration,
        pointer: "/rootfs/diff_ids",
    };
    let expected = count_of(image.layers());
    let found = count_of(image.diff_ids());
    add_counts(at, expected, found, broken, alloc)
}

fn add_diff_id<'a>(
    image: &Image<'a>,
    broken: &mut Vec<Broken<'a>>,
    alloc: Global,
) -> Result<(), AllocError>
    ensures { OnOk result (map told_of broken.new.items ≡ map told_of broken.old.items ++ told_by agreement.DiffId (image_of image.now)) }
{
    if !is_filesystem_image(image) {
        return Ok(());
    }
    add_diff_ids(image.layers(), image.diff_ids(), broken, alloc)
}

fn add_history_count<'a>(
    image: &Image<'a>,
    broken: &mut Vec<Broken<'a>>,
    alloc: Global,
) -> Result<(), AllocError>
    ensures { OnOk result (map told_of broken.new.items ≡ map told_of broken.old.items ++ told_by agreement.HistoryCount (image_of image.now)) }
{
    if !is_filesystem_image(image) {
        return Ok(());
    }
    let at = Seat {
        agreement: Agreement::HistoryCount,
        document: Document::Configuration,
        pointer: "/history",
    };
    let expected = count_of(image.diff_ids());
    let found = count_filled_of(image.history());
    add_counts(at, expected, found, broken, alloc)
}

fn add_os<'a>(
    image: &Image<'a>,
    broken: &mut Vec<Broken<'a>>,
    alloc: Global,
) -> Result<(), AllocError>
    ensures { OnOk result (map told_of broken.new.items ≡ map told_of broken.old.items ++ told_by agreement.PlatformOs (image_of image.now)) }
{
    let at = Seat {
        agreement: Agreement::PlatformOs,
        document: Document::Configuration,
        pointer: "/os",
    };
    let expected = text_in(image.platform(), "os");
    let found = text_in(image.image_config(), "os");
    add_texts(at, expected, found, broken, alloc)
}

fn add_architecture<'a>(
    image: &Image<'a>,
    broken: &mut Vec<Broken<'a>>,
    alloc: Global,
) -> Result<(), AllocError>
    ensures { OnOk result (map told_of broken.new.items ≡ map told_of broken.old.items ++ told_by agreement.PlatformArchitecture (image_of image.now)) }
{
    let at = Seat {
        agreement: Agreement::PlatformArchitecture,
        document: Document::Configuration,
        pointer: "/architecture",
    };
    let expected = text_in(image.platform(), "architecture");
    let found = text_in(image.image_config(), "architecture");
    add_texts(at, expected, found, broken, alloc)
}

fn add_variant<'a>(
    image: &Image<'a>,
    broken: &mut Vec<Broken<'a>>,
    alloc: Global,
) -> Result<(), AllocError>
    ensures { OnOk result (map told_of broken.new.items ≡ map told_of broken.old.items ++ told_by agreement.PlatformVariant (image_of image.now)) }
{
    let at = Seat {
        agreement: Agreement::PlatformVariant,
        document: Document::Configuration,
        pointer: "/variant",
    };
    let expected = variant_in(image.platform());
    let found = variant_in(image.image_config());
    add_texts(at, expected, found, broken, alloc)
}

fn add_os_version<'a>(
    image: &Image<'a>,
    broken: &mut Vec<Broken<'a>>,
    alloc: Global,
) -> Result<(), AllocError>
    ensures { OnOk result (map told_of broken.new.items ≡ map told_of broken.old.items ++ told_by agreement.PlatformOsVersion (image_of image.now)) }
{
    let at = Seat {
        agreement: Agreement::PlatformOsVersion,
        document: Document::Configuration,
        pointer: "/os.version",
    };
    let expected = text_in(image.platform(), "os.version");
    let found = text_in(image.image_config(), "os.version");
    add_texts(at, expected, found, broken, alloc)
}

fn add_os_features<'a>(
    image: &Image<'a>,
    broken: &mut Vec<Broken<'a>>,
    alloc: Global,
) -> Result<(), AllocError>
    ensures { OnOk result (map told_of broken.new.items ≡ map told_of broken.old.items ++ told_by agreement.PlatformOsFeatures (image_of image.now)) }
{
    let at = Seat {
        agreement: Agreement::PlatformOsFeatures,
        document: Document::Configuration,
        pointer: "/os.features",
    };
    let expected = items_in(image.platform(), "os.features");
    let found = items_in(image.image_config(), "os.features");
    add_lists(at, expected, found, broken, alloc)
}

fn add_artifact_type<'a>(
    image: &Image<'a>,
    broken: &mut Vec<Broken<'a>>,
    alloc: Global,
) -> Result<(), AllocError>
    ensures { OnOk result (map told_of broken.new.items ≡ map told_of broken.old.items ++ told_by agreement.ArtifactType (image_of image.now)) }
{
    let at = Seat {
        agreement: Agreement::ArtifactType,
        document: Document::Manifest,
        pointer: artifact_type_at(image.manifest),
    };
    let expected = text_in(image.descriptor, "artifactType");
    let found = artifact_type(image.manifest);
    add_texts(at, expected, found, broken, alloc)
}

fn add_annotation_copies<'a>(
    image: &Image<'a>,
    broken: &mut Vec<Broken<'a>>,
    alloc: Global,
) -> Result<(), AllocError>
    ensures { OnOk result (map told_of broken.new.items ≡ map told_of broken.old.items ++ told_by agreement.AnnotationCopies (image_of image.now)) }
{
    let said = annotations(image.descriptor);
    let own = annotations(Some(image.manifest));
    let labels = image.labels();
    add_copies(manifest_copies(labels, own), broken, alloc)?;
    add_copies(manifest_copies(said, own), broken, alloc)?;
    add_copies(label_copies(said, labels), broken, alloc)
}

fn add_types_mixed<'a>(
    image: &Image<'a>,
    broken: &mut Vec<Broken<'a>>,
    alloc: Global,
) -> Result<(), AllocError>
    ensures { OnOk result (map told_of broken.new.items ≡ map told_of broken.old.items ++ told_by agreement.TypesMixed (image_of image.now)) }
{
    let at = Seat {
        agreement: Agreement::TypesMixed,
        document: Document::Manifest,
        pointer: "/config/mediaType",
    };
    let shown = (Shown::Text(DOCKER_CONFIG), Shown::Text(OCI_CONFIG));
    add_unless(!is_mixed(image.manifest), at, shown, broken, alloc)
}

fn count_of(items: Option<&Vec<Value>>) -> Option<usize>
    ensures { result ≡ images.count_of (option_map (λ v. items_view v.now.items) items.entry) }
{
    match items {
        Some(items) => Some(count(items)),
        None => None,
    }
}

fn count_filled_of(history: Option<&Vec<Value>>) -> Option<usize>
    ensures { result ≡ option_map (without (codes "empty_layer")) (option_map (λ v. items_view v.now.items) history.entry) }
{
    match history {
        Some(history) => Some(count_filled(history)),
        None => None,
    }
}

/// Where a manifest has the type of the artifact.
fn artifact_type_at(manifest: &Value) -> &'static str
    ensures { result.now ≡ listed.artifact_type_at (view manifest.now) }
{
    if present(manifest, "artifactType").is_some() {
        "/artifactType"
    } else {
        "/config/mediaType"
    }
}

/// Whether a manifest of Docker's format has the configuration of OCI's.
fn is_mixed(manifest: &Value) -> bool
    ensures { result ≡ listed.is_mixed (view manifest.now) }
{
    is_text(text_at(manifest, "mediaType"), DOCKER_MANIFEST)
        && is_text(config_type(manifest), OCI_CONFIG)
}

fn is_text(text: Option<&str>, wanted: &str) -> bool
    ensures { result ≡ there_and (bytes_eq wanted.now) (option_map (λ t. t.now) text.entry) }
{
    match text {
        Some(text) => wanted == text,
        None => false,
    }
}

/// What is expected of the manifest's annotations.
fn manifest_copies<'a>(expected: Option<&'a Value>, found: Option<&'a Value>) -> Copies<'a, 'static>
    ensures document { result.document ≡ document.Manifest }
    ensures pointer { result.pointer.now ≡ codes "/annotations" }
    ensures expected { expected_of result ≡ option_map (λ v. view v.now) expected.entry }
    ensures found { found_of result ≡ option_map (λ v. view v.now) found.entry }
{
    Copies {
        expected,
        found,
        document: Document::Manifest,
        pointer: "/annotations",
    }
}

/// What is expected of the configuration's labels.
fn label_copies<'a>(expected: Option<&'a Value>, found: Option<&'a Value>) -> Copies<'a, 'static>
    ensures document { result.document ≡ document.Configuration }
    ensures pointer { result.pointer.now ≡ codes "/config/Labels" }
    ensures expected { expected_of result ≡ option_map (λ v. view v.now) expected.entry }
    ensures found { found_of result ≡ option_map (λ v. view v.now) found.entry }
{
    Copies {
        expected,
        found,
        document: Document::Configuration,
        pointer: "/config/Labels",
    }
}
