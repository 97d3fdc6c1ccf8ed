//! The images of a layout: what the documents of each agree on, and what its layers unpack to.
ghost use Rattle.std.specs.Prelude.{◌≡◌, ◌↔◌, ◌<◌, false, length, codes, Some, option_map, option_and_then, IfOk, IsTrue};
ghost use Rattle.std.specs.List.{All};
ghost use Rattle.serde_json.specs.Find.{as_array, get};
ghost use Rattle.serde_json.specs.View.{items_view, view};
ghost use Rattle.oci_verify.specs.Images as images;
ghost use Rattle.oci_agreement.specs.Images.{image_of};
ghost use Rattle.oci_verify.specs.Images.{AllKeep, BytesKeep, ClaimKeeps, ImagesKeep, IsFine, Keeps, KeepsFrom, KeepsWith, OverContents};

use crate::disagreements::{Texts, none_counts, report_broken};
use crate::documents::{Document, Documents, value_in};
use crate::layers::Layers;
use crate::options::Options;
use crate::output::Output;
use crate::program::are_both;
use oci_agreement::descriptors::Mention;
use oci_agreement::{Image, broken_agreements};
use oci_base::Result;
use oci_findings::Check;
use oci_layout::{Claim, ImageLayout, Kind, Store, Walk};
use serde_json::Value;
use std::io::Write;

/// Reports on what the documents of an image do not agree, and which of its layers do not unpack to what its configuration says, for each
/// image manifest in `index.json`, of which these are the bytes, and in each index that a walk reached; and returns whether they agree on
/// all that counts, and all unpack. A layer of several images is read for each. A quick look asks nothing of them. Fails if nothing can
/// be written, if a layer cannot be read once more, or if out of memory.
pub fn images_agree<L: ImageLayout, W: Write, E: Write>(
    layout: &L,
    options: &Options<'_>,
    index: &[u8],
    walk: &Walk,
    buffer: &mut [u8],
    output: &mut Output<'_, W, E>,
) -> Result<bool>
    requires { 0 < length buffer.old }
    ensures { IfOk result (λ agree. options.now.quick ≡ false → OverContents (L.steady layout.now) (L.contents layout.now)
        (λ contents. IsTrue agree ↔ ImagesKeep options.now.check options.now.limit contents index.now walk.now.claims.items)) }
{
    if options.quick {
        return Ok(true);
    }
    let images = Images {
        documents: Documents {
            store: layout,
            limit: options.limit,
            alloc: output.alloc,
        },
        asked: &options.check,
        walk,
    };
    let first = images.bytes_agree(index, buffer, output)?;
    let others = images.claims_agree(buffer, output)?;
    Ok(are_both(first, others))
}

/// The images of a layout, over the documents of its store.
struct Images<'a, S> {
    documents: Documents<'a, S>,
    // what is asked of documents, and whether warnings count
    asked: &'a Check<'a>,
    walk: &'a Walk,
}

impl<'a, S> Drop for Images<'a, S> {
    fn drop(self) {
        let Images {
            documents,
            asked,
            walk,
        } = self;
    }
}

impl<'a, S: Store> Images<'a, S> {
    /// Whether all images of the index in these bytes agree.
    fn bytes_agree<W: Write, E: Write>(
        &self,
        index: &[u8],
        buffer: &mut [u8],
        output: &mut Output<'_, W, E>,
    ) -> Result<bool>
        requires { 0 < length buffer.old }
        ensures { IfOk result (λ agree. OverContents (S.steady self.now.documents.store.now) (S.contents self.now.documents.store.now)
            (λ contents. IsTrue agree ↔ BytesKeep self.now.asked.now self.now.documents.limit contents index.now)) }
    {
        match value_in(index, self.documents.alloc)? {
            Some(index) => self.index_agrees(&index, buffer, output),
            None => Ok(true),
        }
    }

    /// Whether all images of the indexes that the walk reached agree.
    fn claims_agree<W: Write, E: Write>(
        &self,
        buffer: &mut [u8],
        output: &mut Output<'_, W, E>,
    ) -> Result<bool>
        requires { 0 < length buffer.old }
        ensures { IfOk result (λ agree. OverContents (S.steady self.now.documents.store.now) (S.contents self.now.documents.store.now)
            (λ contents. IsTrue agree ↔ All (ClaimKeeps self.now.asked.now self.now.documents.limit contents) self.now.walk.now.claims.items)) }
    {
        let mut agree = true;
        'each: for claim in &self.walk.claims {
            let of_claim = self.claim_agrees(claim, buffer, output)?;
            agree = are_both(agree, of_claim);
        }
        Ok(agree)
    }

    /// The same of one claim, if it is that of an index.
    fn claim_agrees<W: Write, E: Write>(
        &self,
        claim: &Claim,
        buffer: &mut [u8],
        output: &mut Output<'_, W, E>,
    ) -> Result<bool>
        requires { 0 < length buffer.old }
        ensures { IfOk result (λ agree. OverContents (S.steady self.now.documents.store.now) (S.contents self.now.documents.store.now)
            (λ contents. IsTrue agree ↔ ClaimKeeps self.now.asked.now self.now.documents.limit contents claim.now)) }
    {
        if !is_index(claim.kind) {
            return Ok(true);
        }
        match self
            .documents
            .of_content(claim.digest.as_ref(), claim.size, buffer)?
        {
            Some(index) => self.index_agrees(&index.value, buffer, output),
            None => Ok(true),
        }
    }

    /// Whether all images of an index agree.
    fn index_agrees<W: Write, E: Write>(
        &self,
        index: &Value,
        buffer: &mut [u8],
        output: &mut Output<'_, W, E>,
    ) -> Result<bool>
        requires { 0 < length buffer.old }
        ensures { IfOk result (λ agree. OverContents (S.steady self.now.documents.store.now) (S.contents self.now.documents.store.now)
            (λ contents. IsTrue agree ↔ AllKeep self.now.asked.now self.now.documents.limit contents (view index.now))) }
    {
        match manifests_in(index) {
            Some(manifests) => self.manifests_agree(manifests, buffer, output),
            None => Ok(true),
        }
    }

    fn manifests_agree<W: Write, E: Write>(
        &self,
        manifests: &Vec<Value>,
        buffer: &mut [u8],
        output: &mut Output<'_, W, E>,
    ) -> Result<bool>
        requires { 0 < length buffer.old }
        ensures { IfOk result (λ agree. OverContents (S.steady self.now.documents.store.now) (S.contents self.now.documents.store.now)
            (λ contents. IsTrue agree ↔ All (λ v. KeepsFrom self.now.asked.now self.now.documents.limit contents (view v)) manifests.now.items)) }
    {
        let mut agree = true;
        'each: for descriptor in manifests {
            let of_image = self.descriptor_agrees(descriptor, buffer, output)?;
            agree = are_both(agree, of_image);
        }
        Ok(agree)
    }

    /// Whether the image to which a descriptor leads agrees, if it leads to one.
    fn descriptor_agrees<W: Write, E: Write>(
        &self,
        descriptor: &Value,
        buffer: &mut [u8],
        output: &mut Output<'_, W, E>,
    ) -> Result<bool>
        requires { 0 < length buffer.old }
        ensures { IfOk result (λ agree. OverContents (S.steady self.now.documents.store.now) (S.contents self.now.documents.store.now)
            (λ contents. IsTrue agree ↔ KeepsFrom self.now.asked.now self.now.documents.limit contents (view descriptor.now))) }
    {
        if !is_image(descriptor) {
            return Ok(true);
        }
        match self.documents.of_descriptor(Some(descriptor), buffer)? {
            Some(manifest) => self.manifest_agrees(descriptor, &manifest, buffer, output),
            None => Ok(true),
        }
    }

    /// The same of an image with this manifest.
    fn manifest_agrees<W: Write, E: Write>(
        &self,
        descriptor: &Value,
        manifest: &Document,
        buffer: &mut [u8],
        output: &mut Output<'_, W, E>,
    ) -> Result<bool>
        requires { 0 < length buffer.old }
        ensures { IfOk result (λ agree. OverContents (S.steady self.now.documents.store.now) (S.contents self.now.documents.store.now)
            (λ contents. IsTrue agree ↔ KeepsWith self.now.asked.now self.now.documents.limit contents (view descriptor.now) (view manifest.now.value))) }
    {
        let config = self
            .documents
            .of_descriptor(manifest.value.get("config"), buffer)?;
        let texts = Texts {
            manifest,
            config: &config,
            walk: self.walk,
        };
        self.image_agrees(descriptor, &texts, buffer, output)
    }

    /// The same of an image with this manifest and this configuration, if it has one.
    fn image_agrees<W: Write, E: Write>(
        &self,
        descriptor: &Value,
        texts: &Texts<'_>,
        buffer: &mut [u8],
        output: &mut Output<'_, W, E>,
    ) -> Result<bool>
        requires { 0 < length buffer.old }
        ensures { IfOk result (λ fine. OverContents (S.steady self.now.documents.store.now) (S.contents self.now.documents.store.now)
            (λ contents. IsTrue fine ↔ IsFine self.now.asked.now contents
            (record { descriptor = Some (view descriptor.now); manifest = view texts.now.manifest.now.value; config = option_map (λ d. view d.value) texts.now.config.now }))) }
    {
        let image = Image {
            descriptor: Some(descriptor),
            manifest: &texts.manifest.value,
            config: value_of(texts.config),
        };
        let agree = self.documents_agree(&image, texts, output)?;
        let layers = Layers {
            documents: &self.documents,
            asked: self.asked,
            texts: *texts,
        };
        let unpack = layers.unpack(&image, buffer, output)?;
        Ok(are_both(agree, unpack))
    }

    /// Whether the documents of an image agree.
    fn documents_agree<W: Write, E: Write>(
        &self,
        image: &Image<'_>,
        texts: &Texts<'_>,
        output: &mut Output<'_, W, E>,
    ) -> Result<bool>
        ensures { IfOk result (λ agree. IsTrue agree ↔ Keeps self.now.asked.now (image_of image.now)) }
    {
        let broken = broken_agreements(image, self.documents.alloc)?;
        report_broken(&broken, texts, self.asked, output)?;
        Ok(none_counts(&broken, self.asked))
    }
}

fn value_of(document: &Option<Document>) -> Option<&Value>
    ensures { option_map (λ v. view v.now) result ≡ option_map (λ d. view d.value) document.now }
{
    match document {
        Some(document) => Some(&document.value),
        None => None,
    }
}

/// The descriptors in an index, if it has any.
fn manifests_in(index: &Value) -> Option<&Vec<Value>>
    ensures { option_map (λ v. items_view v.now.items) result ≡ option_and_then as_array (get (codes "manifests") (view index.now)) }
{
    match index.get("manifests") {
        Some(manifests) => manifests.as_array(),
        None => None,
    }
}

/// Whether a descriptor says all that descriptors say, and that of an image manifest.
fn is_image(descriptor: &Value) -> bool
    ensures { result ≡ images.is_image (view descriptor.now) }
{
    match Mention::of(descriptor) {
        Some(said) => is_manifest(Kind::of_media_type(said.media_type)),
        None => false,
    }
}

fn is_index(kind: Kind) -> bool
    ensures { result ≡ images.is_index kind }
{
    match kind {
        Kind::Index | Kind::DockerList => true,
        _ => false,
    }
}

fn is_manifest(kind: Kind) -> bool
    ensures { result ≡ images.is_manifest kind }
{
    match kind {
        Kind::Manifest | Kind::DockerManifest => true,
        _ => false,
    }
}
