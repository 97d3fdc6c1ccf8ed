//! The compressed layers of an image: whether each unpacks to what the configuration says.
ghost use Rattle.std.specs.Prelude.{◌≡◌, ◌↔◌, ◌<◌, ℕ, None, Some, length, option_map, slice_get, IfOk, IfSome, IsTrue};
ghost use Rattle.serde_json.specs.Find.{as_str};
ghost use Rattle.serde_json.specs.View.{items_view, view};
ghost use Rattle.deflate.specs.Bits.{AreBelow};
ghost use Rattle.oci_agreement.specs.Agree.{EachPair};
ghost use Rattle.oci_agreement.specs.Descriptors.{mention_of};
ghost use Rattle.oci_agreement.specs.Images.{image_of};
ghost use Rattle.oci_content.specs.Content.{IsBy};
ghost use Rattle.oci_content.specs.declared.algorithm.Algorithm.{Algorithm as TheAlgorithm};
ghost use Rattle.oci_layers.specs.Encodings.{encoding_of};
ghost use Rattle.oci_layers.specs.declared.encoding.Encoding.TheVariants as encoding;
ghost use Rattle.oci_verify.specs.Images.{OverContents};
ghost use Rattle.oci_verify.specs.Layers.{ContentUnpacks, IsSumOf, IsWrong, LayerUnpacks, LayersUnpack, MayBe, PlaceUnpacks};

use crate::disagreements::Texts;
use crate::documents::Documents;
use crate::layer_findings::{report_no_gzip, report_other_id, unread};
use crate::output::Output;
use crate::program::are_both;
use gzip::GzipError;
use oci_agreement::descriptors::Mention;
use oci_agreement::{Image, is_filesystem_image};
use oci_base::Result;
use oci_content::{Algorithm, Checksum};
use oci_findings::Check;
use oci_layers::{Encoding, LayerError, diff_id};
use oci_layout::{Opened, Store};
use oci_text::Digest;
use serde_json::Value;
use std::io::Write;

/// The layers of an image, and what is asked of them.
pub struct Layers<'a, S> {
    /// The contents of the layout.
    pub documents: &'a Documents<'a, S>,
    /// What is asked, by names.
    pub asked: &'a Check<'a>,
    /// The documents of the image.
    pub texts: Texts<'a>,
}

impl<'a, S> Drop for Layers<'a, S> {
    fn drop(self) {
        let Layers {
            documents,
            asked,
            texts,
        } = self;
    }
}

/// A layer in gzip's format.
#[derive(Clone, Copy)]
pub struct Layer<'l> {
    /// Its place among the layers.
    pub place: usize,
    /// What its descriptor says.
    pub said: Mention<'l>,
    /// The DiffID at its place.
    pub id: &'l Value,
}

/// What is wrong with the bytes of a layer.
#[derive(Drop)]
pub enum Wrong {
    /// They are no gzip file.
    NotGzip(GzipError),
    /// The archive in them has this checksum, and another DiffID.
    OtherId(Checksum),
    /// They could not be read to their end.
    Unread(LayerError),
}

impl<'a, S: Store> Layers<'a, S> {
    /// Whether each layer in gzip's format unpacks to what the DiffID at its place says, where its content is there; of an image of a
    /// filesystem alone. What does not, and is asked by its name, is reported. Fails if nothing can be written, if a content cannot be
    /// read that could be read before, or if out of memory.
    pub fn unpack<W: Write, E: Write>(
        &self,
        image: &Image<'_>,
        buffer: &mut [u8],
        output: &mut Output<'_, W, E>,
    ) -> Result<bool>
        requires { 0 < length buffer.old }
        ensures { IfOk result (λ so. OverContents (S.steady self.now.documents.now.store.now) (S.contents self.now.documents.now.store.now)
            (λ contents. IsTrue so ↔ LayersUnpack self.now.asked.now contents (image_of image.now))) }
    {
        if !is_filesystem_image(image) {
            return Ok(true);
        }
        match image.layers() {
            Some(layers) => match image.diff_ids() {
                Some(ids) => self.all_unpack(layers, ids, buffer, output),
                None => Ok(true),
            },
            None => Ok(true),
        }
    }

    /// The same of these layers with these DiffIDs.
    fn all_unpack<W: Write, E: Write>(
        &self,
        layers: &Vec<Value>,
        ids: &Vec<Value>,
        buffer: &mut [u8],
        output: &mut Output<'_, W, E>,
    ) -> Result<bool>
        requires { 0 < length buffer.old }
        ensures { IfOk result (λ so. OverContents (S.steady self.now.documents.now.store.now) (S.contents self.now.documents.now.store.now)
            (λ contents. IsTrue so ↔ EachPair (LayerUnpacks self.now.asked.now contents) (items_view layers.now.items) (items_view ids.now.items))) }
    {
        let mut all = true;
        'each: for place in 0..layers.len() {
            let here = self.place_unpacks(layers, ids, place, buffer, output)?;
            all = are_both(all, here);
        }
        Ok(all)
    }

    /// The same of the layer at a place, if it has a DiffID.
    fn place_unpacks<W: Write, E: Write>(
        &self,
        layers: &Vec<Value>,
        ids: &Vec<Value>,
        place: usize,
        buffer: &mut [u8],
        output: &mut Output<'_, W, E>,
    ) -> Result<bool>
        requires { 0 < length buffer.old }
        ensures { IfOk result (λ so. OverContents (S.steady self.now.documents.now.store.now) (S.contents self.now.documents.now.store.now)
            (λ contents. IsTrue so ↔ PlaceUnpacks self.now.asked.now contents layers.now.items ids.now.items place)) }
    {
        match value_at(layers, place) {
            Some(layer) => match value_at(ids, place) {
                Some(id) => self.layer_unpacks(layer, id, place, buffer, output),
                None => Ok(true),
            },
            None => Ok(true),
        }
    }

    /// The same of a layer with this DiffID.
    fn layer_unpacks<W: Write, E: Write>(
        &self,
        layer: &Value,
        id: &Value,
        place: usize,
        buffer: &mut [u8],
        output: &mut Output<'_, W, E>,
    ) -> Result<bool>
        requires { 0 < length buffer.old }
        ensures { IfOk result (λ so. OverContents (S.steady self.now.documents.now.store.now) (S.contents self.now.documents.now.store.now)
            (λ contents. IsTrue so ↔ LayerUnpacks self.now.asked.now contents (view layer.now) (view id.now))) }
    {
        match Mention::of(layer) {
            Some(said) => {
                if is_gzip_type(said.media_type) {
                    let layer = Layer { place, said, id };
                    self.content_unpacks(&layer, buffer, output)
                } else {
                    Ok(true)
                }
            }
            None => Ok(true),
        }
    }

    /// The same of the content that a layer's descriptor says, if it is there.
    fn content_unpacks<W: Write, E: Write>(
        &self,
        layer: &Layer<'_>,
        buffer: &mut [u8],
        output: &mut Output<'_, W, E>,
    ) -> Result<bool>
        requires { 0 < length buffer.old }
        ensures { IfOk result (λ so. OverContents (S.steady self.now.documents.now.store.now) (S.contents self.now.documents.now.store.now)
            (λ contents. IsTrue so ↔ ContentUnpacks self.now.asked.now contents (mention_of layer.now.said) (view layer.now.id.now))) }
    {
        match self.wrong_in(layer)? {
            Some(wrong) => {
                let (digest, size) = (layer.said.digest, layer.said.size);
                if self.documents.is_kept(digest, size, buffer)? {
                    self.may_be(layer, wrong, output)
                } else {
                    Ok(true)
                }
            }
            None => Ok(true),
        }
    }

    /// What is wrong with the content of a layer, whatever its size and its digest are.
    fn wrong_in(&self, layer: &Layer<'_>) -> Result<Option<Wrong>>
        ensures { IfOk result (λ o. OverContents (S.steady self.now.documents.now.store.now) (S.contents self.now.documents.now.store.now)
            (λ contents. IfSome (contents layer.now.said.digest.now) (λ bytes. IsWrong bytes (view layer.now.id.now) o))) }
    {
        let alloc = self.documents.alloc;
        let key = Digest::from_str(alloc, layer.said.digest)?;
        match self.documents.store.open(alloc, &key)? {
            Opened::Missing => Ok(None),
            Opened::Unreadable(_) => Ok(None),
            Opened::Content(blob, _) => Ok(self.wrong_with(blob, layer.id)),
        }
    }

    /// What is wrong with the bytes of a layer that has this DiffID.
    fn wrong_with(&self, blob: S::Blob, id: &Value) -> Option<Wrong>
        ensures { IfSome (S.Blob.remaining blob) (λ bytes. AreBelow 256 bytes → IsWrong bytes (view id.now) result) }
    {
        let alloc = self.documents.alloc;
        match diff_id(alloc, Encoding::Gzip, algorithm_of(id), blob) {
            Ok(sum) => {
                if is_sum_of(id, &sum) {
                    None
                } else {
                    Some(Wrong::OtherId(sum))
                }
            }
            Err(LayerError::NotGzip(error)) => Some(Wrong::NotGzip(error)),
            Err(error) => Some(Wrong::Unread(error)),
        }
    }

    /// Reports what is wrong, if it is asked by its name, and returns whether it is not. Fails if it is that the content could not be read.
    fn may_be<W: Write, E: Write>(
        &self,
        layer: &Layer<'_>,
        wrong: Wrong,
        output: &mut Output<'_, W, E>,
    ) -> Result<bool>
        ensures { IfOk result (MayBe self.now.asked.now wrong) }
    {
        match wrong {
            Wrong::NotGzip(error) => {
                let is_asked = self.asked.asks("layer-archive");
                if is_asked {
                    report_no_gzip(layer, &error, &self.texts, output)?;
                }
                Ok(!is_asked)
            }
            Wrong::OtherId(sum) => {
                let is_asked = self.asked.asks("image-diff-id");
                if is_asked {
                    report_other_id(layer, &sum, &self.texts, output)?;
                }
                Ok(!is_asked)
            }
            Wrong::Unread(error) => Err(unread(layer, error, self.documents.alloc)),
        }
    }
}

fn value_at(values: &Vec<Value>, place: usize) -> Option<&Value>
    ensures { option_map (λ v. v.now) result ≡ slice_get values.now.items place }
{
    values.get(place)
}

/// Whether it is a media type of layers in gzip's format.
fn is_gzip_type(media_type: &str) -> bool
    ensures { IsTrue result ↔ (encoding_of media_type.now ≡ Some encoding.Gzip) }
{
    match Encoding::of_media_type(media_type) {
        Some(Encoding::Gzip) => true,
        _ => false,
    }
}

/// The algorithm that a DiffID names, or any, if it names none that is known.
fn algorithm_of(id: &Value) -> Algorithm
    ensures { IfSome (as_str (view id.now)) (λ t. (a : TheAlgorithm) → IsBy a t → a ≡ result) }
{
    match id.as_str() {
        Some(text) => match Algorithm::of_digest(text) {
            Some(algorithm) => algorithm,
            None => Algorithm::Sha256,
        },
        None => Algorithm::Sha256,
    }
}

/// Whether a checksum is that of a DiffID, where this names an algorithm that is known.
fn is_sum_of(id: &Value, sum: &Checksum) -> bool
    ensures { IsTrue result ↔ IsSumOf (view id.now) sum.now }
{
    match id.as_str() {
        Some(text) => match Algorithm::of_digest(text) {
            Some(_) => sum.is_text(text),
            None => true,
        },
        None => true,
    }
}
