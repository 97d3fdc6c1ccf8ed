//! Sets of capabilities that are in their normal form in the text.
ghost use Rattle.std.specs.Prelude.{◌≡◌, Option, Some, IsTrue};
ghost use Rattle.serde_json.specs.Data.{Data, string};
ghost use Rattle.oci_model.specs.Shape.{text as any_text, list};
ghost use Rattle.oci_json_tape.specs.Elements.{BeginsWithData, FindsData};
ghost use Rattle.oci_schema.specs.Walks.{IfDone, Writes, WritesNormal, IsNormalSet};

use crate::Scalar;
use crate::bytes::scalar::write_scalar;
use json::Element;
use oci_json_tape::{Sink, items, next_item, text};
use oci_model::JsonName;
use oci_text::capability::ALL;
use std::alloc::AllocError;

/// Whether the element is a set of capabilities in its normal form: an array of their JSON texts, in the order of the variants, each
/// once.
pub fn is_normal_set(element: &Element<'_, '_>) -> bool
    ensures { IsTrue result → (d : Data) → BeginsWithData element.now d → IsNormalSet d }
{
    let Some(mut rest) = items(element) else {
        return false;
    };
    let mut next = next_item(&mut rest);
    for capability in &ALL {
        if is_string(&next, capability.json_name()) {
            next = next_item(&mut rest);
        }
    }
    match next {
        Some(_) => false,
        None => true,
    }
}

/// Whether the item is this string.
fn is_string(item: &Option<Element<'_, '_>>, name: &str) -> bool
    ensures { IsTrue result → (o : Option Data) → FindsData item.now o → o ≡ Some (string name.now) }
{
    match item {
        Some(found) => match text(found) {
            Some(content) => content == name,
            None => false,
        },
        None => false,
    }
}

/// Writes an array of strings as it is; `false` if the element is none.
pub fn write_strings<K: Sink>(element: &Element<'_, '_>, out: &mut K) -> Result<bool, AllocError>
    ensures { IfDone result (Writes K.holds (WritesNormal (list any_text) element.now) out.old out.new) }
{
    let Some(mut rest) = items(element) else {
        return Ok(false);
    };
    out.begin_array()?;
    'each_item: while let Some(item) = next_item(&mut rest) {
        let done = write_scalar(&Scalar::String, &item, out)?;
        if !done {
            return Ok(false);
        }
    }
    out.end_array()?;
    Ok(true)
}
