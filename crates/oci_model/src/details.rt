//! Any values, kept as their compact texts (distribution specification, "Error Codes": `detail` is unstructured data).
use crate::OciKind;
use crate::fault::refused;
use crate::other_numbers::has_other_numbers;
use oci_base::{OciSpecError, Result};
use serde_json::Value;
use std::alloc::Global;

/// Any value but null whose numbers are 64-bit integers. It is kept as its compact text, and written as the value that the text
/// parses to: a text that is no JSON, or that has other numbers, is not serializable.
pub struct Detail;

impl OciKind<String> for Detail {
    ghost use Rattle.oci_model.specs.Shape.{detail};
    ghost use Rattle.oci_model.specs.Types.{text_plain};

    ghost shape = { detail };

    ghost plain = { text_plain };

    #[tactic(auto, using(crate::proofs::RefusedDetails::of_null, crate::proofs::RefusedDetails::of_other_numbers))]
    fn read(alloc: Global, value: Value) -> Result<String> {
        if value.is_null() || has_other_numbers(&value) {
            return Err(refused("", ""));
        }
        Ok(value.to_string(alloc)?)
    }

    fn write(x: &String, alloc: Global) -> Result<Value> {
        match Value::from_str(alloc, x.as_str()) {
            Ok(value) => {
                if has_other_numbers(&value) {
                    Err(refused("", ""))
                } else {
                    Ok(value)
                }
            }
            Err(fault) => {
                if fault.is_memory() {
                    Err(OciSpecError::Memory)
                } else {
                    Err(refused("", ""))
                }
            }
        }
    }

    fn copy(x: &String, alloc: Global) -> Result<String> {
        Ok(String::from_str(alloc, x.as_str())?)
    }
}
