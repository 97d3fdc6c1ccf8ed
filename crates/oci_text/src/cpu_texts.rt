//! CPU lists as members of records.
use crate::cpu_list::is_cpu_list;
use oci_base::Result;
use oci_model::OciKind;
use oci_model::fault::refused;
use oci_model::parts::into_text;
use serde_json::Value;
use std::alloc::Global;

/// A CPU list as a string. Only CPU lists are read and written; code may set any text, and a document with a text that is no
/// CPU list is not serializable.
pub struct CpuTexts;

impl OciKind<String> for CpuTexts {
    ghost use Rattle.oci_model.specs.Shape.{cpu_text};
    ghost use Rattle.oci_model.specs.Types.{text_plain};

    ghost shape = { cpu_text };

    ghost plain = { text_plain };

    #[tactic(auto, using(crate::proofs::CpuMembers::no_text, crate::proofs::CpuMembers::no_list))]
    fn read(_alloc: Global, value: Value) -> Result<String> {
        match into_text(value) {
            Some(text) => {
                if is_cpu_list(text.as_str()) {
                    Ok(text)
                } else {
                    Err(refused("", ""))
                }
            }
            None => Err(refused("", "")),
        }
    }

    fn write(x: &String, alloc: Global) -> Result<Value> {
        if is_cpu_list(x.as_str()) {
            Ok(Value::String(String::from_str(alloc, x.as_str())?))
        } else {
            Err(refused("", ""))
        }
    }

    fn copy(x: &String, alloc: Global) -> Result<String> {
        Ok(String::from_str(alloc, x.as_str())?)
    }
}
