//! Texts as members.
use crate::fault::refused;
use crate::parts::into_text;
use crate::record::OciMember;
use oci_base::Result;
use serde_json::Value;
use std::alloc::Global;

impl OciMember for String {
    ghost use Rattle.oci_model.specs.Shape.{text};
    ghost use Rattle.oci_model.specs.Types.{text_plain};
    ghost use Rattle.oci_model.specs.Same.{same_texts};

    ghost shape = { text };

    ghost plain = { text_plain };

    #[tactic(auto, using(crate::proofs::Readers::not_text))]
    fn read(_alloc: Global, value: Value) -> Result<String> {
        match into_text(value) {
            Some(text) => Ok(text),
            None => Err(refused("", "")),
        }
    }

    fn write(&self, alloc: Global) -> Result<Value> {
        Ok(Value::String(String::from_str(alloc, self.as_str())?))
    }

    fn copy(&self, alloc: Global) -> Result<String> {
        Ok(String::from_str(alloc, self.as_str())?)
    }

    ghost well_formed = { tt };

    ghost same = { same_texts };
}
