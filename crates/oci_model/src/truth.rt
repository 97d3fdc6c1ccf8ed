//! Booleans as members.
use crate::fault::refused;
use crate::record::OciMember;
use oci_base::Result;
use serde_json::Value;
use std::alloc::Global;

impl OciMember for bool {
    ghost use Rattle.oci_model.specs.Shape.{truth};
    ghost use Rattle.oci_model.specs.Types.{truth_plain};
    ghost use Rattle.oci_model.specs.Same.{same_truths};

    ghost shape = { truth };

    ghost plain = { truth_plain };

    #[tactic(auto, using(crate::proofs::Readers::not_truth))]
    fn read(_alloc: Global, value: Value) -> Result<bool> {
        match value.as_bool() {
            Some(x) => Ok(x),
            None => Err(refused("", "")),
        }
    }

    fn write(&self, _alloc: Global) -> Result<Value> {
        Ok(Value::Bool(*self))
    }

    fn copy(&self, _alloc: Global) -> Result<bool> {
        Ok(*self)
    }

    ghost well_formed = { tt };

    ghost same = { same_truths };
}
