//! Enums as members: one way of reading and writing them for every enum.
ghost use Rattle.std.specs.Prelude.{◌≡◌, IfOk, IfErr};
ghost use Rattle.serde_json.specs.Data.{string};
ghost use Rattle.serde_json.specs.View.{view};
ghost use Rattle.oci_model.specs.Means.{Means};
ghost use Rattle.oci_model.specs.Plain as plain_tree;
ghost use Rattle.oci_model.specs.Refused.{IsRefused};
ghost use Rattle.oci_model.specs.Shape as shapes;
ghost use Rattle.oci_base.specs.Refused.{IsSchema, IsMemoryOrSchema};
ghost use Rattle.oci_model.specs.ClosedNames.{IsItself, IsSpelledAsItself};

use crate::fault::refused;
use crate::json_name::JsonName;
use oci_base::Result;
use serde_json::Value;
use std::alloc::Global;

/// The value whose JSON text this is; `SerDe(Schema)` where it is no text, or none of the table.
#[tactic(auto, using(crate::proofs::ClosedMembers::named_means, crate::proofs::ClosedMembers::no_closed_name))]
pub fn read_name<T: JsonName>(value: &Value) -> Result<T>
    requires { IsItself T.Spells }
    ensures ok { IfOk result (λ x. Means (shapes.named T.table) (view value.now) (plain_tree.variant (T.name x))) }
    ensures err { IfErr result (λ e. IsSchema e → IsRefused (shapes.named T.table) (view value.now)) }
    ensures kind { IfErr result IsMemoryOrSchema }
{
    match value.as_str() {
        Some(text) => match T::from_json_name(text) {
            Some(x) => Ok(x),
            None => Err(refused("", "")),
        },
        None => Err(refused("", "")),
    }
}

/// The JSON text of a value.
pub fn write_name<T: JsonName>(x: &T, alloc: Global) -> Result<Value>
    requires { IsSpelledAsItself T.spelling }
    ensures ok { IfOk result (λ v. view v ≡ string (T.name x.now)) }
    ensures err { IfErr result (λ e. ¬ IsSchema e) }
    ensures kind { IfErr result IsMemoryOrSchema }
{
    Ok(Value::String(String::from_str(alloc, x.json_name())?))
}
