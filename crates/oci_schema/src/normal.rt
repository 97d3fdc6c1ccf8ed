//! The normal form of a scalar.
ghost use Rattle.std.specs.Prelude.{◌≡◌, true, false, IfOk, IfErr, IfSome, option_map};
ghost use Rattle.serde_json.specs.Data.{number};
ghost use Rattle.serde_json.specs.Find.{of_integer};
ghost use Rattle.serde_json.specs.View.{view};
ghost use Rattle.oci_base.specs.Refused.{IsSchema, IsMemoryOrSchema};
ghost use Rattle.oci_text.specs.Capability.{capability_table};
ghost use Rattle.oci_model.specs.Shape.{cap_set, key_set, detail};
ghost use Rattle.oci_model.specs.Means.{as_whole};
ghost use Rattle.oci_schema.specs.Normalized.{accepts, normalized, unless_no_items as without_empty};
ghost use Rattle.oci_schema.specs.Shapes.{scalar_shape};

use crate::Scalar;
use crate::kept::has_no_items;
use crate::scalar::scalar_allows;
use oci_base::Result;
use oci_model::fault::refused;
use oci_model::{Detail, Keys, OciKind};
use oci_text::Caps;
use serde_json::Value;
use std::alloc::Global;

/// The normal form of a scalar; `SerDe(Schema)` if the schema rejects the value, or if a detail nests deeper than a JSON text may.
pub fn normal_scalar(scalar: &Scalar, value: Value, alloc: Global) -> Result<Value>
    ensures ok { IfOk result (λ v. (accepts (scalar_shape scalar.now) (view value) ≡ true) × (view v ≡ normalized (scalar_shape scalar.now) (view value))) }
    ensures err { IfErr result (λ e. IsSchema e → accepts (scalar_shape scalar.now) (view value) ≡ false) }
    ensures kind { IfErr result IsMemoryOrSchema }
{
    match scalar {
        Scalar::Capabilities => normal_capabilities(value, alloc),
        Scalar::Keys => normal_keys(value, alloc),
        Scalar::Detail => normal_detail(value, alloc),
        Scalar::Integer(_, _) => {
            if scalar_allows(scalar, &value) {
                Ok(normal_number(value))
            } else {
                Err(refused("", ""))
            }
        }
        Scalar::String
        | Scalar::Boolean
        | Scalar::Enum(_)
        | Scalar::MediaType
        | Scalar::Os
        | Scalar::Arch
        | Scalar::Digest
        | Scalar::CpuList
        | Scalar::FreeValues => {
            if scalar_allows(scalar, &value) {
                Ok(value)
            } else {
                Err(refused("", ""))
            }
        }
    }
}

/// An integer as it is written.
fn normal_number(value: Value) -> Value
    ensures { IfSome (as_whole (view value)) (λ z. view result ≡ number (of_integer z)) }
{
    if value.is_u64() {
        return value;
    }
    match value.as_i64() {
        Some(whole) => Value::from(whole),
        None => value,
    }
}

fn normal_capabilities(value: Value, alloc: Global) -> Result<Value>
    ensures ok { IfOk result (λ v. (accepts (cap_set capability_table) (view value) ≡ true) × (view v ≡ normalized (cap_set capability_table) (view value))) }
    ensures err { IfErr result (λ e. IsSchema e → accepts (cap_set capability_table) (view value) ≡ false) }
    ensures kind { IfErr result IsMemoryOrSchema }
{
    let set = Caps::read(alloc, value)?;
    Caps::write(&set, alloc)
}

fn normal_keys(value: Value, alloc: Global) -> Result<Value>
    ensures ok { IfOk result (λ v. (accepts key_set (view value) ≡ true) × (view v ≡ normalized key_set (view value))) }
    ensures err { IfErr result (λ e. IsSchema e → accepts key_set (view value) ≡ false) }
    ensures kind { IfErr result IsMemoryOrSchema }
{
    let names = Keys::read(alloc, value)?;
    Keys::write(&names, alloc)
}

fn normal_detail(value: Value, alloc: Global) -> Result<Value>
    ensures ok { IfOk result (λ v. (accepts detail (view value) ≡ true) × (view v ≡ normalized detail (view value))) }
    ensures err { IfErr result (λ e. IsSchema e → accepts detail (view value) ≡ false) }
    ensures kind { IfErr result IsMemoryOrSchema }
{
    let text = Detail::read(alloc, value)?;
    Detail::write(&text, alloc)
}

/// The value, unless it is an array with no items.
pub fn unless_no_items(value: Value) -> Option<Value>
    ensures { option_map view result ≡ without_empty (view value) }
{
    if has_no_items(&value) {
        None
    } else {
        Some(value)
    }
}
