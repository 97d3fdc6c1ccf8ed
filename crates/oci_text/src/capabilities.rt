//! Sets of capabilities, and how they are members of records (runtime specification, "Configuration", "Linux Process",
//! `capabilities`).
ghost use Rattle.std.specs.Prelude.{◌≡◌, ℕ, List, IfOk, IfErr, IsTrue};
ghost use Rattle.serde_json.specs.View.{view};
ghost use Rattle.oci_base.specs.Names.{is_listed};
ghost use Rattle.oci_base.specs.Refused.{IsSchema, IsMemoryOrSchema};
ghost use Rattle.oci_model.specs.Means.{IsCapability, Means};
ghost use Rattle.oci_model.specs.Refused.{IsRefused};
ghost use Rattle.oci_model.specs.Shape.{cap_set};
ghost use Rattle.oci_text.specs.Capability.{capability_name, capability_table};
ghost use Rattle.oci_text.specs.CapabilitySets.{default_set, set_plain};

use crate::capability::{ALL, Capability};
use oci_base::{OciSpecError, Result};
use oci_model::fault::refused;
use oci_model::{JsonName, OciKind};
use serde_json::Value;
use std::alloc::Global;
use std::collections::HashSet;

/// A set of capabilities.
pub type Capabilities = HashSet<Capability>;

/// A set of capabilities as an array of their texts. It is read in any order, and what stands twice, or in two spellings,
/// is in the set once; it is written in the order of the variants.
pub struct Caps;

/// The capabilities of a default process: writing to the audit log, sending signals, and listening on low ports.
pub fn default_capabilities(alloc: Global) -> Result<Capabilities>
    ensures ok { IfOk result (λ s. set_plain s ≡ default_set) }
    ensures err { IfErr result (λ e. e ≡ OciSpecError.Memory) }
{
    let mut set = HashSet::new(alloc);
    set.insert(Capability::AuditWrite)?;
    set.insert(Capability::Kill)?;
    set.insert(Capability::NetBindService)?;
    Ok(set)
}

#[tactic(auto, using(crate::proofs::CapSets::no_capability, crate::proofs::CapSets::not_of_text))]
fn read_capability(value: &Value) -> Result<Capability>
    ensures ok { IfOk result (λ c. IsCapability (view value.now) (capability_name c)) }
    ensures err { IfErr result (λ e. IsSchema e → (n : List ℕ) → IsTrue (is_listed capability_table n) → ¬ IsCapability (view value.now) n) }
    ensures kind { IfErr result IsMemoryOrSchema }
{
    match value.as_str() {
        Some(text) => match Capability::from_json_name(text) {
            Some(capability) => Ok(capability),
            None => Err(refused("", "")),
        },
        None => Err(refused("", "")),
    }
}

fn read_set(alloc: Global, value: &Value) -> Result<HashSet<Capability>>
    ensures ok { IfOk result (λ s. Means (cap_set capability_table) (view value.now) (set_plain s)) }
    ensures err { IfErr result (λ e. IsSchema e → IsRefused (cap_set capability_table) (view value.now)) }
    ensures kind { IfErr result IsMemoryOrSchema }
{
    match value.as_array() {
        Some(items) => {
            let mut read = HashSet::new(alloc);
            for item in items {
                read.insert(read_capability(item)?)?;
            }
            Ok(read)
        }
        None => Err(refused("", "")),
    }
}

impl OciKind<HashSet<Capability>> for Caps {
    ghost shape = { cap_set capability_table };

    ghost plain = { set_plain };

    fn read(alloc: Global, value: Value) -> Result<HashSet<Capability>> {
        read_set(alloc, &value)
    }

    fn write(x: &HashSet<Capability>, alloc: Global) -> Result<Value> {
        let mut written = Vec::new(alloc);
        for capability in &ALL {
            if x.contains(capability) {
                written.push(Value::String(String::from_str(alloc, capability.json_name())?))?;
            }
        }
        Ok(Value::Array(written))
    }

    fn copy(x: &HashSet<Capability>, _alloc: Global) -> Result<HashSet<Capability>> {
        Ok(x.clone()?)
    }
}
