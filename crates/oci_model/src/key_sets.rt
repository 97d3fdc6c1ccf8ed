//! Sets of names, as the objects of these names (image specification, "OCI Image Configuration": `ExposedPorts`, `Volumes`).
ghost use Rattle.std.specs.Prelude.{◌≡◌, ◌↔◌, true, IfOk, map, string_bytes};
ghost use Rattle.serde_json.specs.View.{members_view};
ghost use Rattle.oci_model.specs.Means.{member_names, AreObjects};
ghost use Rattle.oci_model.specs.Value.{sorted, empty_objects};

use crate::OciMember;
use crate::fault::refused;
use crate::kind::OciKind;
use crate::parts::into_members;
use oci_base::Result;
use serde_json::{Map, Value};
use std::alloc::{AllocError, Global};

/// Names, as an object whose values are all objects. They are read in byte order, and written each once with an empty object.
pub struct Keys;

impl OciKind<Vec<String>> for Keys {
    ghost use Rattle.oci_model.specs.Shape.{key_set};
    ghost use Rattle.oci_model.specs.Keys.{keys_plain};

    ghost shape = { key_set };

    ghost plain = { keys_plain };

    #[tactic(auto, using(crate::proofs::KeySets::refused_other, crate::proofs::KeySets::refused_member))]
    fn read(alloc: Global, value: Value) -> Result<Vec<String>> {
        match into_members(value) {
            Some(members) => {
                if all_objects(&members) {
                    Ok(into_names(alloc, members)?)
                } else {
                    Err(refused("", ""))
                }
            }
            None => Err(refused("", "")),
        }
    }

    fn write(x: &Vec<String>, alloc: Global) -> Result<Value> {
        Ok(Value::Object(objects_of(alloc, x)?))
    }

    #[tactic(auto, using(crate::specs::Keys::names_of_texts))]
    fn copy(x: &Vec<String>, alloc: Global) -> Result<Vec<String>> {
        x.copy(alloc)
    }
}

fn all_objects(members: &Map<String, Value>) -> bool
    ensures { (result ≡ true) ↔ AreObjects (members_view members.now.entries) }
{
    for (_, member) in members.iter() {
        if !member.is_object() {
            return false;
        }
    }
    true
}

fn into_names(
    alloc: Global,
    members: Map<String, Value>,
) -> std::result::Result<Vec<String>, AllocError>
    ensures { IfOk result (λ v. map string_bytes v.items ≡ member_names (members_view members.entries)) }
{
    let mut names = Vec::new(alloc);
    for (name, member) in members {
        drop(member);
        names.push(name)?;
    }
    Ok(names)
}

fn objects_of(
    alloc: Global,
    names: &Vec<String>,
) -> std::result::Result<Map<String, Value>, AllocError>
    ensures { IfOk result (λ m. members_view m.entries ≡ empty_objects (sorted (map string_bytes names.now.items))) }
{
    let mut members = Map::new(alloc);
    for name in names {
        let name = name.clone()?;
        drop(members.insert(name, Value::Object(Map::new(alloc)))?);
    }
    Ok(members)
}
