//! Maps from texts as members.
use crate::fault::refused;
use crate::parts::into_members;
use crate::record::OciMember;
use oci_base::Result;
use serde_json::Value;
use std::alloc::Global;
use std::collections::BTreeMap;

impl<T: OciMember> OciMember for BTreeMap<String, T> {
    ghost use Rattle.oci_model.specs.Shape.{map};
    ghost use Rattle.oci_model.specs.Types.{map_plain};
    ghost use Rattle.oci_model.specs.Same.{same_maps};

    ghost shape = { map T.shape };

    ghost plain = { map_plain T.plain };

    fn read(alloc: Global, value: Value) -> Result<BTreeMap<String, T>> {
        match into_members(value) {
            Some(members) => {
                let mut read = BTreeMap::new(alloc);
                for (name, member) in members {
                    let member = T::read(alloc, member)?;
                    drop(read.insert(name, member)?);
                }
                Ok(read)
            }
            None => Err(refused("", "")),
        }
    }

    fn write(&self, alloc: Global) -> Result<Value> {
        let mut written = BTreeMap::new(alloc);
        for (name, member) in self.iter() {
            let key = String::from_str(alloc, name.as_str())?;
            drop(written.insert(key, member.write(alloc)?)?);
        }
        Ok(Value::Object(written))
    }

    fn copy(&self, alloc: Global) -> Result<BTreeMap<String, T>> {
        let mut copies = BTreeMap::new(alloc);
        for (name, member) in self.iter() {
            let key = String::from_str(alloc, name.as_str())?;
            drop(copies.insert(key, member.copy(alloc)?)?);
        }
        Ok(copies)
    }

    ghost well_formed = { T.OciMember.well_formed };

    ghost same = { same_maps T.OciMember.same };
}
