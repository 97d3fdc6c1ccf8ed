//! Lists as members.
use crate::fault::refused;
use crate::parts::into_items;
use crate::record::OciMember;
use oci_base::Result;
use serde_json::Value;
use std::alloc::Global;

impl<T: OciMember> OciMember for Vec<T> {
    ghost use Rattle.oci_model.specs.Shape.{list};
    ghost use Rattle.oci_model.specs.Types.{list_plain};
    ghost use Rattle.oci_model.specs.Same.{same_lists};

    ghost shape = { list T.shape };

    ghost plain = { list_plain T.plain };

    fn read(alloc: Global, value: Value) -> Result<Vec<T>> {
        match into_items(value) {
            Some(items) => {
                let mut listed = Vec::with_capacity(alloc, items.len())?;
                for item in items {
                    listed.push(T::read(alloc, item)?)?;
                }
                Ok(listed)
            }
            None => Err(refused("", "")),
        }
    }

    fn write(&self, alloc: Global) -> Result<Value> {
        let mut written = Vec::with_capacity(alloc, self.len())?;
        for item in self {
            written.push(item.write(alloc)?)?;
        }
        Ok(Value::Array(written))
    }

    fn copy(&self, alloc: Global) -> Result<Vec<T>> {
        let mut copies = Vec::with_capacity(alloc, self.len())?;
        for item in self {
            copies.push(item.copy(alloc)?)?;
        }
        Ok(copies)
    }

    ghost well_formed = { T.OciMember.well_formed };

    ghost same = { same_lists T.OciMember.same };
}
