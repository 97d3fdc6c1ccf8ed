//! An object that is written member by member.
ghost use Rattle.std.specs.Prelude.{◌≡◌, ◌⊎◌, Some, None, IfOk, IfErr, OnOk};
ghost use Rattle.serde_json.specs.Data.{no_members, object as object_of, put};
ghost use Rattle.serde_json.specs.View.{view, members_view};
ghost use Rattle.oci_model.specs.Adds.{Adds, FailsOf, Gains};
ghost use Rattle.oci_model.specs.Shape as presence;
ghost use Rattle.oci_model.specs.Types.{given, perhaps};

use crate::record::OciMember;
use oci_base::{OciSpecError, Result};
use serde_json::{Map, Value};
use std::alloc::Global;

/// The members of an object that were written until now, and the first error.
#[derive(Drop)]
pub struct ObjectWriter {
    alloc: Global,
    members: Map<String, Value>,
    fault: Option<OciSpecError>,
}

impl ObjectWriter {
    /// Returns an object without members.
    pub fn new(alloc: Global) -> ObjectWriter
        ensures members { members_view result.members.entries ≡ no_members }
        ensures fault { result.fault ≡ None }
    {
        ObjectWriter {
            alloc,
            members: Map::new(alloc),
            fault: None,
        }
    }

    /// Returns where values are allocated.
    pub fn alloc(&self) -> Global {
        self.alloc
    }

    /// Puts a value under a name, unless there was an error. Fails with `Memory` alone.
    pub fn insert(&mut self, name: &str, value: Value)
        ensures ok { (self.new.fault ≡ None) → Gains self.old self.new name.now (Some (view value)) }
        ensures err { (e : OciSpecError) → (self.new.fault ≡ Some e) → (self.old.fault ≡ Some e) ⊎ (e ≡ OciSpecError.Memory) }
    {
        if self.fault.is_some() {
            return;
        }
        if let Err(fault) = inserted(&mut self.members, self.alloc, name, value) {
            self.fault = Some(fault);
        }
    }

    /// Keeps the error of a member, unless there was one before.
    pub fn fail(&mut self, fault: OciSpecError)
        ensures fails { (self.new.fault ≡ self.old.fault) ⊎ (self.new.fault ≡ Some fault) }
        ensures some { (e : OciSpecError) → (self.old.fault ≡ Some e) → (self.new.fault ≡ Some e) }
        ensures not_none { ¬ (self.new.fault ≡ None) }
    {
        if self.fault.is_none() {
            self.fault = Some(fault);
        }
    }

    /// Returns the object, or the first error.
    pub fn object(self) -> Result<Value>
        ensures ok { IfOk result (λ v. (self.fault ≡ None) × (view v ≡ object_of (members_view self.members.entries))) }
        ensures err { IfErr result (λ e. self.fault ≡ Some e) }
    {
        let ObjectWriter { members, fault, .. } = self;
        match fault {
            None => Ok(Value::Object(members)),
            Some(fault) => Err(fault),
        }
    }
}

/// Puts a value under a name.
fn inserted(members: &mut Map<String, Value>, alloc: Global, name: &str, value: Value) -> Result<()>
    ensures ok { OnOk result (members_view members.new.entries ≡ put name.now (view value) (members_view members.old.entries)) }
    ensures err { IfErr result (λ e. e ≡ OciSpecError.Memory) }
{
    let key = String::from_str(alloc, name)?;
    members.insert(key, value)?;
    Ok(())
}

/// Writes a member that is always written.
pub fn write_required<T: OciMember>(members: &mut ObjectWriter, name: &str, x: &T)
    ensures ok { Adds members.old members.new name.now presence.required T.shape (given T.plain x.now) }
    ensures err { FailsOf members.old members.new T.shape (given T.plain x.now) }
{
    match x.write(members.alloc) {
        Ok(value) => members.insert(name, value),
        Err(fault) => members.fail(fault),
    }
}

/// Writes a member unless it is none.
pub fn write_optional<T: OciMember>(members: &mut ObjectWriter, name: &str, x: &Option<T>)
    ensures ok { Adds members.old members.new name.now presence.optional T.shape (perhaps T.plain x.now) }
    ensures err { FailsOf members.old members.new T.shape (perhaps T.plain x.now) }
{
    if let Some(x) = x {
        write_required(members, name, x);
    }
}
