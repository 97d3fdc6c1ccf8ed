//! Defaults of members, and writers of members that are written as null where they are none or omitted where they are empty.
ghost use Rattle.std.specs.Prelude.{◌≡◌, [], false, pos};
ghost use Rattle.oci_model.specs.Adds.{Adds, FailsOf};
ghost use Rattle.oci_model.specs.Plain as plain_tree;
ghost use Rattle.oci_model.specs.Plain.{Plain};
ghost use Rattle.oci_model.specs.Shape as presence;
ghost use Rattle.oci_model.specs.Types.{perhaps, list_plain};

use crate::{ObjectWriter, OciMember, write_required};
use serde_json::Value;
use std::alloc::Global;

/// A type with a default value, which an absent member has.
pub trait OciDefault: OciMember {
    /// The content of that value.
    ghost default_plain: { Plain };

    /// Returns the default value.
    fn absent(alloc: Global) -> Self
        ensures { Self.plain result ≡ default_plain };
}

impl OciDefault for String {
    ghost default_plain = { plain_tree.text [] };

    fn absent(alloc: Global) -> String {
        String::new(alloc)
    }
}

impl<T: OciMember> OciDefault for Vec<T> {
    ghost default_plain = { plain_tree.list plain_tree.no_plains };

    fn absent(alloc: Global) -> Vec<T> {
        Vec::new(alloc)
    }
}

impl OciDefault for bool {
    ghost default_plain = { plain_tree.truth false };

    fn absent(_alloc: Global) -> bool {
        false
    }
}

impl OciDefault for i32 {
    ghost default_plain = { plain_tree.whole (pos 0) };

    fn absent(_alloc: Global) -> i32 {
        0
    }
}

impl OciDefault for i64 {
    ghost default_plain = { plain_tree.whole (pos 0) };

    fn absent(_alloc: Global) -> i64 {
        0
    }
}

impl OciDefault for u32 {
    ghost default_plain = { plain_tree.whole (pos 0) };

    fn absent(_alloc: Global) -> u32 {
        0
    }
}

impl OciDefault for u64 {
    ghost default_plain = { plain_tree.whole (pos 0) };

    fn absent(_alloc: Global) -> u64 {
        0
    }
}

/// Writes a member, and null where it is none.
pub fn write_nullable<T: OciMember>(members: &mut ObjectWriter, name: &str, x: &Option<T>)
    ensures ok { Adds members.old members.new name.now presence.nullable T.shape (perhaps T.plain x.now) }
    ensures err { FailsOf members.old members.new T.shape (perhaps T.plain x.now) }
{
    match x {
        Some(x) => write_required(members, name, x),
        None => members.insert(name, Value::Null),
    }
}

/// Writes a list unless it is none or empty.
pub fn write_unless_empty<T: OciMember>(members: &mut ObjectWriter, name: &str, x: &Option<Vec<T>>)
    ensures ok { Adds members.old members.new name.now presence.unless_empty (presence.list T.shape) (perhaps (list_plain T.plain) x.now) }
    ensures err { FailsOf members.old members.new (presence.list T.shape) (perhaps (list_plain T.plain) x.now) }
{
    if let Some(items) = x {
        if !items.is_empty() {
            write_required(members, name, items);
        }
    }
}
