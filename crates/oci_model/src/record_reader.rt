//! How a record is read: its members one after the other are taken out of an object, by a list of readers and one of names. The first
//! error, in the order of the members, is returned. All are inlined, since what they return is copied once more by a call.
ghost use Rattle.std.specs.Prelude.{IfOk, IfErr, IsTrue};
ghost use Rattle.serde_json.specs.View.{view, members_view};
ghost use Rattle.oci_base.specs.Names.{no_text_twice};
ghost use Rattle.oci_base.specs.Refused.{IsSchema, IsMemoryOrSchema};
ghost use Rattle.oci_model.specs.Means.{Means, MeansRows};
ghost use Rattle.oci_model.specs.Plain.{Slots, document, no_slots, slot};
ghost use Rattle.oci_model.specs.Reading.{Agree, AreRefused};
ghost use Rattle.oci_model.specs.Refused.{IsRefused};
ghost use Rattle.oci_model.specs.Shape.{Rows, rows, no_rows, row, names as names_of};

use crate::fault::refused;
use crate::member_name::MemberName;
use crate::member_reader::MemberReader;
use crate::parts::into_members;
use oci_base::Result;
use serde_json::{Map, Value};
use std::alloc::Global;

/// Nests what is listed: `(a, (b, (c, ())))`. Readers of members, their names, and what was read are written so.
#[macro_export]
macro_rules! nested {
    () => { () };
    ($first:tt $(, $rest:tt)* $(,)?) => { ($first, $crate::nested!($($rest),*)) };
    ($first:ty $(, $rest:ty)* $(,)?) => { ($first, $crate::nested!($($rest),*)) };
}

/// Reads some members of a record as a `T`, by their names `N`: a name each, or a name and an alias.
pub trait RecordReader<T, N> {
    /// How the members are listed.
    ghost members: { N → Rows };

    /// The content.
    ghost slots: { T → Slots };

    /// Takes the members out of the object, and deserializes them. Fails with `SerDe(Schema)` exactly if one is not allowed, else only
    /// with `Memory`.
    fn read(
        alloc: Global,
        object: &mut Map<String, Value>,
        owner: &'static str,
        names: N,
    ) -> Result<T>
        requires distinct { IsTrue (no_text_twice (names_of (members names))) }
        ensures ok { IfOk result (λ x. (d : _) → Agree (names_of (members names)) (members_view object.old.entries) d → MeansRows (members names) d (slots x)) }
        ensures err { IfErr result (λ e. IsSchema e → (d : _) → Agree (names_of (members names)) (members_view object.old.entries) d → AreRefused (members names) d) }
        ensures kind { IfErr result IsMemoryOrSchema };
}

impl RecordReader<(), ()> for () {
    ghost members = { λ n. no_rows };

    ghost slots = { λ x. no_slots };

    #[inline(always)]
    fn read(
        _alloc: Global,
        _object: &mut Map<String, Value>,
        _owner: &'static str,
        _names: (),
    ) -> Result<()> {
        Ok(())
    }
}

impl<
    A: MemberReader<S>,
    B: RecordReader<T, N>,
    S: Drop,
    T: Drop,
    M: MemberName,
    N: Drop,
> RecordReader<(S, T), (M, N)> for (A, B) {
    ghost members = { λ n. row (M.text n.0) (M.alias n.0) A.presence A.shape (B.members n.1) };

    ghost slots = { λ x. slot (A.slot x.0) (B.slots x.1) };

    #[inline(always)]
    fn read(
        alloc: Global,
        object: &mut Map<String, Value>,
        owner: &'static str,
        names: (M, N),
    ) -> Result<(S, T)> {
        let (name, others) = names;
        let found = name.take(object, owner)?;
        let first = A::read(alloc, found, owner, name.as_str())?;
        let rest = B::read(alloc, object, owner, others)?;
        Ok((first, rest))
    }
}

/// Deserializes the members of a record, and consumes the value. Fails with `SerDe(Schema)` exactly if it is no object or a member is not
/// allowed, else only with `Memory`.
#[tactic(auto, using(crate::proofs::RecordReaders::means_with, crate::proofs::RecordReaders::no_object))]
#[inline(always)]
pub fn read_members<R: RecordReader<T, N>, T, N: Drop>(
    alloc: Global,
    value: Value,
    owner: &'static str,
    names: N,
) -> Result<T>
    requires distinct { IsTrue (no_text_twice (names_of (R.members names))) }
    ensures ok { IfOk result (λ x. Means (rows (R.members names)) (view value) (document (R.slots x))) }
    ensures err { IfErr result (λ e. IsSchema e → IsRefused (rows (R.members names)) (view value)) }
    ensures kind { IfErr result IsMemoryOrSchema }
{
    match into_members(value) {
        Some(mut object) => R::read(alloc, &mut object, owner, names),
        None => Err(refused(owner, "")),
    }
}
