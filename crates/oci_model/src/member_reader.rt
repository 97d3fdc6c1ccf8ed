//! How a member is read, as a type: whether it has to be there, and what it is where it is not.
ghost use Rattle.std.specs.Prelude.{None, option_map, IfOk, IfErr};
ghost use Rattle.serde_json.specs.View.{view};
ghost use Rattle.oci_base.specs.Refused.{IsSchema, IsMemoryOrSchema};
ghost use Rattle.oci_model.specs.Plain.{Slot};
ghost use Rattle.oci_model.specs.Shape.{Presence, Shape};
ghost use Rattle.oci_model.specs.Means.{Means, MeansMember};
ghost use Rattle.oci_model.specs.Refused.{IsMemberRefused};

use crate::fault::{placed, refused};
use crate::{OciDefault, OciKind, OciMember};
use oci_base::Result;
use serde_json::Value;
use std::alloc::Global;
use std::marker::PhantomData;

/// Reads a member of an object as a `T`.
pub trait MemberReader<T> {
    /// Whether it has to be there, and what it is where it is not.
    ghost presence: { Presence };

    /// The JSON that is allowed.
    ghost shape: { Shape };

    /// The content.
    ghost slot: { T → Slot };

    /// Deserializes what stood under the name. Fails with `SerDe(Schema)` exactly if it is not allowed there, placed at the owner and the
    /// name unless the value has a place of its own, else only with `Memory`.
    fn read(
        alloc: Global,
        found: Option<Value>,
        owner: &'static str,
        name: &'static str,
    ) -> Result<T>
        ensures ok { IfOk result (λ x. MeansMember presence (Means shape) (option_map view found) (slot x)) }
        ensures err { IfErr result (λ e. IsSchema e → IsMemberRefused presence shape (option_map view found) None) }
        ensures kind { IfErr result IsMemoryOrSchema };
}

/// It has to be there.
pub struct Required;

impl<T: OciMember> MemberReader<T> for Required {
    ghost use Rattle.oci_model.specs.Shape.{required};
    ghost use Rattle.oci_model.specs.Types.{given};

    ghost presence = { required };

    ghost shape = { T.shape };

    ghost slot = { given T.plain };

    #[tactic(auto, using(crate::proofs::Presences::missing, crate::proofs::Presences::required_refused))]
    fn read(
        alloc: Global,
        found: Option<Value>,
        owner: &'static str,
        name: &'static str,
    ) -> Result<T> {
        match found {
            Some(value) => match T::read(alloc, value) {
                Ok(x) => Ok(x),
                Err(fault) => Err(placed(fault, owner, name)),
            },
            None => Err(refused(owner, name)),
        }
    }
}

/// It may be absent or null.
pub struct Optional;

impl<T: OciMember> MemberReader<Option<T>> for Optional {
    ghost use Rattle.oci_model.specs.Shape.{optional};
    ghost use Rattle.oci_model.specs.Types.{perhaps};

    ghost presence = { optional };

    ghost shape = { T.shape };

    ghost slot = { perhaps T.plain };

    #[tactic(auto, using(crate::proofs::Presences::optional_refused, crate::proofs::Presences::optional_means, crate::proofs::Presences::optional_null))]
    fn read(
        alloc: Global,
        found: Option<Value>,
        owner: &'static str,
        name: &'static str,
    ) -> Result<Option<T>> {
        match found {
            Some(value) => {
                if value.is_null() {
                    return Ok(None);
                }
                match T::read(alloc, value) {
                    Ok(x) => Ok(Some(x)),
                    Err(fault) => Err(placed(fault, owner, name)),
                }
            }
            None => Ok(None),
        }
    }
}

/// It may be absent, and then is the default of its type.
pub struct Defaulted;

impl<T: OciDefault> MemberReader<T> for Defaulted {
    ghost use Rattle.oci_model.specs.Shape.{defaulted};
    ghost use Rattle.oci_model.specs.Types.{given};

    ghost presence = { defaulted T.default_plain };

    ghost shape = { T.shape };

    ghost slot = { given T.plain };

    #[tactic(auto, using(crate::proofs::Presences::defaulted_refused, crate::proofs::Presences::absent_means))]
    fn read(
        alloc: Global,
        found: Option<Value>,
        owner: &'static str,
        name: &'static str,
    ) -> Result<T> {
        match found {
            Some(value) => match T::read(alloc, value) {
                Ok(x) => Ok(x),
                Err(fault) => Err(placed(fault, owner, name)),
            },
            None => Ok(T::absent(alloc)),
        }
    }
}

/// It may be absent or null, and is written as null where it is none.
pub struct Nullable;

impl<T: OciMember> MemberReader<Option<T>> for Nullable {
    ghost use Rattle.oci_model.specs.Shape.{nullable};
    ghost use Rattle.oci_model.specs.Types.{perhaps};

    ghost presence = { nullable };

    ghost shape = { T.shape };

    ghost slot = { perhaps T.plain };

    #[tactic(auto, using(crate::proofs::Presences::nullable_refused))]
    fn read(
        alloc: Global,
        found: Option<Value>,
        owner: &'static str,
        name: &'static str,
    ) -> Result<Option<T>> {
        <Optional as MemberReader<Option<T>>>::read(alloc, found, owner, name)
    }
}

/// It is a list that may be absent or null, and that is omitted where it is empty.
pub struct UnlessEmpty;

impl<T: OciMember> MemberReader<Option<Vec<T>>> for UnlessEmpty {
    ghost use Rattle.oci_model.specs.Shape.{unless_empty, list};
    ghost use Rattle.oci_model.specs.Types.{perhaps, list_plain};

    ghost presence = { unless_empty };

    ghost shape = { list T.shape };

    ghost slot = { perhaps (list_plain T.plain) };

    #[tactic(auto, using(crate::proofs::Presences::unless_empty_refused))]
    fn read(
        alloc: Global,
        found: Option<Value>,
        owner: &'static str,
        name: &'static str,
    ) -> Result<Option<Vec<T>>> {
        <Optional as MemberReader<Option<Vec<T>>>>::read(alloc, found, owner, name)
    }
}

/// It may be absent or null, and is of a kind with an encoding of its own.
pub struct As<K>(PhantomData<K>);

impl<K: OciKind<T>, T> MemberReader<Option<T>> for As<K> {
    ghost use Rattle.oci_model.specs.Shape.{optional};
    ghost use Rattle.oci_model.specs.Types.{perhaps};

    ghost presence = { optional };

    ghost shape = { K.shape };

    ghost slot = { perhaps K.plain };

    #[tactic(auto, using(crate::proofs::Presences::optional_refused, crate::proofs::Presences::optional_means, crate::proofs::Presences::optional_null))]
    fn read(
        alloc: Global,
        found: Option<Value>,
        owner: &'static str,
        name: &'static str,
    ) -> Result<Option<T>> {
        match found {
            Some(value) => {
                if value.is_null() {
                    return Ok(None);
                }
                match K::read(alloc, value) {
                    Ok(x) => Ok(Some(x)),
                    Err(fault) => Err(placed(fault, owner, name)),
                }
            }
            None => Ok(None),
        }
    }
}
