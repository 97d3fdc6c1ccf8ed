//! Kinds of members, and how optional members of a kind are written and copied.
ghost use Rattle.std.specs.Prelude.{◌≡◌, IfOk, IfErr};
ghost use Rattle.serde_json.specs.View.{view};
ghost use Rattle.oci_base.specs.Refused.{IsSchema, IsMemoryOrSchema};
ghost use Rattle.oci_model.specs.Adds.{Adds, FailsOf};
ghost use Rattle.oci_model.specs.Plain.{Plain};
ghost use Rattle.oci_model.specs.Shape.{Shape};
ghost use Rattle.oci_model.specs.Shape as presence;
ghost use Rattle.oci_model.specs.Fits.{Fits};
ghost use Rattle.oci_model.specs.Means.{Means};
ghost use Rattle.oci_model.specs.Refused.{IsRefused};
ghost use Rattle.oci_model.specs.Types.{perhaps};
ghost use Rattle.oci_model.specs.Value.{value as json_of};
ghost use Rattle.oci_model.specs.Writable.{Writable};

use crate::ObjectWriter;
use crate::fault::placed;
use oci_base::{OciSpecError, Result};
use serde_json::Value;
use std::alloc::Global;

/// A way to read and write values of a type that has other ways too: a list of strings, for one, may be an array in JSON or the
/// names of an object.
pub trait OciKind<T> {
    /// The JSON that is allowed.
    ghost shape: { Shape };

    /// The content.
    ghost plain: { T → Plain };

    /// Deserializes `value` and consumes it, in any case. Fails with `SerDe(Schema)` exactly if the shape rejects it, else only with
    /// `Memory`.
    fn read(alloc: Global, value: Value) -> Result<T>
        ensures ok { IfOk result (λ x. Means shape (view value) (plain x)) }
        ensures err { IfErr result (λ e. IsSchema e → IsRefused shape (view value)) }
        ensures kind { IfErr result IsMemoryOrSchema };

    /// Serializes the content to a value. Fails with `SerDe(Schema)` if it is not serializable, else only with `Memory`.
    fn write(x: &T, alloc: Global) -> Result<Value>
        ensures ok { IfOk result (λ v. view v ≡ json_of shape (plain x.now)) }
        ensures fits { IfOk result (λ v. Fits shape (plain x.now)) }
        ensures writable { IfOk result (λ v. Writable shape (plain x.now)) }
        ensures err { IfErr result (λ e. IsSchema e → ¬ Writable shape (plain x.now)) }
        ensures kind { IfErr result IsMemoryOrSchema };

    /// Returns an equal value. Fails with `Memory` alone.
    fn copy(x: &T, alloc: Global) -> Result<T>
        ensures ok { IfOk result (λ y. plain y ≡ plain x.now) }
        ensures err { IfErr result (λ e. e ≡ OciSpecError.Memory) };
}

/// Writes a member of a kind unless it is none. The error for content that is not serializable is placed at the owner and the name.
pub fn write_optional_as<K: OciKind<T>, T>(
    members: &mut ObjectWriter,
    owner: &'static str,
    name: &'static str,
    x: &Option<T>,
)
    ensures ok { Adds members.old members.new name.now presence.optional K.shape (perhaps K.plain x.now) }
    ensures err { FailsOf members.old members.new K.shape (perhaps K.plain x.now) }
{
    if let Some(x) = x {
        match K::write(x, members.alloc()) {
            Ok(written) => members.insert(name, written),
            Err(fault) => members.fail(placed(fault, owner, name)),
        }
    }
}

/// Copies a member of a kind that may be none.
pub fn copy_optional_as<K: OciKind<T>, T>(x: &Option<T>, alloc: Global) -> Result<Option<T>>
    ensures ok { IfOk result (λ y. perhaps K.plain y ≡ perhaps K.plain x.now) }
    ensures err { IfErr result (λ e. e ≡ OciSpecError.Memory) }
{
    match x {
        Some(x) => Ok(Some(K::copy(x, alloc)?)),
        None => Ok(None),
    }
}
