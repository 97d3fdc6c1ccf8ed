//! What a document type can do, and what the type of a record's member can.
ghost use Rattle.std.specs.Prelude.{◌≡◌, ◌↔◌, true, IfOk, IfErr};
ghost use Rattle.serde_json.specs.View.{view};
ghost use Rattle.oci_base.specs.Refused.{IsSchema, IsMemoryOrSchema};
ghost use Rattle.oci_model.specs.Plain.{Plain};
ghost use Rattle.oci_model.specs.Shape.{Shape};
ghost use Rattle.oci_model.specs.Fits.{Fits};
ghost use Rattle.oci_model.specs.Means.{Means};
ghost use Rattle.oci_model.specs.Refused.{IsRefused};
ghost use Rattle.oci_model.specs.Value.{value as json_of};
ghost use Rattle.oci_model.specs.Writable.{Writable};
ghost use Rattle.oci_model.specs.WellFormed.{WellFormed};

use oci_base::{OciSpecError, Result};
use serde_json::Value;
use std::alloc::Global;

/// A document type: it is read from a JSON value exactly if its shape allows the value, and written as one.
/// A `SchemaFault` names the innermost record and its first offending member in schema order; a value that is no object is
/// reported at the member that holds it.
pub trait OciRecord: Eq + Drop {
    /// The JSON that is allowed.
    ghost shape: { Shape };

    /// The content.
    ghost plain: { Self → Plain };

    /// Deserializes `value`. Fails with `SerDe(Schema)` exactly if the schema rejects it, else only with `Memory`. The records here
    /// deserialize a copy.
    fn from_value(alloc: Global, value: &Value) -> Result<Self>
        ensures ok { IfOk result (λ x. Means shape (view value.now) (plain x)) }
        ensures err { IfErr result (λ e. IsSchema e → IsRefused shape (view value.now)) }
        ensures kind { IfErr result IsMemoryOrSchema };

    /// Deserializes `value` and consumes it, in any case. Fails as `from_value`. The records here move strings, lists and maps.
    #[inline(always)]
    fn from_value_owned(alloc: Global, value: Value) -> Result<Self>
        ensures ok { IfOk result (λ x. Means shape (view value) (plain x)) }
        ensures err { IfErr result (λ e. IsSchema e → IsRefused shape (view value)) }
        ensures kind { IfErr result IsMemoryOrSchema }
    {
        Self::from_value(alloc, &value)
    }

    /// Serializes the document to a value. Fails with `SerDe(Schema)` if it is not serializable (a CPU list or a `detail` set in code
    /// that is none), else only with `Memory`.
    fn to_value(&self, alloc: Global) -> Result<Value>
        ensures ok { IfOk result (λ v. view v ≡ json_of shape (plain self.now)) }
        ensures fits { IfOk result (λ v. Fits shape (plain self.now)) }
        ensures writable { IfOk result (λ v. Writable shape (plain self.now)) }
        ensures err { IfErr result (λ e. IsSchema e → ¬ Writable shape (plain self.now)) }
        ensures kind { IfErr result IsMemoryOrSchema };

    /// Returns an equal document. Fails with `Memory` alone.
    fn duplicate(&self, alloc: Global) -> Result<Self>
        ensures ok { IfOk result (λ x. plain x ≡ plain self.now) }
        ensures err { IfErr result (λ e. e ≡ OciSpecError.Memory) };

    /// The shape is well formed.
    ghost well_formed: { WellFormed shape };

    /// Documents are equal exactly if their contents are.
    ghost same: { (x y : Self) → (Self.eq x y ≡ true) ↔ (plain x ≡ plain y) };
}

/// A type that a record's member may have: a record, a string, a number, an enum, a list or a map.
pub trait OciMember: Eq + Drop {
    /// The JSON that is allowed.
    ghost shape: { Shape };

    /// The content.
    ghost plain: { Self → Plain };

    /// Deserializes `value` and consumes it, in any case. Fails with `SerDe(Schema)` exactly if the shape rejects it, else only with
    /// `Memory`.
    fn read(alloc: Global, value: Value) -> Result<Self>
        ensures ok { IfOk result (λ x. Means shape (view value) (plain x)) }
        ensures err { IfErr result (λ e. IsSchema e → IsRefused shape (view value)) }
        ensures kind { IfErr result IsMemoryOrSchema };

    /// Serializes the content to a value. Fails with `SerDe(Schema)` if it is not serializable, else only with `Memory`.
    fn write(&self, alloc: Global) -> Result<Value>
        ensures ok { IfOk result (λ v. view v ≡ json_of shape (plain self.now)) }
        ensures fits { IfOk result (λ v. Fits shape (plain self.now)) }
        ensures writable { IfOk result (λ v. Writable shape (plain self.now)) }
        ensures err { IfErr result (λ e. IsSchema e → ¬ Writable shape (plain self.now)) }
        ensures kind { IfErr result IsMemoryOrSchema };

    /// Returns an equal value. Fails with `Memory` alone.
    fn copy(&self, alloc: Global) -> Result<Self>
        ensures ok { IfOk result (λ x. plain x ≡ plain self.now) }
        ensures err { IfErr result (λ e. e ≡ OciSpecError.Memory) };

    /// The shape is well formed.
    ghost well_formed: { WellFormed shape };

    /// Values are equal exactly if their contents are.
    ghost same: { (x y : Self) → (Self.eq x y ≡ true) ↔ (plain x ≡ plain y) };
}

impl<T: OciRecord> OciMember for T {
    ghost shape = { T.OciRecord.shape };

    ghost plain = { T.OciRecord.plain };

    fn read(alloc: Global, value: Value) -> Result<T> {
        T::from_value_owned(alloc, value)
    }

    fn write(&self, alloc: Global) -> Result<Value> {
        self.to_value(alloc)
    }

    fn copy(&self, alloc: Global) -> Result<T> {
        self.duplicate(alloc)
    }

    ghost well_formed = { T.OciRecord.well_formed };

    ghost same = { T.OciRecord.same };
}
