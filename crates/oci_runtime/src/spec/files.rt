//! Specifications in files.
ghost use Rattle.std.specs.Prelude.{IfErr, OnOk};
ghost use Rattle.oci_base.specs.Refused.{IsSchema, IsMemorySchemaOrIo, IsMemorySerDeOrIo};
ghost use Rattle.oci_model.specs.Writable.{Writable};
ghost use Rattle.oci_shapes.specs.Spec.{spec};
ghost use Rattle.oci_runtime.specs.Spec.{spec_plain};

use super::Spec;
use oci_base::Result;
use std::alloc::Global;
use std::rt::Files;

impl Spec {
    /// Reads a specification from a file. Fails with `Io` if it cannot be opened or read, with `SerDe(Json)` if it is not JSON, and with
    /// `SerDe(Schema)` if it is no specification.
    pub fn load<R: Files>(rt: &R, alloc: Global, path: &str) -> Result<Spec>
        ensures kind { IfErr result IsMemorySerDeOrIo }
    {
        oci_json::from_file(rt, alloc, path)
    }

    /// Serializes the specification to a file as compact JSON. The file is created or truncated once the text is made, so it is
    /// unchanged if the error is `SerDe(Schema)`, for a specification that is not serializable, or `Memory`. Fails with `Io` if it
    /// cannot be opened or written.
    pub fn save<R: Files>(&self, rt: &R, alloc: Global, path: &str) -> Result<()>
        ensures writable { OnOk result (Writable spec (spec_plain self.now)) }
        ensures err { IfErr result (λ e. IsSchema e → ¬ Writable spec (spec_plain self.now)) }
        ensures kind { IfErr result IsMemorySchemaOrIo }
    {
        oci_json::to_file(rt, self, alloc, path)
    }
}
