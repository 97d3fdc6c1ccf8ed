//! The law of the two ways from bytes to bytes.
ghost use Rattle.std.specs.Prelude.{◌≡◌, ℕ, List};
ghost use Rattle.serde_json.specs.Written.{compact_text};
ghost use Rattle.oci_json.specs.Engines.{MeansBytes};
ghost use Rattle.oci_model.specs.Plain.{Plain};
ghost use Rattle.oci_model.specs.Shape.{Shape};
ghost use Rattle.oci_model.specs.Value.{value as json_of};

/// Whatever documents the same bytes are found to denote, their compact texts are equal. So what is written straight from the
/// bytes is what is written by way of a value.
pub fn one_text()
    ensures { (s : Shape) (bytes : List ℕ) (p q : Plain) → MeansBytes s bytes p → MeansBytes s bytes q
        → compact_text (json_of s p) ≡ compact_text (json_of s q) }
{}
