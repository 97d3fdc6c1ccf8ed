//! What holds of the grammar alone.

ghost use Rattle.std.specs.Prelude.{◌≡◌, ℕ, List, Option};
ghost use Rattle.oci_reference.specs.Reference.{IsReference};

/// A text is a reference in one way at most: it has one name, one tag or none, and one digest or none.
pub fn one_reading()
    ensures { (t n n' : List ℕ) (g g' d d' : Option (List ℕ)) → IsReference t n g d → IsReference t n' g' d'
        → (n ≡ n') × (g ≡ g') × (d ≡ d') }
{}
