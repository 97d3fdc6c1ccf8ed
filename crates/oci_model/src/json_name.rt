//! What enums have in common.
ghost use Rattle.std.specs.Prelude.{◌≡◌, ◌↔◌, ℕ, List, true, IfSome, IfNone, IsTrue};
ghost use Rattle.oci_base.specs.Names.{is_listed};

/// An enum with a JSON text for each of its values.
pub trait JsonName: Eq + Drop {
    /// The names.
    ghost table: { List (List ℕ) };

    /// The name of a value.
    ghost name: { Self → List ℕ };

    /// Which texts are read as which name: by default the name itself.
    ghost Spells: { List ℕ → List ℕ → Type 0 } = { λ t n. t ≡ n };

    /// The text that is written for a name: by default the name itself.
    ghost spelling: { List ℕ → List ℕ } = { λ n. n };

    /// Returns the value with this JSON text, if there is one.
    fn from_json_name(text: &str) -> Option<Self>
        ensures some { IfSome result (λ x. Spells text.now (name x)) }
        ensures none { IfNone result ((n : List ℕ) → IsTrue (is_listed table n) → ¬ Spells text.now n) };

    /// Returns the JSON text.
    fn json_name(&self) -> &'static str
        ensures { result.now ≡ spelling (name self.now) };

    /// Each name is in the table.
    ghost listed: { (x : Self) → IsTrue (is_listed table (name x)) };

    /// Values are equal exactly if their names are.
    ghost same: { (x y : Self) → (Self.eq x y ≡ true) ↔ (name x ≡ name y) };
}
