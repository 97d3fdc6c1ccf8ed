//! The laws of the model of documents: what holds of every well-formed shape.
ghost use Rattle.std.specs.Prelude.{◌≡◌, ◌≤◌, ◌↔◌, ℕ, List, Some, true, false};
ghost use Rattle.serde_json.specs.Data.{Data, object, Members, put, depth};
ghost use Rattle.serde_json.specs.Read.{read, max_depth};
ghost use Rattle.serde_json.specs.Written.{has_float, compact_text};
ghost use Rattle.oci_base.specs.Names.{is_listed};
ghost use Rattle.oci_model.specs.Plain.{Plain};
ghost use Rattle.oci_model.specs.Shape.{Shape, rows, Rows, names};
ghost use Rattle.oci_model.specs.WellFormed.{WellFormed};
ghost use Rattle.oci_model.specs.Fits.{Fits};
ghost use Rattle.oci_model.specs.Means.{Means};
ghost use Rattle.oci_model.specs.Value.{value};
ghost use Rattle.oci_model.specs.Norm.{norm};
ghost use Rattle.oci_model.specs.Writable.{Writable, is_always_writable};
ghost use Rattle.oci_json.specs.Defaults.{HasReadableDefaults};
ghost use Rattle.oci_json.specs.Depths.{nesting, is_closed};
ghost use Rattle.oci_json.specs.Details.{HasNoNullDetail};
ghost use Rattle.oci_json.specs.Examples.{system, windows, named, second_named, twice_named};

/// A JSON value decodes to one content at most, and that fits the shape.
#[tactic(auto, using(crate::proofs::OneMeaning::one_meaning, crate::proofs::MeaningFits::fits))]
pub fn one_meaning()
    ensures one { (s : Shape) (v : Data) (p q : Plain) → WellFormed s → Means s v p → Means s v q → p ≡ q }
    ensures fits { (s : Shape) (v : Data) (p : Plain) → WellFormed s → Means s v p → Fits s p }
{}

/// What is written for serializable content decodes to exactly its normal form, and nothing else.
#[tactic(auto, using(crate::proofs::Canonical::reads_back))]
pub fn reads_back()
    ensures { (s : Shape) (p q : Plain) → WellFormed s → Fits s p → Writable s p
        → Means s (value s p) q ↔ (q ≡ norm s p) }
{}

/// A normal form fits, is serializable, and is its own normal form.
#[tactic(auto, using(crate::proofs::Canonical::norm_stable))]
pub fn norm_stable()
    ensures { (s : Shape) (p : Plain) → WellFormed s → Fits s p → Writable s p
        → Fits s (norm s p) × Writable s (norm s p) × (norm s (norm s p) ≡ norm s p) }
{}

/// Two contents have equal values exactly if they have equal normal forms. A `detail` that reads as null is left
/// out of account: it is written as null and none is omitted, though both have the same normal form.
#[tactic(auto, using(crate::proofs::Canonical::values_apart))]
pub fn values_apart()
    ensures { (s : Shape) (p q : Plain) → WellFormed s → Fits s p → Fits s q → Writable s p → Writable s q
        → HasNoNullDetail s p → HasNoNullDetail s q
        → (value s p ≡ value s q) ↔ (norm s p ≡ norm s q) }
{}

/// The normal form of what a JSON tree means is written as that itself is.
#[tactic(auto, using(crate::proofs::Canonical::twice_is_once))]
pub fn twice_is_once()
    ensures { (s : Shape) (v : Data) (p : Plain) → WellFormed s → Means s v p → Writable s p
        → value s (norm s p) ≡ value s p }
{}

/// A tree that was read is read again from its compact text, if all its numbers are 64-bit whole ones.
#[tactic(auto, using(crate::proofs::ReadAgain::read_again))]
pub fn reads_again()
    ensures { (t : List ℕ) (v : Data) → read t ≡ Some v → has_float v ≡ false → read (compact_text v) ≡ Some v }
{}

/// What a JSON text decodes to is serializable.
#[tactic(auto, using(crate::proofs::ReadIsWritable::read_is_writable))]
pub fn read_is_writable()
    ensures { (s : Shape) (t : List ℕ) (v : Data) (p : Plain) → WellFormed s → read t ≡ Some v → Means s v p
        → Writable s p }
{}

/// All content of a shape without `detail`, free maps and CPU lists is serializable.
#[tactic(auto, using(oci_model::proofs::AlwaysWritable::always_writable))]
pub fn always_writable()
    ensures { (s : Shape) (p : Plain) → is_always_writable s ≡ true → Writable s p }
{}

/// An unknown member does not change what an object decodes to.
pub fn unlisted()
    ensures { (rs : Rows) (k : List ℕ) (d : Data) (ms : Members) (p : Plain) → is_listed (names rs) k ≡ false
        → Means (rows rs) (object (put k d ms)) p ↔ Means (rows rs) (object ms) p }
{}

/// What is written holds no numbers but 64-bit whole ones.
#[tactic(auto, using(oci_model::proofs::NoFloat::none_written))]
pub fn whole_numbers()
    ensures { (s : Shape) (p : Plain) → Writable s p → has_float (value s p) ≡ false }
{}

/// What is written for what a text means, means the normal form. The normal form is written as the same bytes, so what is
/// written is written again unchanged, and equal normal forms are written alike. What is written is read back where the
/// defaults of the shape are readable and it nests no deeper than a text may. Where two texts that are written are read
/// back, they are equal exactly if the normal forms are.
#[tactic(auto, using(crate::proofs::NormalText::means_norm, crate::proofs::NormalText::once, crate::proofs::NormalText::twice, crate::proofs::NormalText::same, crate::proofs::NormalText::is_read, crate::proofs::NormalText::apart))]
pub fn normal_text()
    ensures means_norm { (s : Shape) (t : List ℕ) (v : Data) (p : Plain) → WellFormed s → read t ≡ Some v → Means s v p
        → Means s (value s p) (norm s p) }
    ensures once { (s : Shape) (t : List ℕ) (v : Data) (p : Plain) → WellFormed s → read t ≡ Some v → Means s v p
        → compact_text (value s (norm s p)) ≡ compact_text (value s p) }
    ensures twice { (s : Shape) (t : List ℕ) (v : Data) (p q : Plain) → WellFormed s → read t ≡ Some v → Means s v p
        → Means s (value s p) q → compact_text (value s q) ≡ compact_text (value s p) }
    ensures same { (s : Shape) (t u : List ℕ) (v w : Data) (p q : Plain) → WellFormed s → read t ≡ Some v → read u ≡ Some w
        → Means s v p → Means s w q → norm s p ≡ norm s q
        → compact_text (value s p) ≡ compact_text (value s q) }
    ensures is_read { (s : Shape) (t : List ℕ) (v : Data) (p : Plain) → WellFormed s → HasReadableDefaults s
        → read t ≡ Some v → Means s v p → depth (value s p) ≤ max_depth
        → read (compact_text (value s p)) ≡ Some (value s p) }
    ensures apart { (s : Shape) (p q : Plain) → WellFormed s → Fits s p → Fits s q → Writable s p → Writable s q
        → HasNoNullDetail s p → HasNoNullDetail s q
        → read (compact_text (value s p)) ≡ Some (value s p) → read (compact_text (value s q)) ≡ Some (value s q)
        → (compact_text (value s p) ≡ compact_text (value s q)) ↔ (norm s p ≡ norm s q) }
{}

/// What is written nests no deeper than its shape, but for `detail` and free maps. What a text means is written no deeper than a
/// text may nest, 127, if the shape itself nests no deeper.
#[tactic(auto, using(crate::proofs::Depths::closed, crate::proofs::MeaningDepth::read_depth))]
pub fn depths()
    ensures closed { (s : Shape) (p : Plain) → is_closed s ≡ true → depth (value s p) ≤ nesting s }
    ensures read { (s : Shape) (t : List ℕ) (v : Data) (p : Plain) → WellFormed s → read t ≡ Some v → Means s v p
        → nesting s ≤ max_depth → depth (value s p) ≤ max_depth }
{}

/// A member with an alias is read under either name, is written under its own, and under both it is rejected.
pub fn second_names()
    ensures by_name { Means system named windows }
    ensures by_second { Means system second_named windows }
    ensures written { value system windows ≡ named }
    ensures both { (p : Plain) → ¬ Means system twice_named p }
{}
