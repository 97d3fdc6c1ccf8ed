//! What holds of references by their definitions alone.

ghost use Rattle.std.specs.Prelude.{◌≡◌, ◌↔◌, ◌⊎◌, codes, ℕ, List, Option, Some, None};
ghost use Rattle.oci_base.specs.Digest.{IsDigest};
ghost use Rattle.oci_reference.specs.Reference.{IsReference};
ghost use Rattle.oci_reference.specs.declared.error.ParseError.{ParseError};
ghost use Rattle.oci_reference.specs.Accepted.{Accepted, Refused};
ghost use Rattle.oci_reference.specs.Parts.{Parts};
ghost use Rattle.oci_reference.specs.Replaced.{pinned, IsSupported};
ghost use Rattle.oci_reference.specs.Whole.{whole};

pub use crate::scan_laws::one_reading;

/// The whole text of an accepted reference is accepted as the same one. So accepted texts give equal references
/// exactly if the whole texts are equal.
pub fn whole_canonical()
    ensures again { (t : List ℕ) (r : Parts) → Accepted t r → Accepted (whole r) r }
    ensures apart { (t t' : List ℕ) (r r' : Parts) → Accepted t r → Accepted t' r' → (r ≡ r') ↔ (whole r ≡ whole r') }
{}

/// A text is accepted as one reference, or refused for one reason, and never both.
pub fn one_outcome()
    ensures always { (t : List ℕ) → ((r : Parts) × Accepted t r) ⊎ ((e : ParseError) × Refused t e) }
    ensures once { (t : List ℕ) (r r' : Parts) → Accepted t r → Accepted t r' → r ≡ r' }
    ensures one_reason { (t : List ℕ) (e e' : ParseError) → Refused t e → Refused t e' → e ≡ e' }
    ensures not_both { (t : List ℕ) (r : Parts) (e : ParseError) → Accepted t r → Refused t e → ⊥ }
{}

/// An accepted reference has a tag or a digest, and its tag is `latest` exactly if the text says so or gives neither.
pub fn tag_or_digest()
    ensures some { (t : List ℕ) (r : Parts) → Accepted t r → r.tag ≡ None → r.digest ≡ None → ⊥ }
    ensures latest { (t n : List ℕ) (g d : Option (List ℕ)) (r : Parts) → IsReference t n g d → Accepted t r
        → (r.tag ≡ Some (codes "latest")) ↔ ((g ≡ Some (codes "latest")) ⊎ ((g ≡ None) × (d ≡ None))) }
{}

/// The whole text does not depend on the mirror.
pub fn mirror_not_shown()
    ensures { (r : Parts) (mirror : Option (List ℕ)) → whole (record r { mirror = mirror }) ≡ whole r }
{}

/// Where an accepted reference's tag and digest give way to a digest, the whole text is accepted exactly if the digest is
/// by `sha256`, `sha384` or `sha512`, and never as another reference.
pub fn digest_replaced()
    ensures accepted { (t d a e : List ℕ) (r : Parts) → Accepted t r → IsDigest d a e
        → ((q : Parts) × Accepted (whole (pinned r d)) q) ↔ IsSupported a }
    ensures alone { (t d : List ℕ) (r q : Parts) → Accepted t r → Accepted (whole (pinned r d)) q → q ≡ pinned r d }
{}
