//! What verdicts say, over their definitions alone.
ghost use Rattle.std.specs.Prelude.{◌≡◌, ◌↔◌, ℕ, List};
ghost use Rattle.oci_content.specs.Content.{IsBy, IsContentOf, Tells};
ghost use Rattle.oci_content.specs.declared.algorithm.Algorithm.{Algorithm};
ghost use Rattle.oci_content.specs.declared.verdict.Verdict.{Verdict};
ghost use Rattle.oci_content.specs.declared.verdict.Verdict.TheVariants as verdict;

/// A content has one verdict, which is `Same` exactly if it has the size and the digest. A digest is by one algorithm at most.
#[tactic(auto, using(crate::proofs::Verdicts::exact, crate::proofs::Verdicts::one_verdict, crate::proofs::Verdicts::one_algorithm))]
pub fn verdicts()
    ensures same { (digest : List ℕ) (size : ℕ) (bytes : List ℕ) (v : Verdict) → Tells digest size bytes v → (v ≡ verdict.Same) ↔ IsContentOf digest size bytes }
    ensures one { (digest : List ℕ) (size : ℕ) (bytes : List ℕ) (v w : Verdict) → Tells digest size bytes v → Tells digest size bytes w → v ≡ w }
    ensures algorithm { (a b : Algorithm) (text : List ℕ) → IsBy a text → IsBy b text → a ≡ b }
{}
