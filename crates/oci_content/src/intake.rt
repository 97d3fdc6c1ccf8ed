//! What hashes a content by the algorithm that a digest names.
ghost use Rattle.std.specs.Prelude.{◌++◌, [], ℕ, List, length};
ghost use Rattle.oci_content.specs.Content.{Tells};
ghost use Rattle.oci_content.specs.Hashing.{Takes};

use crate::algorithm::Algorithm;
use crate::hasher::Hasher;
use crate::verdict::Verdict;

/// A hasher of the algorithm that a digest names; of another algorithm nothing is kept.
#[derive(Drop)]
pub enum Intake {
    Known(Hasher),
    Unknown,
}

impl Intake {
    /// One that has taken nothing.
    pub fn of_digest(digest: &str) -> Intake
        ensures { Takes digest.now result [] }
    {
        match Algorithm::of_digest(digest) {
            Some(algorithm) => Intake::Known(Hasher::new(algorithm)),
            None => Intake::Unknown,
        }
    }

    /// Takes the next piece.
    pub fn update(&mut self, piece: &[u8])
        ensures { (d m : List ℕ) → Takes d self.old m → Takes d self.new (m ++ piece.now) }
    {
        match self {
            Intake::Known(hasher) => hasher.update(piece),
            Intake::Unknown => {}
        }
    }

    /// The verdict on all pieces, which have the size that is said.
    pub fn finish(self, digest: &str) -> Verdict
        ensures { (m : List ℕ) → Takes digest.now self m → Tells digest.now (length m) m result }
    {
        match self {
            Intake::Known(hasher) => {
                let found = hasher.finish();
                if found.is_text(digest) {
                    Verdict::Same
                } else {
                    Verdict::OtherDigest(found)
                }
            }
            Intake::Unknown => Verdict::Unjudged,
        }
    }
}
