//! The algorithms by which a content can be verified.
ghost use Rattle.std.specs.Prelude.{◌≡◌, IfSome, IfNone};
ghost use Rattle.oci_content.specs.declared.algorithm.Algorithm.{Algorithm};
ghost use Rattle.oci_content.specs.Content.{algorithm_name, IsBy};

/// An algorithm by which a content can be verified (image specification, "Digests", "Registered Algorithms"); SHA-384 is not
/// registered there, and is read as `oci-spec` reads it.
#[derive(Clone, Copy, Debug, PartialEq, Eq)]
pub enum Algorithm {
    Sha256,
    Sha384,
    Sha512,
}

impl Algorithm {
    /// The algorithm of a name, as `sha256`.
    pub fn from_name(name: &str) -> Option<Algorithm>
        ensures some { IfSome result (λ a. name.now ≡ algorithm_name a) }
        ensures none { IfNone result ((a : Algorithm) → ¬ (name.now ≡ algorithm_name a)) }
    {
        match name {
            "sha256" => Some(Algorithm::Sha256),
            "sha384" => Some(Algorithm::Sha384),
            "sha512" => Some(Algorithm::Sha512),
            _ => None,
        }
    }

    /// The algorithm's name, as `sha256`.
    pub fn name(self) -> &'static str
        ensures { result.now ≡ algorithm_name self }
    {
        match self {
            Algorithm::Sha256 => "sha256",
            Algorithm::Sha384 => "sha384",
            Algorithm::Sha512 => "sha512",
        }
    }

    /// The algorithm that the text of a digest names before its colon.
    pub fn of_digest(digest: &str) -> Option<Algorithm>
        ensures some { IfSome result (λ a. IsBy a digest.now) }
        ensures none { IfNone result ((a : Algorithm) → ¬ IsBy a digest.now) }
    {
        let (name, _) = digest.split_once(':')?;
        Algorithm::from_name(name)
    }
}
