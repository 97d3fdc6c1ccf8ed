//! The algorithms of digests (image specification, "Content Descriptors", "Registered Algorithms").
ghost use Rattle.std.specs.Prelude.{◌≡◌, IfOk, IfErr};
ghost use Rattle.oci_base.specs.Names.{opened, name_text};
ghost use Rattle.oci_text.specs.Algorithms.{algorithms, algorithm_name, hexlen};

use oci_base::{OciSpecError, Result};
use std::alloc::Global;
use std::fmt;

/// The algorithm of a digest. A registered one is its variant wherever this crate makes it, and never `Other`.
#[derive(Debug, Drop, PartialEq, Eq, Hash)]
pub enum DigestAlgorithm {
    /// SHA-256.
    Sha256,
    /// SHA-384, which the specification does not register.
    Sha384,
    /// SHA-512.
    Sha512,
    /// Any other text, which nothing tests.
    Other(String),
}

impl fmt::Display for DigestAlgorithm {
    ghost use Rattle.std.specs.Prelude.{Some};

    ghost output = { λ a. Some (name_text (algorithm_name a)) };

    fn fmt<W: fmt::Write>(&self, f: &mut fmt::Formatter<W>) -> fmt::Result {
        f.write_str(self.as_ref())
    }
}

impl DigestAlgorithm {
    /// The algorithm of a text, which is not tested.
    pub fn from_text(alloc: Global, text: &str) -> Result<DigestAlgorithm>
        ensures ok { IfOk result (λ a. algorithm_name a ≡ opened algorithms text.now) }
        ensures err { IfErr result (λ e. e ≡ OciSpecError.Memory) }
    {
        match text {
            "sha256" => Ok(DigestAlgorithm::Sha256),
            "sha384" => Ok(DigestAlgorithm::Sha384),
            "sha512" => Ok(DigestAlgorithm::Sha512),
            _ => Ok(DigestAlgorithm::Other(String::from_str(alloc, text)?)),
        }
    }

    /// The algorithm's text, as `sha256`.
    pub fn as_ref(&self) -> &str
        ensures { result.now ≡ name_text (algorithm_name self.now) }
    {
        match self {
            DigestAlgorithm::Sha256 => "sha256",
            DigestAlgorithm::Sha384 => "sha384",
            DigestAlgorithm::Sha512 => "sha512",
            DigestAlgorithm::Other(text) => text.as_str(),
        }
    }

    /// How many hexadecimal digits a digest of this algorithm has; none where the algorithm asks for no number.
    pub fn digest_hexlen(&self) -> Option<u32>
        ensures { result ≡ hexlen self.now }
    {
        match self {
            DigestAlgorithm::Sha256 => Some(64),
            DigestAlgorithm::Sha384 => Some(96),
            DigestAlgorithm::Sha512 => Some(128),
            DigestAlgorithm::Other(_) => None,
        }
    }

    /// An equal algorithm.
    pub fn clone(&self, alloc: Global) -> Result<DigestAlgorithm>
        ensures ok { IfOk result (λ a. algorithm_name a ≡ algorithm_name self.now) }
        ensures err { IfErr result (λ e. e ≡ OciSpecError.Memory) }
    {
        match self {
            DigestAlgorithm::Sha256 => Ok(DigestAlgorithm::Sha256),
            DigestAlgorithm::Sha384 => Ok(DigestAlgorithm::Sha384),
            DigestAlgorithm::Sha512 => Ok(DigestAlgorithm::Sha512),
            DigestAlgorithm::Other(text) => Ok(DigestAlgorithm::Other(String::from_str(
                alloc,
                text.as_str(),
            )?)),
        }
    }
}
