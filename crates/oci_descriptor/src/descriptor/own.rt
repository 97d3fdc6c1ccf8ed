//! What `Descriptor` has beside its record: a constructor, and the SHA-256 part of its digest.
ghost use Rattle.std.specs.Prelude.{◌≡◌};

use super::Descriptor;
use oci_text::{Digest, MediaType};

impl Descriptor {
    ghost use Rattle.std.specs.Prelude.{◌↔◌, ℕ, List, codes, option_map, Some};
    ghost use Rattle.oci_base.specs.Digest.{IsDigest};
    ghost use Rattle.oci_descriptor.specs.DescriptorOwn.{described, sha256_part};

    /// Returns a descriptor of these three members; the others are absent.
    pub fn new(media_type: MediaType, size: u64, digest: Digest) -> Descriptor
        ensures { result ≡ described media_type size digest }
    {
        Descriptor {
            media_type,
            digest,
            size,
            urls: None,
            annotations: None,
            platform: None,
            artifact_type: None,
            embedded_data: None,
        }
    }

    /// The encoded part of the digest, if its algorithm is `sha256` and only then.
    pub fn as_digest_sha256(&self) -> Option<&str>
        ensures value { (a e : List ℕ) → IsDigest self.now.digest a e → option_map (λ t. t.now) result ≡ sha256_part a e }
        ensures sha256 { (e : List ℕ) → (option_map (λ t. t.now) result ≡ Some e) ↔ IsDigest self.now.digest (codes "sha256") e }
    {
        if self.digest.algorithm().as_ref() == "sha256" {
            Some(self.digest.digest())
        } else {
            None
        }
    }
}
