//! SHA-256 digests (image specification, "Content Descriptors", "SHA-256").
ghost use Rattle.std.specs.Prelude.{◌≡◌, ◌++◌, IfOk, IfErr, codes};
ghost use Rattle.oci_base.specs.Digest.{IsSha, digest_refusal};
ghost use Rattle.oci_base.specs.Refused.{Refuses};

use crate::digest::Digest;
use crate::fault::digest_fault;
use oci_base::{OciSpecError, Result};
use std::alloc::Global;
use std::fmt;
use std::hash::{Hash, Hasher};
use std::marker::Model;

/// The encoded part of a SHA-256 digest: 64 lowercase hexadecimal digits, as which contracts see it.
#[derive(Debug, Drop)]
pub struct Sha256Digest {
    digits: String,
}

impl Model for Sha256Digest {
    ghost use Rattle.std.specs.Prelude.{List, ℕ, string_bytes};
    ghost use Rattle.oci_base.specs.Digest.{IsSha};

    ghost Value = { List ℕ };

    ghost view = { λ d. string_bytes d.digits };

    ghost invariant = { λ d. IsSha 64 (string_bytes d.digits) };
}

impl PartialEq for Sha256Digest {
    ghost use Rattle.std.specs.Prelude.{bytes_eq};
    ghost use Rattle.std.proofs.Common.{rules};

    ghost eq = { bytes_eq };

    ghost laws = { Prim.search rules };

    fn eq(&self, other: &Sha256Digest) -> bool {
        self.digits == other.digits
    }
}

impl Eq for Sha256Digest {
    ghost use Rattle.std.proofs.Common.{rules};

    ghost laws = { Prim.search rules };
}

impl Hash for Sha256Digest {
    ghost use Rattle.std.specs.Hash as fed;
    ghost use Rattle.std.specs.Cmp.Rules.{hashing};
    ghost use Rattle.std.proofs.Common.{rules};

    ghost hash_input = { fed.str };

    ghost respects_eq = { Prim.search (hashing, rules) };

    fn hash<H: Hasher>(&self, state: &mut H) {
        self.digits.as_str().hash(state);
    }
}

impl fmt::Display for Sha256Digest {
    ghost use Rattle.std.specs.Prelude.{Some};

    ghost output = { λ d. Some d };

    fn fmt<W: fmt::Write>(&self, f: &mut fmt::Formatter<W>) -> fmt::Result {
        f.write_str(self.digits.as_str())
    }
}

impl Sha256Digest {
    /// Reads the encoded part of a SHA-256 digest. What is refused in `Other` is the text `sha256:` with this part behind it.
    pub fn from_str(alloc: Global, digits: &str) -> Result<Sha256Digest>
        ensures ok { IfOk result (λ d. d ≡ digits.now) }
        ensures sha { IfOk result (λ d. IsSha 64 digits.now) }
        ensures err { IfErr result (Refuses (digest_refusal (codes "sha256:" ++ digits.now))) }
    {
        let text = format!(in alloc; "sha256:{digits}")?;
        match digest_fault(text.as_str()) {
            Some(fault) => Err(fault.refusal(alloc)),
            None => Ok(Sha256Digest {
                digits: String::from_str(alloc, digits)?,
            }),
        }
    }

    /// The digits.
    pub fn digest(&self) -> &str
        ensures value { result.now ≡ self.now }
        ensures sha { IsSha 64 self.now }
    {
        self.digits.as_str()
    }

    /// The digits, as `digest`.
    pub fn as_ref(&self) -> &str
        ensures value { result.now ≡ self.now }
        ensures sha { IsSha 64 self.now }
    {
        self.digits.as_str()
    }

    /// The digest of algorithm `sha256` with these digits: what reading `sha256:` with them behind it gives.
    pub fn into_digest(self) -> Result<Digest>
        ensures ok { IfOk result (λ d. d ≡ codes "sha256:" ++ self) }
        ensures err { IfErr result (λ e. e ≡ OciSpecError.Memory) }
    {
        let alloc = *self.digits.allocator();
        let digits = self.digits.as_str();
        Digest::sound(format!(in alloc; "sha256:{digits}")?)
    }

    /// An equal digest.
    pub fn clone(&self) -> Result<Sha256Digest>
        ensures ok { IfOk result (λ d. d ≡ self.now) }
        ensures err { IfErr result (λ e. e ≡ OciSpecError.Memory) }
    {
        Ok(Sha256Digest {
            digits: self.digits.clone()?,
        })
    }
}
