//! Digests (image specification, "Content Descriptors", "Digests").
ghost use Rattle.std.specs.Prelude.{◌≡◌, ◌↔◌, ◌∷◌, ◌++◌, List, ℕ, length, IfOk, IfErr, IsTrue, string_bytes};
ghost use Rattle.oci_base.specs.Classes.{until, after, colon};
ghost use Rattle.oci_base.specs.Digest.{IsDigest, IsDigestText, digest_refusal};
ghost use Rattle.oci_base.specs.Names.{opened};
ghost use Rattle.oci_base.specs.Refused.{Refuses};
ghost use Rattle.oci_text.specs.Algorithms.{algorithms, algorithm_name};
ghost use Rattle.oci_text.specs.CutDigests.{IsCutDigest};

use crate::digest_algorithm::DigestAlgorithm;
use crate::fault::{are_lower_hex, digest_fault};
use oci_base::{OciSpecError, Result};
use oci_model::OciMember;
use oci_model::fault::refused;
use oci_model::parts::into_text;
use serde_json::Value;
use std::alloc::Global;
use std::fmt;
use std::hash::{Hash, Hasher};
use std::marker::Model;

/// The name of a content: an algorithm, a colon and what the algorithm made of the content (image specification,
/// "Content Descriptors", "Digests"). Contracts see its text, and digests are equal, hashed and displayed as their texts are.
#[derive(Debug, Drop)]
pub struct Digest {
    algorithm: DigestAlgorithm,
    text: String,
    split: usize,
}

impl Model for Digest {
    ghost use Rattle.std.specs.Prelude.{List, ℕ, string_bytes};
    ghost use Rattle.oci_text.specs.DigestInside.{IsSound};

    ghost Value = { List ℕ };

    ghost view = { λ d. string_bytes d.text };

    ghost invariant = { IsSound };
}

impl PartialEq for Digest {
    ghost use Rattle.std.specs.Prelude.{bytes_eq};
    ghost use Rattle.std.proofs.Common.{rules};

    ghost eq = { bytes_eq };

    ghost laws = { Prim.search rules };

    fn eq(&self, other: &Digest) -> bool {
        self.text == other.text
    }
}

impl Eq for Digest {
    ghost use Rattle.std.proofs.Common.{rules};

    ghost laws = { Prim.search rules };
}

impl Hash for Digest {
    ghost use Rattle.std.specs.Hash as fed;
    ghost use Rattle.std.specs.Cmp.Rules.{hashing};
    ghost use Rattle.std.proofs.Common.{rules};

    ghost hash_input = { fed.str };

    ghost respects_eq = { Prim.search (hashing, rules) };

    fn hash<H: Hasher>(&self, state: &mut H) {
        self.text.as_str().hash(state);
    }
}

impl fmt::Display for Digest {
    ghost use Rattle.std.specs.Prelude.{Some};

    ghost output = { λ d. Some d };

    fn fmt<W: fmt::Write>(&self, f: &mut fmt::Formatter<W>) -> fmt::Result {
        f.write_str(self.text.as_str())
    }
}

impl Digest {
    /// Reads a digest. A text that is none is refused in `Other`, with the first rule that it breaks.
    #[tactic(auto, using(crate::proofs::CutDigests::is_some_digest))]
    pub fn from_str(alloc: Global, text: &str) -> Result<Digest>
        ensures ok { IfOk result (λ d. d ≡ text.now) }
        ensures digest { IfOk result (λ d. IsDigestText text.now) }
        ensures err { IfErr result (Refuses (digest_refusal text.now)) }
    {
        match digest_fault(text) {
            Some(fault) => Err(fault.refusal(alloc)),
            None => Digest::sound(String::from_str(alloc, text)?),
        }
    }

    /// Reads a digest of a text, which becomes the digest's own.
    #[tactic(auto, using(crate::proofs::CutDigests::is_some_digest))]
    pub fn try_from(text: String) -> Result<Digest>
        ensures ok { IfOk result (λ d. d ≡ string_bytes text) }
        ensures digest { IfOk result (λ d. IsDigestText (string_bytes text)) }
        ensures err { IfErr result (Refuses (digest_refusal (string_bytes text))) }
    {
        let alloc = *text.allocator();
        match digest_fault(text.as_str()) {
            Some(fault) => Err(fault.refusal(alloc)),
            None => Digest::sound(text),
        }
    }

    /// The digest of a text that is one.
    pub(crate) fn sound(text: String) -> Result<Digest>
        requires { IsCutDigest (string_bytes text) }
        ensures ok { IfOk result (λ d. d ≡ string_bytes text) }
        ensures err { IfErr result (λ e. e ≡ OciSpecError.Memory) }
    {
        let split = algorithm_len(text.as_str());
        let algorithm = DigestAlgorithm::from_text(*text.allocator(), &text.as_str()[..split])?;
        Ok(Digest {
            algorithm,
            text,
            split,
        })
    }

    /// The algorithm. A registered one is its variant and never `Other`.
    #[tactic(auto, using(crate::proofs::CutDigests::of_algorithm, crate::proofs::CutDigests::is_some_digest))]
    pub fn algorithm(&self) -> &DigestAlgorithm
        ensures digest { IsDigestText self.now }
        ensures value { (a e : List ℕ) → IsDigest self.now a e → algorithm_name result.now ≡ opened algorithms a }
    {
        &self.algorithm
    }

    /// The encoded part: what follows the colon.
    #[tactic(auto, using(crate::proofs::CutDigests::of_encoded, crate::proofs::CutDigests::is_some_digest))]
    pub fn digest(&self) -> &str
        ensures digest { IsDigestText self.now }
        ensures value { (a e : List ℕ) → IsDigest self.now a e → result.now ≡ e }
    {
        &self.text.as_str()[self.split + 1..]
    }

    /// The text.
    #[tactic(auto, using(crate::proofs::CutDigests::is_some_digest))]
    pub fn as_ref(&self) -> &str
        ensures digest { IsDigestText self.now }
        ensures value { result.now ≡ self.now }
    {
        self.text.as_str()
    }

    /// Returns an equal digest. Fails with `Memory` alone.
    pub fn clone(&self) -> Result<Digest>
        ensures ok { IfOk result (λ d. d ≡ self.now) }
        ensures err { IfErr result (λ e. e ≡ OciSpecError.Memory) }
    {
        let alloc = *self.text.allocator();
        Ok(Digest {
            algorithm: self.algorithm.clone(alloc)?,
            text: self.text.clone()?,
            split: self.split,
        })
    }
}

impl OciMember for Digest {
    ghost use Rattle.oci_model.specs.Shape.{digest_text};
    ghost use Rattle.oci_model.specs.Plain as plain_tree;
    ghost use Rattle.oci_model.specs.Same.{same_bytes};

    ghost shape = { digest_text };

    ghost plain = { λ d. plain_tree.text d };

    #[tactic(auto, using(oci_model::proofs::Readers::no_text, oci_model::proofs::Readers::not_digest))]
    fn read(_alloc: Global, value: Value) -> Result<Digest> {
        match into_text(value) {
            Some(text) => {
                if is_digest(text.as_str()) {
                    Digest::sound(text)
                } else {
                    drop(text);
                    Err(refused("", ""))
                }
            }
            None => Err(refused("", "")),
        }
    }

    fn write(&self, alloc: Global) -> Result<Value> {
        Ok(Value::String(String::from_str(alloc, self.as_ref())?))
    }

    fn copy(&self, _alloc: Global) -> Result<Digest> {
        self.clone()
    }

    ghost well_formed = { tt };

    ghost same = { same_bytes };
}

/// Returns whether the text is a digest (image specification, "Descriptor", "Digests").
pub fn is_digest(text: &str) -> bool
    ensures { IsTrue result ↔ IsDigestText text.now }
{
    is_plain_sha256(text) || digest_fault(text).is_none()
}

/// Returns whether the text is `sha256:` and its digits, as most digests are, without a look at each rule.
fn is_plain_sha256(text: &str) -> bool
    ensures { IsTrue result → IsDigestText text.now }
{
    match text.as_bytes().strip_prefix(b"sha256:") {
        Some(digits) => digits.len() == 64 && are_lower_hex(digits),
        None => false,
    }
}

// where the algorithm ends
fn algorithm_len(text: &str) -> usize
    requires { IsCutDigest text.now }
    ensures value { result ≡ length (until colon text.now) }
    ensures cut { text.now ≡ until colon text.now ++ colon ∷ after colon text.now }
{
    match text.split_once(':') {
        None => text.len(),
        Some((algorithm, _)) => algorithm.len(),
    }
}
