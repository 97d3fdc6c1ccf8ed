ghost use Rattle.std.specs.Prelude.{◌≡◌, ℕ, ◌+◌, ◌<◌, ◌↔◌, List, [], ◌∷◌, ◌++◌, length, IsTrue, Option, Ok, Err, IfOk, IfErr, ◌⊎◌};
ghost use Rattle.oci_reference.specs.Reference.{IsReference};
ghost use Rattle.oci_reference.specs.Scanner.{step, Stands, counted, places, found};

mod digest;
mod domain;
mod path;
mod places;
mod tag;

use crate::error::ParseError;
use digest::DigestState;
use domain::DomainState;
use path::PathState;
pub use places::Places;
use tag::TagState;

const _: () = prove!(size_of::<Scanner>() <= 128);

/// Reads a reference byte by byte, and keeps places, counts and states, but no text. At every moment it tells whether the
/// bytes so far are a reference.
#[derive(Clone, Copy, Debug, PartialEq, Eq)]
pub struct Scanner {
    count: usize,
    domain: DomainState,
    path: PathState,
    tag: TagState,
    digest: DigestState,
    name: usize,
    tag_begin: usize,
    closed_tag: Option<(usize, usize)>,
    digest_begin: usize,
}

impl Scanner {
    /// A scanner that no byte was pushed to.
    pub fn new() -> Self
        ensures { Stands result [] }
    {
        Scanner {
            count: 0,
            domain: DomainState::BeforeLabel,
            path: PathState::BeforeRun,
            tag: TagState::NoTag,
            digest: DigestState::NoDigest,
            name: 0,
            tag_begin: 0,
            closed_tag: None,
            digest_begin: 0,
        }
    }

    /// Takes the next byte, of any value. The caller sees to `room`.
    pub fn push(&mut self, b: u8)
        requires { counted self.old < usize.MAX }
        ensures { (t : List ℕ) → Stands self.old t → Stands self.new (t ++ b ∷ []) }
    {
        *self = self.after(b);
    }

    fn after(&self, b: u8) -> Self
        requires { counted self.now < usize.MAX }
        ensures { result ≡ step self.now b }
    {
        let named = self.path.is_whole();
        let tagged = self.tag.is_whole();
        Scanner {
            count: self.count + 1,
            domain: self.domain.next(b),
            path: if b == b'/' && self.domain.is_whole() {
                PathState::BeforeRun
            } else {
                self.path.next(b)
            },
            tag: if b == b':' && named {
                TagState::BeforeTag
            } else {
                self.tag.next(b)
            },
            digest: if b == b'@' && (named || tagged) {
                DigestState::BeforeWord
            } else {
                self.digest.next(b)
            },
            name: if named { self.count } else { self.name },
            tag_begin: if b == b':' {
                self.count + 1
            } else {
                self.tag_begin
            },
            closed_tag: if named {
                None
            } else if tagged {
                Some((self.tag_begin, self.count))
            } else {
                self.closed_tag
            },
            digest_begin: if b == b'@' {
                self.count + 1
            } else {
                self.digest_begin
            },
        }
    }

    /// How many bytes were pushed.
    pub fn count(&self) -> usize
        ensures { (t : List ℕ) → Stands self.now t → result ≡ length t }
    {
        self.count
    }

    /// Whether one more byte can be pushed: fewer than `usize::MAX` were.
    pub fn room(&self) -> bool
        ensures { IsTrue result ↔ (counted self.now < usize.MAX) }
    {
        self.count < usize::MAX
    }

    /// The places of the parts, if the bytes so far are a reference. No byte at all is `NameEmpty`, and bytes outside the
    /// grammar are `ReferenceInvalidFormat`.
    pub fn finish(&self) -> Result<Places, ParseError>
        ensures ok { (t : List ℕ) → Stands self.now t → IfOk result (λ p.
            (n : List ℕ) × (g : Option (List ℕ)) × (d : Option (List ℕ)) × IsReference t n g d × (p ≡ places n g d)) }
        ensures only { (t n : List ℕ) (g d : Option (List ℕ)) → Stands self.now t → IsReference t n g d → result ≡ Ok (places n g d) }
        ensures empty { (t : List ℕ) → Stands self.now t → (result ≡ Err ParseError.NameEmpty) ↔ (t ≡ []) }
        ensures err { IfErr result (λ e. (e ≡ ParseError.NameEmpty) ⊎ (e ≡ ParseError.ReferenceInvalidFormat)) }
    {
        match self.whole() {
            Some(places) => Ok(places),
            None if self.count == 0 => Err(ParseError::NameEmpty),
            None => Err(ParseError::ReferenceInvalidFormat),
        }
    }

    fn whole(&self) -> Option<Places>
        ensures { result ≡ found self.now }
    {
        if self.path.is_whole() {
            Some(Places {
                name: self.count,
                tag: None,
                digest: None,
            })
        } else if self.tag.is_whole() {
            Some(Places {
                name: self.name,
                tag: Some((self.tag_begin, self.count)),
                digest: None,
            })
        } else if self.digest.is_whole() {
            Some(Places {
                name: self.name,
                tag: self.closed_tag,
                digest: Some((self.digest_begin, self.count)),
            })
        } else {
            None
        }
    }
}
