//! The calls of a verification.
ghost use Rattle.std.specs.Prelude.{◌≡◌, ◌⊎◌, false, codes, None, IsTrue, IfSome};
ghost use Rattle.oci_layout.specs.Sound.{IsLarger, IsSoundLayout};
ghost use Rattle.oci_verify.specs.Layouts.{IsAnswer, IsRightLayout, OverSteady};

use crate::options::Options;
use crate::program::{Verification, complain};
use crate::progress::Watch;
use oci_findings::RuleBooks;
use oci_layout::ImageLayout;
use std::alloc::Global;
use std::io::Write;

/// What verifies image layouts, in a folder by `verify`, and in an archive by `verify_archive`.
pub struct Verifier<'a, B, C> {
    /// How they are verified, and how that is reported.
    pub options: &'a Options<'a>,
    /// The rules of the specifications.
    pub books: &'a B,
    /// What says when progress is to be reported.
    pub watch: &'a C,
    pub alloc: Global,
}

impl<'a, B, C> Drop for Verifier<'a, B, C> {
    fn drop(self) {
        let Verifier {
            options,
            books,
            watch,
            alloc,
        } = self;
    }
}

impl<'a, B: RuleBooks, C: Watch> Verifier<'a, B, C> {
    /// Verifies all that the index of a layout reaches, reports what it finds, and returns the exit status: 0 if nothing stands against the
    /// layout, 1 if something does, and 3 if it has no index that can be read, if a write failed, or if out of memory. A line on the
    /// standard error then says which, but where the reader of what is written has gone away.
    ///
    /// Of a layout whose reads cannot fail, as one in memory, and whose contents are bytes, 0 says that it is right, and 1 that it is not:
    /// its marker, its index, what the index reaches, what the documents of each image agree on, that its layers in gzip's format unpack to
    /// what the DiffIDs of its configuration say, all that `check` asks of each document by the same options, and, where
    /// warnings count, that all of it is there and reached. Of a quick look nothing is said, though documents are checked by it too. The
    /// marker is no document that the index reaches: of it no rules are asked.
    pub fn verify<L: ImageLayout, W: Write, E: Write>(
        &self,
        layout: &L,
        writer: &mut W,
        errors: &mut E,
    ) -> u8
        ensures status { (result ≡ 0) ⊎ ((result ≡ 1) ⊎ (result ≡ 3)) }
        ensures sound { result ≡ 0 → self.now.options.now.quick ≡ false → IsSoundLayout self.now.options.now.limit (L.tops layout.now) (L.contents layout.now) }
        ensures right { self.now.options.now.quick ≡ false → OverSteady (L.steady layout.now) (L.tops layout.now) (L.contents layout.now)
            (λ tops contents. IsAnswer result (IsRightLayout (B.rules self.now.books.now) self.now.options.now (L.names layout.now) tops contents)) }
        ensures no_index { IfSome (L.tops layout.now) (λ tops. tops (codes "index.json") ≡ None → result ≡ 3) }
        ensures too_large { IfSome (L.tops layout.now) (λ tops. IsLarger self.now.options.now.limit (tops (codes "index.json")) → (result ≡ 1) ⊎ (result ≡ 3)) }
    {
        let verification = Verification {
            layout,
            options: self.options,
            books: self.books,
            watch: self.watch,
            alloc: self.alloc,
        };
        match verification.verify(writer, errors) {
            Ok(is_right) => status_of(is_right),
            Err(refusal) => {
                complain(&refusal, self.alloc, errors);
                3
            }
        }
    }
}

/// The status of a verification that came to its end.
fn status_of(is_right: bool) -> u8
    ensures status { (result ≡ 0) ⊎ (result ≡ 1) }
    ensures right { IsTrue is_right → result ≡ 0 }
    ensures wrong { is_right ≡ false → result ≡ 1 }
    ensures zero { result ≡ 0 → IsTrue is_right }
{
    if is_right { 0 } else { 1 }
}
