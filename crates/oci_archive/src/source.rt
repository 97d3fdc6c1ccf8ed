//! Bytes that are read from any place.
ghost use Rattle.std.specs.Prelude.{◌≡◌, ◌<◌, true, length, IfOk, IfSome, IsOk};
ghost use Rattle.oci_content.specs.Content.{Tells};
ghost use Rattle.oci_layout.specs.Looks.{IsCut};
ghost use Rattle.oci_archive.specs.Sources.{GivesPart};

use oci_content::Verdict;
use std::alloc::{AllocError, Global};
use std::io;
use std::io::Read;

/// Bytes of which parts are read, in any order and as often as is asked.
pub trait Source {
    ghost use Rattle.std.specs.Prelude.{ℕ, List, Option, Bool};

    type Part: Read + Drop;

    // the bytes, where they are known
    ghost bytes: { Self → Option (List ℕ) };

    // whether all of them can be read, and no read fails
    ghost steady: { Self → Bool };

    /// The bytes from place `at` on, at most `size` of them, and how many these are. Fails where they cannot be read.
    fn part(&self, at: u64, size: u64) -> io::Result<(Self::Part, u64)>
        ensures { GivesPart Self.Part.remaining (steady self.now) (bytes self.now) at size result };

    /// The verdict on all that is left to read of a part, by the text of a digest and a size, read in pieces of the buffer's length. Fails
    /// where a read fails.
    fn verify(
        &self,
        part: &mut Self::Part,
        digest: &str,
        size: u64,
        buffer: &mut [u8],
    ) -> io::Result<Verdict>
        requires { 0 < length buffer.old }
        ensures tells { IfOk result (λ v. IfSome (Self.Part.remaining part.old) (λ bytes. Tells digest.now size bytes v)) }
        ensures sure { steady self.now ≡ true → IsOk result };

    /// All that is left to read of a part, or a beginning of it that is longer than `size`, read in pieces of the buffer's length; why
    /// not, where a read fails. Fails if out of memory.
    fn read(
        &self,
        alloc: Global,
        part: &mut Self::Part,
        size: u64,
        buffer: &mut [u8],
    ) -> Result<io::Result<Vec<u8>>, AllocError>
        requires { 0 < length buffer.old }
        ensures cut { IfOk result (λ read. IfOk read (λ bytes. IfSome (Self.Part.remaining part.old) (λ all. IsCut bytes.items all size))) }
        ensures sure { steady self.now ≡ true → IfOk result IsOk };
}
