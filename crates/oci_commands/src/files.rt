//! Where a command finds its input.
ghost use Rattle.std.specs.Prelude.{◌≡◌, ℕ, List, bytes_eq, false, Option, None, IfOk, IfSome, OnOk};
ghost use Rattle.oci_content.specs.Content.{checksum_of};

use oci_content::{Algorithm, Checksum};
use std::alloc::Global;
use std::io;

/// Files by name. The name `-` is that of standard input.
pub trait Files {
    /// The bytes under a name, where they are known.
    ghost holds: { Self → List ℕ → Option (List ℕ) } = { λ _ _. None };

    /// Reads all bytes under a name. Fails if they cannot be read.
    fn read(&mut self, alloc: Global, name: &str) -> io::Result<Vec<u8>>
        ensures bytes { IfOk result (λ v. IfSome (holds self.old name.now) (λ bytes. v.items ≡ bytes)) }
        ensures kept { holds self.new ≡ holds self.old };

    /// The checksum of all bytes under a name, which may be too many to be held. Fails if they cannot be read.
    fn checksum(&mut self, algorithm: Algorithm, name: &str) -> io::Result<Checksum>
        ensures bytes { IfOk result (λ c. IfSome (holds self.old name.now) (λ bytes. c ≡ checksum_of algorithm bytes)) }
        ensures kept { holds self.new ≡ holds self.old };

    /// Reads a document, all bytes of a regular file, of which there are `limit` at most. Fails if there are more, if it is no regular
    /// file, as a named pipe, or if it cannot be read.
    fn read_document(&mut self, alloc: Global, name: &str, limit: u64) -> io::Result<Vec<u8>>
        ensures { IfOk result (λ v. IfSome (holds self.old name.now) (λ bytes. v.items ≡ bytes)) };

    /// Puts these bytes under a name, in place of all that was there; nothing else is changed. Fails if they cannot be written, and
    /// then what was there is unchanged if the system allows.
    fn replace(&mut self, alloc: Global, name: &str, bytes: &[u8]) -> io::Result<()>
        ensures put { OnOk result (IfSome (holds self.new name.now) (λ b. b ≡ bytes.now)) }
        ensures others { (q : List ℕ) → bytes_eq q name.now ≡ false → holds self.new q ≡ holds self.old q };
}
