//! Verdicts by a descriptor.
ghost use Rattle.std.specs.Prelude.{◌≡◌, ◌↔◌, ◌<◌, length, IfOk, IfSome};
ghost use Rattle.oci_content.specs.Content.{Tells, IsContentOf};

use crate::judging::{verify_bytes, verify_reader_bytes};
use crate::verdict::Verdict;
use oci_descriptor::Descriptor;
use std::io;
use std::io::Read;

/// The verdict on the bytes by a descriptor: `Same` exactly if they have the size and the digest that it says.
#[tactic(auto, using(crate::proofs::Verdicts::exact))]
pub fn verify(descriptor: &Descriptor, bytes: &[u8]) -> Verdict
    ensures tells { Tells descriptor.now.digest descriptor.now.size bytes.now result }
    ensures same { (result ≡ Verdict.Same) ↔ IsContentOf descriptor.now.digest descriptor.now.size bytes.now }
{
    verify_bytes(descriptor.digest().as_ref(), descriptor.size(), bytes)
}

/// The verdict on all that is left to read, by a descriptor. It is read in pieces of the buffer's length, and no further than the
/// size that the descriptor says and one piece. Fails with the reader's first error, an interrupted read included.
#[tactic(auto, using(crate::proofs::Verdicts::exact))]
pub fn verify_reader<R: Read>(
    descriptor: &Descriptor,
    reader: &mut R,
    buffer: &mut [u8],
) -> io::Result<Verdict>
    requires { 0 < length buffer.old }
    ensures tells { IfOk result (λ v. IfSome (R.remaining reader.old) (λ bytes. Tells descriptor.now.digest descriptor.now.size bytes v)) }
    ensures same { IfOk result (λ v. IfSome (R.remaining reader.old) (λ bytes. (v ≡ Verdict.Same) ↔ IsContentOf descriptor.now.digest descriptor.now.size bytes)) }
{
    verify_reader_bytes(
        descriptor.digest().as_ref(),
        descriptor.size(),
        reader,
        buffer,
    )
}
