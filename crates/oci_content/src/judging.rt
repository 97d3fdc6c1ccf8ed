//! Verdicts on bytes, and on what a reader gives.
ghost use Rattle.std.specs.Prelude.{◌<◌, length, IfOk, IfSome};
ghost use Rattle.oci_content.specs.Content.{Tells};

use crate::intake::Intake;
use crate::verdict::Verdict;
use std::io;
use std::io::Read;

/// The verdict on the bytes by the text of a digest and a size.
pub fn verify_bytes(digest: &str, size: u64, bytes: &[u8]) -> Verdict
    ensures { Tells digest.now size bytes.now result }
{
    let found = bytes.len() as u64;
    if found < size {
        return Verdict::Shorter(found);
    }
    if found > size {
        return Verdict::Longer;
    }
    let mut intake = Intake::of_digest(digest);
    intake.update(bytes);
    intake.finish(digest)
}

/// The verdict on all that is left to read, by the text of a digest and a size. It is read in pieces of the buffer's length, and no
/// further than the size and one piece. Fails with the reader's first error, an interrupted read included.
pub fn verify_reader_bytes<R: Read>(
    digest: &str,
    size: u64,
    reader: &mut R,
    buffer: &mut [u8],
) -> io::Result<Verdict>
    requires { 0 < length buffer.old }
    ensures { IfOk result (λ v. IfSome (R.remaining reader.old) (λ bytes. Tells digest.now size bytes v)) }
{
    let mut intake = Intake::of_digest(digest);
    let mut left = size;
    'pieces: loop {
        let count = reader.read(buffer)?;
        if count as u64 > left {
            return Ok(Verdict::Longer);
        }
        if count == 0 {
            break;
        }
        left -= count as u64;
        intake.update(&buffer[..count]);
    }
    if left > 0 {
        return Ok(Verdict::Shorter(size - left));
    }
    Ok(intake.finish(digest))
}
