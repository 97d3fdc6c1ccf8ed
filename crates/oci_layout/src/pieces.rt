//! Reading what is no larger than is said.
ghost use Rattle.std.specs.Prelude.{◌<◌, length, IfOk, IfSome};
ghost use Rattle.oci_layout.specs.Looks.{IsCut};

use std::alloc::{AllocError, Global};
use std::io;
use std::io::Read;

/// All that is left to read, or a beginning of it that is longer than `size`; why not, where a read fails. Fails if out of memory.
pub fn read_sized<R: Read>(
    alloc: Global,
    reader: &mut R,
    size: u64,
    buffer: &mut [u8],
) -> Result<io::Result<Vec<u8>>, AllocError>
    requires { 0 < length buffer.old }
    ensures { IfOk result (λ read. IfOk read (λ bytes. IfSome (R.remaining reader.old) (λ all. IsCut bytes.items all size))) }
{
    let mut bytes = Vec::new(alloc);
    'pieces: loop {
        let count = match reader.read(buffer) {
            Ok(count) => count,
            Err(fault) => return Ok(Err(fault)),
        };
        if count == 0 {
            break;
        }
        bytes.extend_from_slice(&buffer[..count])?;
        if bytes.len() as u64 > size {
            break;
        }
    }
    Ok(Ok(bytes))
}
