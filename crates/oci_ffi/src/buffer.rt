//! Buffers of the caller's.
ghost use Rattle.std.specs.Prelude.{◌≡◌, ◌≤◌, ◌++◌, length, drop};
ghost use Rattle.oci_ffi.specs.Buffers.{Fills, Overflows};

use crate::status::{BUFFER_TOO_SMALL, DONE};

/// Writes the text to the beginning of the buffer.
fn fill(text: &[u8], buffer: &mut [u8])
    requires { length text.now ≤ length buffer.old }
    ensures { buffer.new ≡ text.now ++ drop (length text.now) buffer.old }
{
    let (front, _) = buffer.split_at_mut(text.len());
    front.copy_from_slice(text);
}

/// Writes the text to the beginning of the buffer if it fits, and returns its length in any case.
pub(crate) fn put(text: &[u8], buffer: &mut [u8], output_len: &mut usize) -> u32
    ensures done { result ≡ DONE → Fills buffer.old buffer.new output_len.new text.now }
    ensures small { result ≡ BUFFER_TOO_SMALL → Overflows buffer.old buffer.new output_len.new text.now }
    ensures status { result ≤ BUFFER_TOO_SMALL }
{
    *output_len = text.len();
    if text.len() > buffer.len() {
        return BUFFER_TOO_SMALL;
    }
    fill(text, buffer);
    DONE
}
