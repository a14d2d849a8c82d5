//! Bytes that are written to a buffer.
ghost use Rattle.std.specs.Prelude.{◌≤◌, length};
ghost use Rattle.idsm_api.specs.Writing.{IsWritten, Puts};

/// Writes the bytes to the front of the buffer.
pub(crate) fn put(bytes: &[u8], buffer: &mut [u8])
    requires { length bytes.now ≤ length buffer.old }
    ensures { IsWritten bytes.now buffer.old buffer.new }
{
    buffer[..bytes.len()].copy_from_slice(bytes);
}

/// Writes them if they all fit, and answers whether they do.
pub(crate) fn put_front(bytes: &[u8], buffer: &mut [u8]) -> bool
    ensures { Puts bytes.now buffer.old result buffer.new }
{
    let fits = bytes.len() <= buffer.len();
    if fits {
        put(bytes, buffer);
    }
    fits
}
