// Putting bytes into a buffer.
ghost use Rattle.std.specs.Prelude.{◌+◌, ◌≤◌, length};
ghost use Rattle.writing.specs.Buffers.{Put};

// Puts the bytes at a place of the buffer, and tells the place after them.
pub(crate) fn put(buffer: &mut [u8], at: usize, bytes: &[u8]) -> usize
    requires { at + length bytes.now ≤ length buffer.old }
    ensures { Put at bytes.now buffer.old result buffer.new }
{
    let next = at + bytes.len();
    buffer[at..next].copy_from_slice(bytes);
    next
}
