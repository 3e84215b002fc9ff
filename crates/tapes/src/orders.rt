// The orders of a tape, from the first to the last.
ghost use Rattle.std.specs.Prelude.{◌≤◌, length};

use crate::tape::Tape;

mod steps;

// What has been read of the tape are its first `at` bytes; an offset in it always fits. Faults name the offset, so it is kept
// beside all bytes, and not the rest of them.
#[derive(Drop)]
pub struct Orders<'a> {
    bytes: &'a [u8],
    tape: Tape,
    at: u16,
    ghost short: { length bytes.now ≤ 65535 },
    ghost inside: { at ≤ length bytes.now },
}
