// Reads what a certificate is to be made for.
ghost use Rattle.std.specs.Prelude.{ℕ, List};
ghost use Rattle.std.specs.Option.{option_map};
ghost use Rattle.script.specs.Finds.{Finds};
ghost use Rattle.script.specs.Making.{Buffered};

use crate::number::lone_number;
use crate::sides::split_sides;

// The size of the buffer where none is said. Any certificate finds room in it.
const FULL_SIZE: u32 = 5312;

// The size of the buffer, and the text of the bans.
pub(crate) fn split_size(text: &[u8]) -> Option<(u32, &[u8])>
    ensures { Finds (λ (p : ℕ × List ℕ). Buffered text.now p.0 p.1) (option_map (λ p. (p.0, p.1.now)) result) }
{
    match split_sides(text) {
        None => Some((FULL_SIZE, text)),
        Some((size, bans)) => Some((lone_number(size)?, bans)),
    }
}
