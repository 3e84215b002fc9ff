// Reads what is written with a stroke between.
ghost use Rattle.std.specs.Prelude.{ℕ, List, vec_items};
ghost use Rattle.std.specs.Option.{option_map};
ghost use Rattle.script.specs.Finds.{Finds};
ghost use Rattle.script.specs.Reads.{Reads};
ghost use Rattle.script.specs.Sides.{Sides, SpellsBoth, OpensEither};

use crate::error::ReadError;
use crate::hex::read_hex;
use std::alloc::Global;

// The text before the first stroke, and the text after it.
pub(crate) fn split_sides(text: &[u8]) -> Option<(&[u8], &[u8])>
    ensures { Finds (λ (p : List ℕ × List ℕ). Sides text.now p.0 p.1) (option_map (λ p. (p.0.now, p.1.now)) result) }
{
    let end = text.iter().position(|b| *b == b'/').unwrap_or(text.len());
    let (left, rest) = text.split_at(end);
    match rest {
        [] => None,
        [_, right @ ..] => Some((left, right)),
    }
}

// The bytes that the two sides spell. A second stroke is no digit, so a text that has one can't be read.
pub(crate) fn read_sides(heap: Global, text: &[u8]) -> Result<(Vec<u8>, Vec<u8>), ReadError>
    ensures { Reads (λ p. (vec_items p.0, vec_items p.1)) (λ (p : List ℕ × List ℕ). SpellsBoth text.now p.0 p.1) (OpensEither text.now) result }
{
    let (left, right) = split_sides(text).ok_or(ReadError::Unreadable)?;
    let first = read_hex(heap, left)?;
    let second = read_hex(heap, right)?;
    Ok((first, second))
}
