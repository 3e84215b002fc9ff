// Reads numbers that stand one after the other.
ghost use Rattle.std.specs.Prelude.{ℕ, [], ◌∷◌, vec_items};
ghost use Rattle.script.specs.Finds.{Finds};
ghost use Rattle.script.specs.Reads.{Reads};
ghost use Rattle.script.specs.Series.{Series, Starts};

use crate::error::ReadError;
use crate::number::first_number;
use crate::words::only_blanks;
use std::alloc::Global;

// The numbers of a text, however many. Memory can be wanting only once there is a first one.
pub(crate) fn read_series(heap: Global, text: &[u8]) -> Result<Vec<u8>, ReadError>
    ensures { Reads vec_items (Series text.now) (Starts text.now) result }
{
    let mut numbers = Vec::new(heap);
    let mut rest = text;
    while !only_blanks(rest) {
        let (number, after) = first_number(rest).ok_or(ReadError::Unreadable)?;
        numbers.push(number)?;
        rest = after;
    }
    Ok(numbers)
}

// The numbers of a text that has three.
pub(crate) fn three_numbers(text: &[u8]) -> Option<(u8, u8, u8)>
    ensures { Finds (λ (p : ℕ × ℕ × ℕ). Series text.now (p.0 ∷ p.1 ∷ p.2 ∷ [])) result }
{
    let (first, rest) = first_number(text)?;
    let (second, rest) = first_number(rest)?;
    let (third, rest) = first_number(rest)?;
    only_blanks(rest).then_some((first, second, third))
}
