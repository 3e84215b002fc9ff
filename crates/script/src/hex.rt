// Reads bytes that are written as pairs of hex digits.
ghost use Rattle.std.specs.Prelude.{◌≡◌, vec_items};
ghost use Rattle.std.specs.Option.{option_map};
ghost use Rattle.script.specs.Finds.{Finds};
ghost use Rattle.script.specs.Reads.{Reads};
ghost use Rattle.script.specs.Hex.{digit_value, byte_value, leading_pair, Mask, Spells, OneSpelling, Opens};

use crate::error::ReadError;
use crate::words::past_blanks;
use std::alloc::Global;

// With the radix a parameter, this and `decimal` would be the library's call. A digit is below 16, so the cast keeps it;
// `try_from` would be a branch that gives up.
fn digit(b: u8) -> Option<u8>
    ensures { result ≡ digit_value b }
{
    char::from(b).to_digit(16).map(|value| value as u8)
}

// The byte that two digits spell.
fn byte(a: u8, b: u8) -> Option<u8>
    ensures { result ≡ byte_value a b }
{
    Some(16 * digit(a)? + digit(b)?)
}

// The byte that the first two digits of a text spell, and the text after them.
fn first_pair(text: &[u8]) -> Option<(u8, &[u8])>
    ensures { option_map (λ p. (p.0, p.1.now)) result ≡ leading_pair text.now }
{
    let [a, b, rest @ ..] = text else {
        return None;
    };
    Some((byte(*a, *b)?, rest))
}

// The bytes that a text spells. Memory can be wanting only once there is a first pair.
#[tactic(auto, using(crate::proofs::Spelling::one_spelling))]
pub fn read_hex(heap: Global, text: &[u8]) -> Result<Vec<u8>, ReadError>
    ensures read { Reads vec_items (Spells text.now) (Opens text.now) result }
    ensures one { OneSpelling }
{
    let mut bytes = Vec::new(heap);
    let mut rest = past_blanks(text);
    // No index is counted: each turn takes a pair and the blanks after it off the front.
    while !rest.is_empty() {
        let (value, after) = first_pair(rest).ok_or(ReadError::Unreadable)?;
        bytes.push(value)?;
        rest = past_blanks(after);
    }
    Ok(bytes)
}

// The mask that a word of four digits spells.
pub(crate) fn read_mask(word: &[u8]) -> Option<u16>
    ensures { Finds (Mask word.now) result }
{
    let [a, b, c, d] = word else {
        return None;
    };
    Some(u16::from_be_bytes([byte(*a, *b)?, byte(*c, *d)?]))
}
