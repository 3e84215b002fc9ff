// Reads numbers that are written in decimal digits.
ghost use Rattle.std.specs.Prelude.{◌≡◌, ◌≤◌, ℕ, List};
ghost use Rattle.std.specs.Option.{option_map};
ghost use Rattle.script.specs.Finds.{Finds};
ghost use Rattle.script.specs.Numbers.{decimal_value, Leads, LoneNumber, Longer, Number};

use crate::words::{first_word, lone_word};

fn decimal(b: u8) -> Option<u32>
    ensures { result ≡ decimal_value b }
{
    char::from(b).to_digit(10)
}

// A number with one more digit after it, if that is at most `most`.
fn with_digit(number: u32, b: u8, most: u32) -> Option<u32>
    ensures { Finds (λ n. Longer number b n × (n ≤ most)) result }
{
    let longer = number.checked_mul(10)?.checked_add(decimal(b)?)?;
    (longer <= most).then_some(longer)
}

// The number that a word writes, if it is at most `most`. More digits never make a number less, so the
// first one that takes it too far settles it, however long the word is.
pub(crate) fn read_number(word: &[u8], most: u32) -> Option<u32>
    ensures { Finds (λ n. Number word.now n × (n ≤ most)) result }
{
    if word.is_empty() {
        return None;
    }
    // A `try_fold` was tried, and its proof did not close: it leaves a goal over its turns that no lemma fits.
    let mut number = 0;
    for b in word {
        number = with_digit(number, *b, most)?;
    }
    Some(number)
}

// The number that the first word of a text writes, if it is at most 255, and the text after it.
pub(crate) fn first_number(text: &[u8]) -> Option<(u8, &[u8])>
    ensures { Finds (λ (p : ℕ × List ℕ). Leads text.now p.0 p.1) (option_map (λ p. (p.0, p.1.now)) result) }
{
    let (word, rest) = first_word(text)?;
    let number = read_number(word, 255)?;
    // The bound keeps it; `try_from` would be a branch that gives up.
    Some((number as u8, rest))
}

// The number that a text of one word writes, if it is at most 999999.
pub(crate) fn lone_number(text: &[u8]) -> Option<u32>
    ensures { Finds (LoneNumber text.now) result }
{
    read_number(lone_word(text)?, 999_999)
}
