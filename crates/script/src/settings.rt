// Reads what a script sets: where cells are to be kept, and a filter.
ghost use Rattle.std.specs.Prelude.{◌↔◌, ℕ, codes, IsTrue};
ghost use Rattle.script.specs.Finds.{Finds};
ghost use Rattle.script.specs.Settings.{Filters, Sized};
ghost use Rattle.script.specs.Words.{Alone};

use crate::hex::read_mask;
use crate::number::{first_number, lone_number};
use crate::words::{first_word, lone_word};

// `board`, and nothing else.
pub(crate) fn is_board(rest: &[u8]) -> bool
    ensures { IsTrue result ↔ Alone rest.now (codes "board") }
{
    lone_word(rest) == Some(b"board".as_slice())
}

// How many records are to be in the list, where the text is `list` and a number.
pub(crate) fn list_size(rest: &[u8]) -> Option<u32>
    ensures { Finds (Sized rest.now) result }
{
    let (word, more) = first_word(rest)?;
    if word == b"list".as_slice() {
        lone_number(more)
    } else {
        None
    }
}

// The attribute of a filter, and the mask of its rights.
pub(crate) fn filter_parts(rest: &[u8]) -> Option<(u8, u16)>
    ensures { Finds (λ (p : ℕ × ℕ). Filters rest.now p.0 p.1) result }
{
    let (attribute, more) = first_number(rest)?;
    Some((attribute, read_mask(lone_word(more)?)?))
}
