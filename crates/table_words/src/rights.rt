// What stands in a cell of the table: the rights of a mask, by their numbers.
ghost use Rattle.std.specs.Prelude.{Some};
ghost use Rattle.table_words.specs.Tables.{right_word, right_words, cell_words};

use model::mask::{Mask, RIGHTS, Right, holds};
use std::fmt;

// A right, after a space, if the mask has it.
#[derive(Clone, Copy)]
struct RightWord {
    mask: Mask,
    right: Right,
}

impl fmt::Display for RightWord {
    ghost output = { λ w. Some (right_word w.mask w.right) };

    fn fmt<W: fmt::Write>(&self, f: &mut fmt::Formatter<W>) -> fmt::Result {
        let RightWord { mask, right } = *self;
        if holds(mask, right) {
            write!(f, " {right}")
        } else {
            Ok(())
        }
    }
}

#[derive(Clone, Copy)]
struct RightWords(Mask);

impl fmt::Display for RightWords {
    ghost output = { λ w. Some (right_words w.0) };

    fn fmt<W: fmt::Write>(&self, f: &mut fmt::Formatter<W>) -> fmt::Result {
        let mask = self.0;
        for right in 0..RIGHTS {
            write!(f, "{}", RightWord { mask, right })?;
        }
        Ok(())
    }
}

// A cell without its left border. An empty one has a dash.
#[derive(Clone, Copy)]
pub struct CellWords(pub Mask);

impl fmt::Display for CellWords {
    ghost output = { λ c. Some (cell_words c.0) };

    fn fmt<W: fmt::Write>(&self, f: &mut fmt::Formatter<W>) -> fmt::Result {
        let mask = self.0;
        if mask == 0 {
            write!(f, " - |")
        } else {
            write!(f, "{} |", RightWords(mask))
        }
    }
}
