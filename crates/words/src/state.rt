// The lines in which a state is printed: an entry, a cell, and the count.
ghost use Rattle.std.specs.Prelude.{Some};
ghost use Rattle.words.specs.States.{entry_line, cell_line, count_line};

use crate::InWords;
use crate::mask::MaskDigits;
use model::mask::Mask;
use model::name::Name;
use model::stamp::Stamp;
use std::fmt;

// What stands under a name; where no entry does, there is no line.
#[derive(Clone, Copy)]
pub struct EntryLine {
    pub name: Name,
    pub entry: Option<Stamp>,
}

impl fmt::Display for EntryLine {
    ghost output = { λ l. Some (entry_line l.name l.entry) };

    fn fmt<W: fmt::Write>(&self, f: &mut fmt::Formatter<W>) -> fmt::Result {
        let name = self.name;
        match self.entry {
            None => Ok(()),
            Some(stamp) => writeln!(f, "entry {name} {}", InWords(stamp)),
        }
    }
}

// What a cell holds; an empty cell has no line.
#[derive(Clone, Copy)]
pub struct CellLine {
    pub row: Name,
    pub column: Name,
    pub mask: Mask,
}

impl fmt::Display for CellLine {
    ghost output = { λ l. Some (cell_line l.row l.column l.mask) };

    fn fmt<W: fmt::Write>(&self, f: &mut fmt::Formatter<W>) -> fmt::Result {
        let CellLine { row, column, mask } = *self;
        if mask == 0 {
            Ok(())
        } else {
            writeln!(f, "cell {row} {column} {}", MaskDigits(mask))
        }
    }
}

// How many requests have been accepted.
#[derive(Clone, Copy)]
pub struct CountLine(pub u32);

impl fmt::Display for CountLine {
    ghost output = { λ l. Some (count_line l.0) };

    fn fmt<W: fmt::Write>(&self, f: &mut fmt::Formatter<W>) -> fmt::Result {
        let count = self.0;
        writeln!(f, "count {count}")
    }
}
