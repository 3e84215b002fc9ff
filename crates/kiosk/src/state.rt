// What a register holds, line by line.
ghost use Rattle.std.specs.Prelude.{Some};
ghost use Rattle.register.specs.Views.{state_of};
ghost use Rattle.kiosk.specs.States.{entry_lines, row_lines, cell_lines, state_words};

use model::name::{NAMES, Name};
use setups::making::KioskRegister;
use std::fmt;
use words::state::{CellLine, CountLine, EntryLine};

// The entries, by rising name.
#[derive(Drop)]
struct EntryLines<'r, 'a>(&'r KioskRegister<'a>);

impl fmt::Display for EntryLines<'_, '_> {
    ghost output = { λ l. Some (entry_lines (state_of l.0.now).protection) };

    fn fmt<W: fmt::Write>(&self, f: &mut fmt::Formatter<W>) -> fmt::Result {
        for name in 0..NAMES {
            let entry = self.0.entry(name);
            write!(f, "{}", EntryLine { name, entry })?;
        }
        Ok(())
    }
}

// The cells of one row that are not empty, by rising column.
#[derive(Drop)]
struct RowLines<'r, 'a> {
    register: &'r KioskRegister<'a>,
    row: Name,
}

impl fmt::Display for RowLines<'_, '_> {
    ghost output = { λ l. Some (row_lines (state_of l.register.now).protection l.row) };

    fn fmt<W: fmt::Write>(&self, f: &mut fmt::Formatter<W>) -> fmt::Result {
        let row = self.row;
        for column in 0..NAMES {
            let mask = self.register.cell(row, column);
            write!(f, "{}", CellLine { row, column, mask })?;
        }
        Ok(())
    }
}

// The cells that are not empty, by rising row.
#[derive(Drop)]
struct CellLines<'r, 'a>(&'r KioskRegister<'a>);

impl fmt::Display for CellLines<'_, '_> {
    ghost output = { λ l. Some (cell_lines (state_of l.0.now).protection) };

    fn fmt<W: fmt::Write>(&self, f: &mut fmt::Formatter<W>) -> fmt::Result {
        let register = self.0;
        for row in 0..NAMES {
            write!(f, "{}", RowLines { register, row })?;
        }
        Ok(())
    }
}

// Entries, then cells, then the count; the last line is `end`, without a line break.
#[derive(Drop)]
pub struct StateLines<'r, 'a>(pub &'r KioskRegister<'a>);

impl fmt::Display for StateLines<'_, '_> {
    ghost output = { λ l. Some (state_words (state_of l.0.now)) };

    fn fmt<W: fmt::Write>(&self, f: &mut fmt::Formatter<W>) -> fmt::Result {
        let entries = EntryLines(self.0);
        let cells = CellLines(self.0);
        let count = CountLine(self.0.accepted());
        write!(f, "{entries}{cells}{count}end")
    }
}
