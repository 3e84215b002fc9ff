// What a command's steps make of the cells of a store, once they have run on what its parameters see.
ghost use Rattle.std.specs.Prelude.{◌≡◌, ℕ, false};
ghost use Rattle.protection.specs.Tables.{cells_of};
ghost use Rattle.stores.specs.Matrices.{Matrix};
ghost use Rattle.changes.specs.Changes.{changed, is_renewed};
ghost use Rattle.changes.specs.Puts.{put_in};

use crate::names::Names;
use model::mask::Mask;
use model::name::Name;
use protection::excerpt::{PARAMETERS, Table};

mod counting;
mod making;

// The names that stand for the parameters; which parameters are created or destroyed; and the cells between the names, as they
// are to be.
#[derive(Clone, Copy)]
pub struct Change {
    pub names: Names,
    pub renewed: [bool; PARAMETERS],
    pub cells: Table,
}

impl Change {
    fn is_renewed(&self, i: usize) -> bool
        ensures { result ≡ is_renewed self.now.renewed i }
    {
        self.renewed.get(i).copied().unwrap_or(false)
    }

    // The mask of what one parameter may do with another.
    fn cell_between(&self, i: usize, j: usize) -> Mask
        ensures { result ≡ cells_of self.now.cells i j }
    {
        if i < PARAMETERS && j < PARAMETERS {
            self.cells[i][j]
        } else {
            0
        }
    }

    // What is put into a cell, if something is.
    fn put_in(&self, row: Name, column: Name) -> Option<Mask>
        ensures { result ≡ put_in self.now row column }
    {
        match (self.names.parameter(row), self.names.parameter(column)) {
            (Some(i), Some(j)) => Some(self.cell_between(i, j)),
            (Some(k), None) | (None, Some(k)) => self.is_renewed(k).then_some(0),
            (None, None) => None,
        }
    }

    // Whether something may be put into a cell of the row. Most rows need not be looked at.
    fn touches(&self, row: Name) -> bool
        ensures { result ≡ false → (f : Matrix) (o : ℕ) → changed self.now f row o ≡ f row o }
    {
        self.names.parameter(row).is_some() || self.renewed.iter().any(|renewed| *renewed)
    }
}
