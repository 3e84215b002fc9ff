// What a command sees of a state: the entries of its parameters, and the cells between them.
ghost use Rattle.std.specs.Prelude.{◌≡◌, cond, nat_lt, slice_index_or};
ghost use Rattle.protection.specs.Tables.{protection_of};

use model::mask::Mask;
use model::stamp::Stamp;
use scheme::test::Parameter;

mod places;
mod stamps;
mod steps;

// How many parameters a command has at most.
pub const PARAMETERS: usize = 3;

// Of one parameter's entry, the masks of what it may do with each.
type Row = [Mask; PARAMETERS];

// Row by row, the mask of what one parameter's entry may do with another's.
pub type Table = [Row; PARAMETERS];

#[derive(Clone, Copy)]
pub struct Excerpt {
    pub entries: [Option<Stamp>; PARAMETERS],
    pub cells: Table,
}

impl Excerpt {
    // The stamp of the parameter's entry; where no entry stands, and past the parameters, there is none.
    pub fn entry(&self, i: Parameter) -> Option<Stamp>
        ensures { result ≡ (protection_of self.now).entry i }
    {
        self.entries.get(usize::from(i)).copied().flatten()
    }

    // The mask in row i and column j; past the parameters there are empty cells only.
    pub fn cell(&self, i: Parameter, j: Parameter) -> Mask
        ensures { result ≡ (protection_of self.now).cells i j }
    {
        self.cells
            .get(usize::from(i))
            .map_or(0, |row| in_row(*row, j))
    }
}

// The mask in column j of a row.
fn in_row(row: Row, j: Parameter) -> Mask
    ensures { result ≡ cond (nat_lt j 3) (slice_index_or row j 0) 0 }
{
    row.get(usize::from(j)).copied().unwrap_or(0)
}
