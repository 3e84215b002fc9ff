// A cell store keeps a mask for each pair of names, and has a limit on how many of them are not empty.
ghost use Rattle.std.specs.Prelude.{◌≡◌, ℕ, ◌&&◌, false, is_ok};
ghost use Rattle.model.specs.Answers.{refused_by, lowest, unless};
ghost use Rattle.stores.specs.Matrices.{Matrix, is_name, blank, written, count, takes, write_rules};

use model::fault::Reason;
use model::mask::Mask;
use model::name::Name;

// Row and column stay two numbers: `write(63, 63, mask)` reads plainer than a cell made for each call.
pub trait CellStore {
    // What the store holds.
    ghost cells: { Self → Matrix };

    // Its limit.
    ghost most: { Self → ℕ };

    // The mask of a cell; a name over 63 has empty cells only.
    fn read(&self, row: Name, column: Name) -> Mask
        ensures { result ≡ cells self.now row column };

    // Puts a mask into a cell, or refuses to and changes nothing. That the limit stays is of two states, before and
    // after, which no invariant says; a view of cells and limit would, but clauses name the two apart.
    fn write(&mut self, row: Name, column: Name, mask: Mask) -> Result<(), Reason>
        ensures answer { refused_by result ≡ lowest (write_rules (most self.old) (cells self.old) row column mask) }
        ensures taken { is_ok result ≡ takes (most self.old) (cells self.old) row column mask }
        ensures after { cells self.new ≡ unless (refused_by result) (cells self.old) (written (cells self.old) row column mask) }
        ensures limit { most self.new ≡ most self.old };

    // How many cells are not empty.
    fn filled(&self) -> usize
        ensures { result ≡ count (cells self.now) };

    // How many cells may be non-empty at a time.
    fn limit(&self) -> usize
        ensures { result ≡ most self.now };

    // Empties every cell.
    fn clear(&mut self)
        ensures after { cells self.new ≡ blank }
        ensures limit { most self.new ≡ most self.old };

    // A number that is no name has empty cells only.
    ghost of_names: { (store : Self) (row column : ℕ) → (is_name row && is_name column) ≡ false → cells store row column ≡ 0 };
}
