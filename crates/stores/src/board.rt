// A board: one mask for each pair of names, in memory that the caller lends.
ghost use Rattle.std.specs.Prelude.{◌≡◌, ◌+◌, ◌*◌, ◌≤◌, ◌&&◌, if◌then◌else◌, Some, None, is_ok, slice_set};
ghost use Rattle.model.specs.Answers.{accepted, refused, refused_by, lowest, unless};
ghost use Rattle.stores.specs.Boards.{fits_board, board_limit, shown, emptied};
ghost use Rattle.stores.specs.Matrices.{is_name, blank, written, some, one_if, takes, write_rules};
ghost use Rattle.stores.specs.Unfit.{made_answer, handed_back};
ghost use Rattle.std.proofs.Common.{rules};

use crate::store::CellStore;
use crate::unfit::Unfit;
use model::fault::{Fault, Layer, Reason};
use model::mask::Mask;
use model::name::{NAMES, Name};
use std::marker::Model;

// How many pairs of names there are.
pub const CELLS: usize = 4096;

// The masks of all cells, and how many of them are not empty.
#[derive(Drop)]
pub struct Board<'a> {
    masks: &'a mut [Mask],
    filled: usize,
}

// A contract sees a board as its masks. The number follows from them, so it is in the invariant and not in the view.
impl<'a> Model for Board<'a> {
    ghost use Rattle.std.specs.Prelude.{ℕ, List};
    ghost use Rattle.stores.specs.Boards.{IsBoard};

    ghost Value = { List ℕ };

    ghost view = { λ b. b.masks.now };

    ghost invariant = { λ b. IsBoard b.masks.now b.filled };
}

// Row by row, and in a row column by column; a name over 63 has no place.
fn place_of(row: Name, column: Name) -> Option<usize>
    ensures { result ≡ (if is_name row && is_name column then Some (64 * row + column) else None) }
{
    if row < NAMES && column < NAMES {
        Some(64 * usize::from(row) + usize::from(column))
    } else {
        None
    }
}

// How many cells are not empty, after one of them has changed from an old mask to a new one.
fn filled_after(filled: usize, old: Mask, new: Mask) -> usize
    requires counted { one_if (some old) ≤ filled }
    requires limit { filled ≤ board_limit }
    ensures { result + one_if (some old) ≡ filled + one_if (some new) }
{
    match (old == 0, new == 0) {
        (true, false) => filled + 1,
        (false, true) => filled - 1,
        _ => filled,
    }
}

impl<'a> Board<'a> {
    // Empties the memory, or hands it back as it was where it is not 4,096 masks.
    #[tactic(auto, using(crate::proofs::Placing::none_counted))]
    pub fn new(memory: &'a mut [Mask]) -> Result<Board<'a>, Unfit<&'a mut [Mask]>>
        ensures answer { made_answer (λ b. b) result ≡ (if fits_board memory.old then accepted (emptied memory.old) else refused 7 22 0) }
        ensures back { handed_back (λ x. x.now) result ≡ (if fits_board memory.old then None else Some memory.old) }
    {
        if memory.len() != CELLS {
            let fault = Fault {
                layer: Layer::Parts,
                reason: Reason::BoardSize,
                place: 0,
            };
            return Err(Unfit { fault, memory });
        }
        memory.fill(0);
        Ok(Board {
            masks: memory,
            filled: 0,
        })
    }

    // Ends the loan and gives the memory back as it stands.
    pub fn into_memory(self) -> &'a mut [Mask]
        ensures { result.now ≡ self.entry }
    {
        let Board { masks, filled: _ } = self;
        masks
    }
}

impl CellStore for Board<'_> {
    ghost cells = { shown };

    ghost most = { λ b. board_limit };

    ghost of_names = { Prim.search rules };

    fn read(&self, row: Name, column: Name) -> Mask {
        match place_of(row, column) {
            Some(place) => self.masks[place],
            None => 0,
        }
    }

    fn write(&mut self, row: Name, column: Name, mask: Mask) -> Result<(), Reason>
        ensures answer { refused_by result ≡ lowest (write_rules board_limit (shown self.old) row column mask) }
        ensures taken { is_ok result ≡ takes board_limit (shown self.old) row column mask }
        ensures after { shown self.new ≡ unless (refused_by result) (shown self.old) (written (shown self.old) row column mask) }
        ensures memory { self.new ≡ unless (refused_by result) self.old (slice_set self.old (64 * row + column) mask) }
    {
        let place = place_of(row, column).ok_or(Reason::NoSuchName)?;
        self.filled = filled_after(self.filled, self.masks[place], mask);
        self.masks[place] = mask;
        Ok(())
    }

    fn filled(&self) -> usize {
        self.filled
    }

    fn limit(&self) -> usize {
        CELLS
    }

    #[tactic(auto, using(crate::proofs::Placing::none_counted))]
    fn clear(&mut self)
        ensures after { shown self.new ≡ blank }
        ensures memory { self.new ≡ emptied self.old }
    {
        self.masks.fill(0);
        self.filled = 0;
    }
}
