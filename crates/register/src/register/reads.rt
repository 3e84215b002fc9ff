// What a register is asked. A question changes nothing.
ghost use Rattle.std.specs.Prelude.{◌≡◌, ℕ, cond, map, None};
ghost use Rattle.stores.specs.Matrices.{is_name, on_names};
ghost use Rattle.scheme.specs.Views.{view};
ghost use Rattle.register.specs.Reads.{ruled};
ghost use Rattle.protection.specs.Sound.{Sound};
ghost use Rattle.register.specs.Views.{state_of, kept_by};

use crate::register::Register;
use model::mask::{Mask, RIGHTS, Right};
use model::name::Name;
use model::scales::Scales;
use model::stamp::Stamp;
use rulings::question::Question;
use rulings::ruling::Ruling;
use scheme::command::Command;
use stores::store::CellStore;

impl<S: Scales, C: CellStore, R: Ruling> Register<S, C, R> {
    // The stamp of the entry under a name; a name over 63 has none.
    pub fn entry(&self, name: Name) -> Option<Stamp>
        ensures value { result ≡ (state_of self.now).protection.entry name }
        ensures names { (n : ℕ) → (state_of self.now).protection.entry n ≡ cond (is_name n) ((state_of self.now).protection.entry n) None }
    {
        self.entries.get(name)
    }

    // The mask of a cell; a name over 63 has empty cells only.
    pub fn cell(&self, row: Name, column: Name) -> Mask
        ensures value { result ≡ (state_of self.now).protection.cells row column }
        ensures names { (s o : ℕ) → (state_of self.now).protection.cells s o ≡ on_names (state_of self.now).protection.cells s o }
        ensures sound { Sound (state_of self.now).protection }
    {
        self.store.read(row, column)
    }

    // How many requests have been accepted since the opening.
    pub fn accepted(&self) -> u32
        ensures { result ≡ (state_of self.now).count }
    {
        self.accepted
    }

    // The commands that the register keeps for good.
    pub fn commands(&self) -> &[Command]
        ensures { map view result.now ≡ (kept_by self.now).commands }
    {
        self.scheme.commands()
    }

    // Whether the ruling allows the right to the entry `row` on the entry `column`.
    pub fn allows(&self, row: Name, column: Name, right: Right) -> bool
        ensures { result ≡ ruled (kept_by self.now).says (state_of self.now).protection row column right }
    {
        if right >= RIGHTS {
            return false;
        }
        let stamps = self.entry(row).zip(self.entry(column));
        stamps.is_some_and(|(row_stamp, column_stamp)| {
            self.ruling.allows(&Question {
                row,
                column,
                right,
                row_stamp,
                column_stamp,
                cell: self.cell(row, column),
            })
        })
    }
}
