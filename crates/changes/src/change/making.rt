// A change of a store's cells, whole or not at all.
ghost use Rattle.std.specs.Prelude.{◌≡◌, ℕ, ◌<◌, true, [], ◌∷◌, is_ok, nat_lt, OnErr};
ghost use Rattle.model.specs.Answers.{refused_by, lowest, unless};
ghost use Rattle.stores.specs.Matrices.{count};
ghost use Rattle.changes.specs.Changes.{changed};
ghost use Rattle.changes.specs.Making.{writes, Settled, Ready, Onward};

use crate::change::Change;
use model::fault::Reason;
use model::mask::Mask;
use model::name::{NAMES, Name};
use stores::store::CellStore;

// Cells that are to be empty are written before the others, so whatever stands between keeps within the limit too.
#[derive(Clone, Copy)]
enum Pass {
    Emptying,
    Filling,
}

impl Pass {
    fn writes(self, mask: Mask) -> bool
        ensures { result ≡ writes self mask }
    {
        match self {
            Pass::Emptying => mask == 0,
            Pass::Filling => mask != 0,
        }
    }
}

impl Change {
    // Writes what is put into a cell, if it is written in this pass.
    fn write_cell<C: CellStore>(
        &self,
        store: &mut C,
        pass: Pass,
        row: Name,
        column: Name,
    ) -> Result<(), Reason>
        requires names { (row < 64) × (column < 64) }
        requires ready { Ready pass self.now (C.CellStore.most store.old) (C.CellStore.cells store.old) }
        ensures taken { is_ok result ≡ true }
        ensures limit { C.CellStore.most store.new ≡ C.CellStore.most store.old }
        ensures onward { Onward self.now (C.CellStore.cells store.old) (C.CellStore.cells store.new) }
        ensures settled { Settled pass self.now (C.CellStore.cells store.new) row column }
    {
        match self.put_in(row, column) {
            Some(mask) if pass.writes(mask) => store.write(row, column, mask),
            _ => Ok(()),
        }
    }

    fn write_row<C: CellStore>(&self, store: &mut C, pass: Pass, row: Name) -> Result<(), Reason>
        requires name { row < 64 }
        requires ready { Ready pass self.now (C.CellStore.most store.old) (C.CellStore.cells store.old) }
        ensures taken { is_ok result ≡ true }
        ensures limit { C.CellStore.most store.new ≡ C.CellStore.most store.old }
        ensures onward { Onward self.now (C.CellStore.cells store.old) (C.CellStore.cells store.new) }
        ensures settled { (o : ℕ) → o < 64 → Settled pass self.now (C.CellStore.cells store.new) row o }
    {
        if !self.touches(row) {
            return Ok(());
        }
        for column in 0..NAMES {
            self.write_cell(store, pass, row, column)?;
        }
        Ok(())
    }

    fn write_all<C: CellStore>(&self, store: &mut C, pass: Pass) -> Result<(), Reason>
        requires { Ready pass self.now (C.CellStore.most store.old) (C.CellStore.cells store.old) }
        ensures taken { is_ok result ≡ true }
        ensures limit { C.CellStore.most store.new ≡ C.CellStore.most store.old }
        ensures onward { Onward self.now (C.CellStore.cells store.old) (C.CellStore.cells store.new) }
        ensures settled { (s : ℕ) → s < 64 → (o : ℕ) → o < 64 → Settled pass self.now (C.CellStore.cells store.new) s o }
    {
        for row in 0..NAMES {
            self.write_row(store, pass, row)?;
        }
        Ok(())
    }

    // Makes the change, or refuses to and changes nothing, where more cells would not be empty than the limit allows. The limit
    // is looked at for what is to be, and not for what stands between.
    pub fn make<C: CellStore>(&self, store: &mut C) -> Result<(), Reason>
        ensures answer { refused_by result ≡ lowest ((16, nat_lt (C.CellStore.most store.old) (count (changed self.now (C.CellStore.cells store.old)))) ∷ []) }
        ensures after { C.CellStore.cells store.new ≡ unless (refused_by result) (C.CellStore.cells store.old) (changed self.now (C.CellStore.cells store.old)) }
        ensures limit { C.CellStore.most store.new ≡ C.CellStore.most store.old }
        ensures kept { OnErr result (store.new ≡ store.old) }
    {
        if self.filled_after(store) > store.limit() {
            return Err(Reason::StoreTooSmall);
        }
        self.write_all(store, Pass::Emptying)?;
        self.write_all(store, Pass::Filling)
    }
}
