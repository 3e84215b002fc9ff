// How many cells will not be empty, once a change is made.
ghost use Rattle.std.specs.Prelude.{◌≡◌, ◌+◌, ◌*◌, ◌≤◌};
ghost use Rattle.stores.specs.Matrices.{some, one_if, row_count, count};
ghost use Rattle.changes.specs.Changes.{changed};

use crate::change::Change;
use model::name::{NAMES, Name};
use stores::store::CellStore;

// How many cells that are not empty a change takes away, and how many it puts there.
#[derive(Clone, Copy)]
struct Exchange {
    lost: usize,
    gained: usize,
}

impl Change {
    fn exchange_in_cell<C: CellStore>(&self, store: &C, row: Name, column: Name) -> Exchange
        ensures exact { result.lost + one_if (some (changed self.now (C.CellStore.cells store.now) row column)) ≡ result.gained + one_if (some (C.CellStore.cells store.now row column)) }
        ensures lost { result.lost ≤ 1 }
        ensures gained { result.gained ≤ 1 }
    {
        match self.put_in(row, column) {
            Some(mask) => Exchange {
                lost: usize::from(store.read(row, column) != 0),
                gained: usize::from(mask != 0),
            },
            None => Exchange { lost: 0, gained: 0 },
        }
    }

    fn exchange_in_row<C: CellStore>(&self, store: &C, row: Name) -> Exchange
        ensures exact { result.lost + row_count (changed self.now (C.CellStore.cells store.now)) row ≡ result.gained + row_count (C.CellStore.cells store.now) row }
        ensures lost { result.lost ≤ 64 }
        ensures gained { result.gained ≤ 64 }
    {
        if !self.touches(row) {
            return Exchange { lost: 0, gained: 0 };
        }
        let mut lost = 0;
        let mut gained = 0;
        for column in 0..NAMES {
            let here = self.exchange_in_cell(store, row, column);
            lost += here.lost;
            gained += here.gained;
        }
        Exchange { lost, gained }
    }

    // How many cells of the store will not be empty. Only cells that something is put into are read, since a list looks through its
    // records for each.
    pub fn filled_after<C: CellStore>(&self, store: &C) -> usize
        ensures { result ≡ count (changed self.now (C.CellStore.cells store.now)) }
    {
        let mut lost = 0;
        let mut gained = 0;
        for row in 0..NAMES {
            let here = self.exchange_in_row(store, row);
            lost += here.lost;
            gained += here.gained;
        }
        store.filled() + gained - lost
    }
}
