// The register.
ghost use Rattle.protection.specs.Sound.{Sound};
ghost use Rattle.protection.specs.Standing.{standing};

use model::scales::Scales;
use protection::entries::Entries;
use rulings::ruling::Ruling;
use scheme_tape::lawful::LawfulScheme;
use stores::store::CellStore;

mod making;
mod openings;
mod reads;
mod requests;

// The scheme, the ruling and the store's limit stay as they are at the making. What the store holds is empty where no subject
// stands for the row or no entry for the column.
pub struct Register<S: Scales, C: CellStore, R: Ruling> {
    scheme: LawfulScheme<S>,
    entries: Entries,
    store: C,
    ruling: R,
    accepted: u32,
    ghost sound: { Sound (standing entries (C.CellStore.cells store)) },
}

// Written by hand, since a derive would ask `Drop` of the scales too, of which there is never a value.
impl<S: Scales, C: CellStore + Drop, R: Ruling + Drop> Drop for Register<S, C, R> {
    fn drop(self) {
        let Register {
            scheme: _,
            entries: _,
            store: _,
            ruling: _,
            accepted: _,
        } = self;
    }
}
