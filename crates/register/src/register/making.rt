// How a register is made, and what is left of it.
ghost use Rattle.std.specs.Prelude.{◌≡◌};
ghost use Rattle.scheme.specs.Views.{commands_of};
ghost use Rattle.register.specs.States.{empty_state};
ghost use Rattle.register.specs.Views.{kept_by, state_of};

use crate::register::Register;
use model::scales::Scales;
use protection::entries::Entries;
use rulings::ruling::Ruling;
use scheme_tape::lawful::LawfulScheme;
use stores::store::CellStore;

impl<S: Scales, C: CellStore, R: Ruling> Register<S, C, R> {
    // A register with no entries, empty cells and count 0, whatever the store held. It keeps the scheme for good, and so it does
    // the ruling and the store's limit.
    pub fn new(scheme: LawfulScheme<S>, mut store: C, ruling: R) -> Register<S, C, R>
        ensures state { state_of result ≡ empty_state }
        ensures kept { kept_by result ≡ record { counts = S.Scales.counts; covers = S.Scales.covering; commands = commands_of scheme.scheme; limit = C.CellStore.most store; says = R.Ruling.says ruling } }
    {
        store.clear();
        Register {
            scheme,
            entries: Entries::none(),
            store,
            ruling,
            accepted: 0,
        }
    }
}

impl<S: Scales, C: CellStore, R: Ruling + Drop> Register<S, C, R> {
    // The store, with what it holds, of a register that is given up.
    pub fn into_store(self) -> C
        ensures { result ≡ self.store }
    {
        let Register {
            scheme: _,
            entries: _,
            store,
            ruling: _,
            accepted: _,
        } = self;
        store
    }
}
