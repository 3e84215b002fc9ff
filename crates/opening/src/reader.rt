// The opening reader.
ghost use Rattle.std.specs.Prelude.{◌≡◌};
ghost use Rattle.model.specs.Answers.{answer};
ghost use Rattle.protection.specs.Sound.{Sound};
ghost use Rattle.protection.specs.Standing.{standing};
ghost use Rattle.protection.specs.States.{nothing};
ghost use Rattle.opening.specs.Opened.{Opened, OpenedExactly, TakenIn};
ghost use Rattle.opening.specs.Reading.{OneReading};
ghost use Rattle.opening.specs.Worked.{SmallKiosk};

use crate::orders::take_in;
use model::counts::Counts;
use model::fault::Fault;
use protection::entries::Entries;
use stores::store::CellStore;
use tapes::orders::Orders;
use tapes::tape::Tape;

// Nothing stands any more.
fn empty<C: CellStore>(entries: &mut Entries, store: &mut C)
    ensures after { standing entries.new (C.CellStore.cells store.new) ≡ nothing }
    ensures limit { C.CellStore.most store.new ≡ C.CellStore.most store.old }
{
    *entries = Entries::none();
    store.clear();
}

// Take in the orders of the tape one by one, up to the first that breaks a rule.
fn read_orders<C: CellStore>(
    counts: &Counts,
    tape: &[u8],
    entries: &mut Entries,
    store: &mut C,
) -> Result<(), Fault>
    requires { standing entries.old (C.CellStore.cells store.old) ≡ nothing }
    ensures taken { TakenIn counts.now (C.CellStore.most store.old) tape.now (answer (λ _. tt) result) (standing entries.new (C.CellStore.cells store.new)) }
    ensures limit { C.CellStore.most store.new ≡ C.CellStore.most store.old }
{
    for placed in Orders::of(tape, Tape::Opening)? {
        take_in(counts, placed?, entries, store)?;
    }
    Ok(())
}

// What the tape opens, in the place of all that stood; or why it is refused, and then nothing stands.
pub fn read_opening<C: CellStore>(
    counts: &Counts,
    tape: &[u8],
    entries: &mut Entries,
    store: &mut C,
) -> Result<(), Fault>
    ensures opened { Opened counts.now (C.CellStore.most store.old) tape.now (answer (λ _. tt) result) (standing entries.new (C.CellStore.cells store.new)) }
    ensures exact { OpenedExactly counts.now (C.CellStore.most store.old) tape.now (answer (λ _. tt) result) (standing entries.new (C.CellStore.cells store.new)) }
    ensures law { OneReading counts.now (C.CellStore.most store.old) }
    ensures sound { Sound (standing entries.new (C.CellStore.cells store.new)) }
    ensures worked { SmallKiosk }
    ensures limit { C.CellStore.most store.new ≡ C.CellStore.most store.old }
{
    empty(entries, store);
    let taken = read_orders(counts, tape, entries, store);
    if taken.is_err() {
        empty(entries, store);
    }
    taken
}
