// Taking in the orders of an opening tape.
ghost use Rattle.std.specs.Prelude.{◌≡◌};
ghost use Rattle.model.specs.Answers.{refused_by, unless, answer};
ghost use Rattle.protection.specs.Standing.{standing};
ghost use Rattle.tapes.specs.declared.tape.Tape.TheVariants.{Opening as OpeningTape};
ghost use Rattle.tapes.specs.Taking.{taken};
ghost use Rattle.opening.specs.Said.{said, broken_by, with_listed};

use crate::items::{add_entry, add_right};
use model::counts::Counts;
use model::fault::{Fault, Layer, Reason};
use model::kind::Kind;
use protection::entries::Entries;
use stores::store::CellStore;
use tapes::order::Order;
use tapes::reader::Placed;

// Take in one order, or refuse it by the lowest rule that it breaks and leave all as it was.
fn obey<C: CellStore>(
    counts: &Counts,
    order: Order,
    entries: &mut Entries,
    store: &mut C,
) -> Result<(), Reason>
    ensures answer { let state = standing entries.old (C.CellStore.cells store.old) in refused_by result ≡ broken_by counts.now (C.CellStore.most store.old) state (said order.entry) }
    ensures after { let state = standing entries.old (C.CellStore.cells store.old) in standing entries.new (C.CellStore.cells store.new) ≡ unless (refused_by result) state (with_listed state (said order.entry)) }
    ensures limit { C.CellStore.most store.new ≡ C.CellStore.most store.old }
{
    match order {
        Order::Card(operands) => add_entry(counts, Kind::Subject, operands, entries),
        Order::Thing(operands) => add_entry(counts, Kind::Object, operands, entries),
        Order::Right(operands) => add_right(operands, entries, store),
        // An order of another tape is not handed on; it would be out of place.
        _ => Err(Reason::OutOfPlace),
    }
}

// The same, where a refusal has the order's offset as its place.
pub(crate) fn take_in<C: CellStore>(
    counts: &Counts,
    placed: Placed,
    entries: &mut Entries,
    store: &mut C,
) -> Result<(), Fault>
    ensures answer { let state = standing entries.old (C.CellStore.cells store.old) in answer (λ _. tt) result ≡ taken OpeningTape placed.entry.offset (broken_by counts.now (C.CellStore.most store.old) state (said placed.entry.order)) }
    ensures after { let state = standing entries.old (C.CellStore.cells store.old) in standing entries.new (C.CellStore.cells store.new) ≡ unless (broken_by counts.now (C.CellStore.most store.old) state (said placed.entry.order)) state (with_listed state (said placed.entry.order)) }
    ensures limit { C.CellStore.most store.new ≡ C.CellStore.most store.old }
{
    obey(counts, placed.order, entries, store).map_err(|reason| Fault {
        layer: Layer::Opening,
        reason,
        place: placed.offset,
    })
}
