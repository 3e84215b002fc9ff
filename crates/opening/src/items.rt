// Taking in one item of an opening, or refusing it by the lowest rule that it breaks and leaving all as it was.
ghost use Rattle.std.specs.Prelude.{◌≡◌, ℕ};
ghost use Rattle.model.specs.declared.counts.Counts.{Counts};
ghost use Rattle.model.specs.Answers.{refused_by, lowest, unless};
ghost use Rattle.protection.specs.Standing.{standing};
ghost use Rattle.stores.specs.Matrices.{Matrix};
ghost use Rattle.opening.specs.Items.{with_item};
ghost use Rattle.opening.specs.Rules.{item_rules};
ghost use Rattle.opening.specs.Said.{entry_read, right_read};

use model::counts::Counts;
use model::fault::Reason;
use model::kind::Kind;
use model::mask::{RIGHTS, with_right};
use model::name::NAMES;
use model::stamp::Stamp;
use protection::entries::{Entries, is_subject};
use stores::store::CellStore;
use tapes::value::value_read;

// An entry, where none of its name stands. It needs no cell, so whatever the store is, the rules and the change are these.
pub(crate) fn add_entry(
    counts: &Counts,
    kind: Kind,
    operands: &[u8; 5],
    entries: &mut Entries,
) -> Result<(), Reason>
    ensures answer { (limit : ℕ) (cells : Matrix) → refused_by result ≡ lowest (item_rules counts.now limit (standing entries.old cells) (entry_read kind operands.now)) }
    ensures after { (cells : Matrix) → let state = standing entries.old cells in standing entries.new cells ≡ unless (refused_by result) state (with_item state (entry_read kind operands.now)) }
{
    let &[name, a, b, c, d] = operands;
    let stamp = Stamp {
        kind,
        attributes: [value_read(a), value_read(b), value_read(c), value_read(d)],
    };
    if name >= NAMES || !counts.is_in_scales(&stamp) {
        return Err(Reason::OutOfRange);
    }
    if entries.get(name).is_some() {
        return Err(Reason::UnfitReference);
    }
    entries.put(name, Some(stamp))
}

// A right in the cell of a card and an entry. Of names and with a right in it, a mask is refused by a store for want of room alone.
pub(crate) fn add_right<C: CellStore>(
    operands: &[u8; 3],
    entries: &Entries,
    store: &mut C,
) -> Result<(), Reason>
    ensures answer { (counts : Counts) → let state = standing entries.now (C.CellStore.cells store.old) in refused_by result ≡ lowest (item_rules counts (C.CellStore.most store.old) state (right_read operands.now)) }
    ensures after { let state = standing entries.now (C.CellStore.cells store.old) in standing entries.now (C.CellStore.cells store.new) ≡ unless (refused_by result) state (with_item state (right_read operands.now)) }
    ensures limit { C.CellStore.most store.new ≡ C.CellStore.most store.old }
{
    let &[right, row, column] = operands;
    if right >= RIGHTS || row >= NAMES || column >= NAMES {
        return Err(Reason::OutOfRange);
    }
    if !is_subject(entries.get(row)) || entries.get(column).is_none() {
        return Err(Reason::UnfitReference);
    }
    let mask = with_right(store.read(row, column), right);
    store
        .write(row, column, mask)
        .map_err(|_| Reason::OpeningTooLarge)
}
