// What a command made of what its names see, put back.
ghost use Rattle.std.specs.Prelude.{◌≡◌, OnErr};
ghost use Rattle.model.specs.Answers.{answer};
ghost use Rattle.model.specs.Bounded.{listed};
ghost use Rattle.changes.specs.Changes.{changed};
ghost use Rattle.protection.specs.Entries.{entry_of};
ghost use Rattle.protection.specs.Excerpts.{entries_back};
ghost use Rattle.protection.specs.Requests.{lowest_placed, unless_broken, unless_refused};
ghost use Rattle.protection.specs.Tables.{protection_of};
ghost use Rattle.scheme.specs.Views.{view};
ghost use Rattle.register.specs.Requests.{limit_rules, cells_after};

use changes::change::Change;
use changes::names::Names;
use model::fault::Fault;
use protection::entries::Entries;
use protection::excerpt::Excerpt;
use protection::outcome::is_renewed;
use protection::refusal::refusal;
use scheme::command::Command;
use scheme::test::Parameter;
use stores::store::CellStore;

// The entry of each name is what its parameter's is in the excerpt; all others are as they were.
pub(crate) fn put_entries(entries: &mut Entries, names: &Names, back: &Excerpt)
    ensures { entry_of entries.new ≡ entries_back (listed names.now.items) (protection_of back.now).entry (entry_of entries.old) }
{
    for i in 0..names.len() {
        // Each name of a request is below 64, so it is put; there are three at most, so the cast keeps the number.
        let _put = entries.put(names.at(i), back.entry(i as Parameter));
    }
}

// What becomes of the cells.
fn change_by(command: &Command, names: &Names, back: &Excerpt) -> Change
    ensures { changed result ≡ cells_after (view command.now) (listed names.now.items) (protection_of back.now) }
{
    Change {
        names: *names,
        renewed: [
            is_renewed(command, 0),
            is_renewed(command, 1),
            is_renewed(command, 2),
        ],
        cells: back.cells,
    }
}

// The cells between the names are what they are in the excerpt, and the rows and columns of what is created or destroyed are
// otherwise empty; or it is refused, and nothing changes, where more cells would be non-empty then than the store's limit.
pub(crate) fn put_cells<C: CellStore>(
    store: &mut C,
    command: &Command,
    names: &Names,
    back: &Excerpt,
) -> Result<(), Fault>
    ensures answer { answer (λ done. done) result ≡ unless_broken (lowest_placed (limit_rules (C.CellStore.most store.old) (cells_after (view command.now) (listed names.now.items) (protection_of back.now) (C.CellStore.cells store.old)))) tt }
    ensures after { C.CellStore.cells store.new ≡ unless_refused (lowest_placed (limit_rules (C.CellStore.most store.old) (cells_after (view command.now) (listed names.now.items) (protection_of back.now) (C.CellStore.cells store.old)))) (C.CellStore.cells store.old) (cells_after (view command.now) (listed names.now.items) (protection_of back.now) (C.CellStore.cells store.old)) }
    ensures limit { C.CellStore.most store.new ≡ C.CellStore.most store.old }
    ensures kept { OnErr result (store.new ≡ store.old) }
{
    match change_by(command, names, back).make(store) {
        Ok(()) => Ok(()),
        Err(reason) => Err(refusal(reason, 0)),
    }
}
