// Asking for a command.
ghost use Rattle.std.specs.Prelude.{◌≡◌, OnErr, slice_get};
ghost use Rattle.model.specs.Answers.{answer};
ghost use Rattle.model.specs.Bounded.{listed};
ghost use Rattle.protection.specs.Commands.{name_at, seen};
ghost use Rattle.protection.specs.Tables.{protection_of};
ghost use Rattle.scheme.specs.Views.{view};
ghost use Rattle.register.specs.Requests.{Requested, UntouchedBy, found, one_more};
ghost use Rattle.register.specs.Views.{kept_by, state_of};
ghost use Rattle.register.specs.Worked.{WorkedKiosk};

use crate::admission::admit;
use crate::putting::{put_cells, put_entries};
use crate::register::Register;
use changes::names::Names;
use model::fault::{Fault, Reason};
use model::name::Name;
use model::scales::Scales;
use protection::excerpt::Excerpt;
use protection::outcome::outcome;
use protection::refusal::refusal;
use rulings::ruling::Ruling;
use scheme::command::Command;
use stores::store::CellStore;

// The count after one request more; once it is at the highest number, it stays there.
fn one_more(count: u32) -> u32
    ensures { result ≡ one_more count }
{
    count.saturating_add(1)
}

impl<S: Scales, C: CellStore, R: Ruling> Register<S, C, R> {
    // The command of a number.
    fn command(&self, number: u8) -> Result<Command, Fault>
        ensures { answer view result ≡ found (slice_get (kept_by self.now).commands number) }
    {
        self.commands()
            .get(usize::from(number))
            .copied()
            .ok_or(refusal(Reason::NoSuchCommand, 0))
    }

    // What the names see of the state.
    fn excerpt(&self, names: &Names) -> Excerpt
        ensures { protection_of result ≡ seen (name_at (listed names.now.items)) (state_of self.now).protection }
    {
        let [a, b, c] = [names.at(0), names.at(1), names.at(2)];
        let row = |name| [self.cell(name, a), self.cell(name, b), self.cell(name, c)];
        Excerpt {
            entries: [
                self.entries.get(a),
                self.entries.get(b),
                self.entries.get(c),
            ],
            cells: [row(a), row(b), row(c)],
        }
    }

    // The tests are read, and the limit is looked at, before anything changes.
    fn carry_out(&mut self, number: u8, names: &[Name]) -> Result<u32, Fault>
        ensures request { Requested (kept_by self.old) (state_of self.old) number names.now (answer (λ count. count) result) (state_of self.new) }
        ensures memory { OnErr result (self.new.store ≡ self.old.store) }
        ensures kept { kept_by self.new ≡ kept_by self.old }
    {
        let command = self.command(number)?;
        let names = Names::bind(command.params(), names)?;
        let before = self.excerpt(&names);
        admit::<S>(&command, &before)?;
        let after = outcome(&command, before);
        put_cells(&mut self.store, &command, &names, &after)?;
        put_entries(&mut self.entries, &names, &after);
        self.accepted = one_more(self.accepted);
        Ok(self.accepted)
    }

    // Puts the names for the parameters of a command, and carries it out: whole, or not at all. It is answered by the count. After
    // a refusal the store is just as it was, its free memory included.
    pub fn request(&mut self, number: u8, names: &[Name]) -> Result<u32, Fault>
        ensures request { Requested (kept_by self.old) (state_of self.old) number names.now (answer (λ count. count) result) (state_of self.new) }
        ensures untouched { UntouchedBy (slice_get (kept_by self.old).commands number) names.now (state_of self.old).protection (state_of self.new).protection }
        ensures memory { OnErr result (self.new.store ≡ self.old.store) }
        ensures kept { kept_by self.new ≡ kept_by self.old }
        ensures worked { WorkedKiosk }
    {
        self.carry_out(number, names)
    }
}
