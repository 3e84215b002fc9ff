// Steps on what the parameters see.
ghost use Rattle.std.specs.Prelude.{◌≡◌, true};
ghost use Rattle.std.specs.List.{list_all};
ghost use Rattle.scheme.specs.Steps.{step_shaped};
ghost use Rattle.protection.specs.Commands.{step, run};
ghost use Rattle.protection.specs.Excerpts.{itself};
ghost use Rattle.protection.specs.Tables.{protection_of};

use crate::excerpt::Excerpt;
use crate::excerpt::places::{cell_after, entry_after};
use scheme::step::Step;

impl Excerpt {
    // What the parameters see after a step that names no others.
    pub(crate) fn after(self, cards: u8, next: Step) -> Excerpt
        requires { step_shaped 3 next ≡ true }
        ensures { protection_of result ≡ step cards itself (protection_of self) next }
    {
        let entry = |i| entry_after(cards, next, i, self.entry(i));
        let cell = |i, j| cell_after(next, i, j, self.cell(i, j));
        Excerpt {
            entries: [entry(0), entry(1), entry(2)],
            cells: [
                [cell(0, 0), cell(0, 1), cell(0, 2)],
                [cell(1, 0), cell(1, 1), cell(1, 2)],
                [cell(2, 0), cell(2, 1), cell(2, 2)],
            ],
        }
    }

    // The same after steps in order.
    pub(crate) fn after_all(self, cards: u8, steps: &[Step]) -> Excerpt
        requires { list_all (step_shaped 3) steps.now ≡ true }
        ensures { protection_of result ≡ run cards itself steps.now (protection_of self) }
    {
        let mut seen = self;
        for next in steps {
            seen = seen.after(cards, *next);
        }
        seen
    }
}
