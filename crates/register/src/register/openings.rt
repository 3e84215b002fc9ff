// Opening a register by a tape.
ghost use Rattle.std.specs.Prelude.{◌≡◌};
ghost use Rattle.model.specs.Answers.{answer};
ghost use Rattle.opening.specs.Opened.{OpenedExactly};
ghost use Rattle.opening.specs.Reading.{OneReading};
ghost use Rattle.register.specs.Openings.{Opens};
ghost use Rattle.register.specs.Views.{kept_by, state_of};

use crate::register::Register;
use model::fault::Fault;
use model::scales::Scales;
use opening::reader::read_opening;
use rulings::ruling::Ruling;
use stores::store::CellStore;

impl<S: Scales, C: CellStore, R: Ruling> Register<S, C, R> {
    // Opens the register anew: what the tape lists takes the place of all that stood, and nothing has been asked for. After a
    // refusal nothing stands either.
    pub fn open(&mut self, tape: &[u8]) -> Result<(), Fault>
        ensures opens { Opens (kept_by self.old) tape.now (answer (λ done. done) result) (state_of self.new) }
        ensures exact { OpenedExactly (kept_by self.old).counts (kept_by self.old).limit tape.now (answer (λ done. done) result) (state_of self.new).protection }
        ensures law { OneReading (kept_by self.old).counts (kept_by self.old).limit }
        ensures kept { kept_by self.new ≡ kept_by self.old }
    {
        self.accepted = 0;
        read_opening(&S::counts(), tape, &mut self.entries, &mut self.store)
    }
}
