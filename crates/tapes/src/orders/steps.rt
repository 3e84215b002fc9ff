// Reading the orders of a tape step by step.
ghost use Rattle.std.specs.Prelude.{◌≡◌, ◌-◌, length, IfOk};
ghost use Rattle.std.specs.Iterator.{at_most};
ghost use Rattle.model.specs.Answers.{answer};
ghost use Rattle.tapes.specs.Readers.{measured};
ghost use Rattle.tapes.specs.Steps.{Reads, Steps};

use crate::orders::Orders;
use crate::reader::Placed;
use crate::tape::Tape;
use model::fault::{Fault, Layer, Reason};

const LONGEST: u16 = u16::MAX;

impl<'a> Orders<'a> {
    // The orders of these bytes, which are refused if they are too many for a tape.
    pub fn of(bytes: &'a [u8], tape: Tape) -> Result<Orders<'a>, Fault>
        ensures measured { answer (λ o. length o.bytes.now) result ≡ measured tape bytes.now }
        ensures start { IfOk result (Reads tape bytes.now 0) }
    {
        if bytes.len() > usize::from(LONGEST) {
            return Err(Fault {
                layer: Layer::from(tape),
                reason: Reason::TapeTooLong,
                place: LONGEST,
            });
        }
        Ok(Orders { bytes, tape, at: 0 })
    }

    // Where the tape ends. A tape is short, so the cast keeps its length; `u16::from` takes no `usize`.
    pub fn end(&self) -> u16
        ensures { result ≡ length self.now.bytes.now }
    {
        self.bytes.len() as u16
    }
}

// After a refusal nothing more comes.
impl<'a> Iterator for Orders<'a> {
    type Item = Result<Placed<'a>, Fault>;

    ghost next_gives = { Steps };

    ghost remaining = { λ s. at_most (length s.bytes.now - s.at) };

    fn next(&mut self) -> Option<Result<Placed<'a>, Fault>> {
        if self.at == self.end() {
            return None;
        }
        let placed = self.tape.order_at(self.bytes, self.at);
        self.at = match placed {
            Ok(placed) => self.at + placed.size,
            Err(_) => self.end(),
        };
        Some(placed)
    }
}
