// The scheme reader.
ghost use Rattle.std.specs.Prelude.{◌≡◌};
ghost use Rattle.model.specs.Answers.{answer};
ghost use Rattle.scheme.specs.Views.{commands_of};
ghost use Rattle.scheme_tape.specs.Reading.{SchemeRead, AcceptedExactly, OneReading};

use crate::draft::Draft;
use crate::lawful::LawfulScheme;
use model::counts::Counts;
use model::fault::Fault;
use model::scales::Scales;
use scheme::scheme::Scheme;
use std::marker::PhantomData;
use tapes::orders::Orders;
use tapes::tape::Tape;

// The reader by the scales' counts: they are all that a tape's rules hang on.
fn read_by(counts: &Counts, tape: &[u8]) -> Result<Scheme, Fault>
    ensures { SchemeRead counts.now tape.now (answer commands_of result) }
{
    let orders = Orders::of(tape, Tape::Scheme)?;
    let end = orders.end();
    let mut draft = Draft::empty();
    for placed in orders {
        draft.take_in(counts, placed?)?;
    }
    draft.finish(end)
}

// The scheme that the tape stands for under these scales, or the first rule that it breaks.
#[tactic(auto, using(crate::proofs::Law::one_reading, crate::proofs::Law::accepted_exactly))]
pub fn read_scheme<S: Scales>(tape: &[u8]) -> Result<LawfulScheme<S>, Fault>
    ensures reading { SchemeRead S.Scales.counts tape.now (answer (λ s. commands_of s.scheme) result) }
    ensures exact { AcceptedExactly S.Scales.counts tape.now (answer (λ s. commands_of s.scheme) result) }
    ensures law { OneReading S.Scales.counts }
{
    let scheme = read_by(&S::counts(), tape)?;
    Ok(LawfulScheme {
        scheme,
        scales: PhantomData,
    })
}
