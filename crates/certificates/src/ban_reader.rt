// The ban reader.
ghost use Rattle.model.specs.Answers.{answer};
ghost use Rattle.certificates.specs.BanTapes.{BansRead, BansAcceptedExactly, OneBansReading};
ghost use Rattle.certificates.specs.Views.{bans_of};
ghost use Rattle.certificates.specs.Worked.{SmallKioskBans};

use crate::ban_orders::take_in;
use crate::bans::Bans;
use model::counts::Counts;
use model::fault::Fault;
use tapes::orders::Orders;
use tapes::tape::Tape;

// Take in the orders of the tape one by one, up to the first that breaks a rule.
fn read_orders(counts: &Counts, tape: &[u8]) -> Result<Bans, Fault>
    ensures { BansRead counts.now tape.now (answer bans_of result) }
{
    let mut bans = Bans::none();
    for placed in Orders::of(tape, Tape::Bans)? {
        take_in(counts, placed?, &mut bans)?;
    }
    Ok(bans)
}

// The bans that the tape stands for, or the first rule that it breaks.
#[tactic(auto, using(crate::proofs::Readings::one_bans_reading, crate::proofs::Readings::bans_accepted_exactly, crate::proofs::Worked::small_kiosk_bans))]
pub fn read_bans(counts: &Counts, tape: &[u8]) -> Result<Bans, Fault>
    ensures reading { BansRead counts.now tape.now (answer bans_of result) }
    ensures exact { BansAcceptedExactly counts.now tape.now (answer bans_of result) }
    ensures law { OneBansReading counts.now }
    ensures worked { SmallKioskBans }
{
    read_orders(counts, tape)
}
