// The making of the least certificate that would be accepted, as a tape.
ghost use Rattle.std.specs.Prelude.{◌≡◌, ◌≤◌, MatchOption, length};
ghost use Rattle.model.specs.Answers.{answer};
ghost use Rattle.model.specs.Faults.{layer_number, reason_number};
ghost use Rattle.certificates.specs.Views.{bans_of, certificate_of};
ghost use Rattle.register.specs.States.{State};
ghost use Rattle.register.specs.Views.{kept_by, state_of};
ghost use Rattle.writing.specs.Writing.{full_size};
ghost use Rattle.checker.specs.Judgements.{MeetsNone};
ghost use Rattle.maker.specs.Least.{Least};
ghost use Rattle.maker.specs.Making.{HandedInto, Made, MakesLeast, NoneAccepted, OneMaking};

use crate::least::least_certificate;
use certificates::ban_reader::read_bans;
use certificates::bans::Bans;
use certificates::certificate::Certificate;
use checker::met::first_met;
use model::fault::{Fault, Layer, Reason};
use model::scales::Scales;
use register::register::Register;
use rulings::ruling::Ruling;
use stores::store::CellStore;
use writing::writer::{FULL_SIZE, write_certificate};

// The least certificate, where it meets none of the bans. Where it meets one, each other that holds for good meets it too.
fn least_unmet<S: Scales, C: CellStore, R: Ruling>(
    register: &Register<S, C, R>,
    bans: &Bans,
) -> Option<Certificate>
    ensures { MatchOption result (NoneAccepted (kept_by register.now) (state_of register.now).protection (bans_of bans.now)) (λ c. Least (kept_by register.now) (state_of register.now).protection (certificate_of c) × MeetsNone (certificate_of c) (bans_of bans.now)) }
{
    let certificate = least_certificate(register)?;
    match first_met(bans, &certificate) {
        Some(_) => None,
        None => Some(certificate),
    }
}

// Writes it into a buffer that has room for any. A lawful tape may be lacking for it all the same: its stamps may be out of scale.
fn write_least<S: Scales, C: CellStore, R: Ruling>(
    register: &Register<S, C, R>,
    bans: &Bans,
    buffer: &mut [u8],
) -> Option<usize>
    requires { full_size ≤ length buffer.old }
    ensures { MatchOption result (NoneAccepted (kept_by register.now) (state_of register.now).protection (bans_of bans.now) × (buffer.new ≡ buffer.old)) (λ n. HandedInto (kept_by register.now) (state_of register.now).protection (bans_of bans.now) buffer.old n buffer.new) }
{
    let certificate = least_unmet(register, bans)?;
    write_certificate(&S::counts(), &certificate, buffer)
}

// A refusal of a making, which has no place.
fn fault_of(reason: Reason) -> Fault
    ensures layer { layer_number result.layer ≡ 6 }
    ensures rule { reason_number result.reason ≡ reason_number reason }
    ensures place { result.place ≡ 0 }
{
    Fault {
        layer: Layer::Checker,
        reason,
        place: 0,
    }
}

// Reads the bans, looks at the buffer, and writes into it.
fn answer_by<S: Scales, C: CellStore, R: Ruling>(
    register: &Register<S, C, R>,
    bans: &[u8],
    buffer: &mut [u8],
) -> Result<usize, Fault>
    ensures { Made (kept_by register.now) (state_of register.now) bans.now buffer.old (answer (λ n. n) result) buffer.new }
{
    let bans = read_bans(&S::counts(), bans)?;
    if buffer.len() < FULL_SIZE {
        return Err(fault_of(Reason::BufferTooSmall));
    }
    write_least(register, &bans, buffer).ok_or(fault_of(Reason::NoCertificate))
}

// Makes the least certificate that a check with these bans would accept, and writes it to the front of the buffer. The answer is
// the length of its tape; the rest of the buffer is as it was. It is refused by a fault of the ban tape; then by 20 for a buffer
// under 5,312 bytes, the room of the largest certificate; and then by 21, where no certificate would be accepted. The buffer is
// untouched then.
pub fn make<S: Scales, C: CellStore, R: Ruling>(
    register: &Register<S, C, R>,
    bans: &[u8],
    buffer: &mut [u8],
) -> Result<usize, Fault>
    ensures make { Made (kept_by register.now) (state_of register.now) bans.now buffer.old (answer (λ n. n) result) buffer.new }
    ensures one { OneMaking (kept_by register.now) }
    ensures law { (s : State) → MakesLeast (kept_by register.now) s }
{
    answer_by(register, bans, buffer)
}
