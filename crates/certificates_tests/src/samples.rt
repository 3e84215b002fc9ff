// Tapes for the tests, and what the kiosk's readers say of them.
use certificates::ban_reader::read_bans;
use certificates::reader::read_certificate;
use model::counts::Counts;
use model::fault::Fault;
use model::labels::Labels;
use model::ladder::Ladder;
use std::alloc::{AllocError, Global};
use std::process::Abort;

// The layer, number and place of a fault.
pub type Refusal = (u8, u8, u16);

pub(crate) fn counts() -> Counts {
    Counts::of::<Ladder, Labels, Labels, Ladder>()
}

fn refusal(fault: Fault) -> Refusal {
    (u8::from(fault.layer), u8::from(fault.reason), fault.place)
}

// What the readers answer: nothing where they accept.
pub(crate) fn certificate_refusal(tape: &[u8]) -> Option<Refusal> {
    read_certificate(&counts(), tape).err().map(refusal)
}

pub(crate) fn bans_refusal(tape: &[u8]) -> Option<Refusal> {
    read_bans(&counts(), tape).err().map(refusal)
}

// A tape between a lawful beginning and a lawful end.
pub(crate) fn between(
    heap: Global,
    beginning: &[u8],
    middle: &[u8],
    end: &[u8],
) -> Result<Vec<u8>, AllocError> {
    let mut tape = beginning.to_vec(heap)?;
    tape.extend_from_slice(middle)?;
    tape.extend_from_slice(end)?;
    Ok(tape)
}
