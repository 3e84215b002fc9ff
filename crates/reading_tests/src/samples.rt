// Tapes for the tests, and what the kiosk's reader says of them.
use model::fault::Fault;
use model::scales::KioskScales;
use scheme_tape::lawful::LawfulScheme;
use scheme_tape::reader::read_scheme;
use std::alloc::{AllocError, Global};

// The small kiosk: hand on a right one may hold, make a helper card, take a thing away.
pub const SMALL_KIOSK: [u8; 36] = [
    0x10, 3, 3, 0x20, 0, 0, 2, 0x23, 0, 0, 1, 0x30, 0, 1, 2, 0x1F, 0x10, 2, 3, 0x21, 0, 0, 3, 0x33,
    1, 0x32, 1, 0, 1, 0x1F, 0x10, 1, 0, 0x34, 0, 0x1F,
];

pub fn read(tape: &[u8]) -> Result<LawfulScheme<KioskScales>, Fault> {
    read_scheme(tape)
}

// Nothing for an accepted tape, else the fault's layer, number and place.
pub fn verdict(tape: &[u8]) -> Result<(), (u8, u8, u16)> {
    match read(tape) {
        Ok(_) => Ok(()),
        Err(fault) => Err((u8::from(fault.layer), u8::from(fault.reason), fault.place)),
    }
}

// A head, a part many times over, and a tail.
pub fn repeated(
    heap: Global,
    head: &[u8],
    part: &[u8],
    times: usize,
    tail: &[u8],
) -> Result<Vec<u8>, AllocError> {
    let mut tape = head.to_vec(heap)?;
    let parts = part.repeat(heap, times)?;
    tape.extend_from_slice(parts.as_slice())?;
    tape.extend_from_slice(tail)?;
    Ok(tape)
}
