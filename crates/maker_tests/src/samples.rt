// A register for the tests, and what a making on it answers and leaves.
use checker::check::check;
use maker::make::make;
use model::fault::Fault;
use model::labels::Labels;
use model::ladder::Ladder;
use model::mask::Mask;
use model::scales::KioskScales;
use register::register::Register;
use rulings::pile::{FilterMasks, FourFilters, four_filters};
use scheme_tape::reader::read_scheme;
use std::alloc::{AllocError, Global};
use std::process::Abort;
use std::test::Fail;
use stores::board::Board;
use stores::store::CellStore;

pub type Desk<C> = Register<KioskScales, C, FourFilters<Ladder, Labels, Labels, Ladder>>;

// The small kiosk's commands: a card hands right 0 on to one of no higher grade, one of grade 3 makes one of grade 1, and an entry
// is taken away.
pub const SCHEME: [u8; 36] = [
    0x10, 3, 3, 0x20, 0, 0, 2, 0x23, 0, 0, 1, 0x30, 0, 1, 2, 0x1F, 0x10, 2, 3, 0x21, 0, 0, 3, 0x33,
    1, 0x32, 1, 0, 1, 0x1F, 0x10, 1, 0, 0x34, 0, 0x1F,
];

// The small kiosk's opening: a card of grade 3 has right 0 on a thing, and right 1 on a card of grade 1.
pub const OPENING: [u8; 26] = [
    0x40, 0, 3, 0xFF, 0xFF, 0xFF, 0x40, 1, 1, 0xFF, 0xFF, 0xFF, 0x41, 2, 0xFF, 0xFF, 0xFF, 0xFF,
    0x42, 0, 0, 2, 0x42, 1, 0, 1,
];

// No card of grade 1 may hold right 1 on one of grade 1, and none right 0 on an entry of no grade.
pub const RIGHT_1: [u8; 6] = [0x60, 1, 0, 1, 0, 1];

pub const RIGHT_0: [u8; 6] = [0x60, 0, 0, 1, 0, 0xFF];

// A card and a thing of which nothing is known, as they are created.
pub const LIST_CARD: [u8; 6] = [0x50, 1, 0xFF, 0xFF, 0xFF, 0xFF];

pub const LIST_THING: [u8; 6] = [0x50, 2, 0xFF, 0xFF, 0xFF, 0xFF];

// The bytes that any certificate fits into.
pub const FULL: usize = 5312;

// What stands in a buffer that nothing has been written to.
const UNTOUCHED: u8 = 7;

// A register of a scheme, on a board, opened by a tape.
pub(crate) fn desk<'a>(
    scheme: &[u8],
    memory: &'a mut [Mask],
    opening: &[u8],
) -> Result<Desk<Board<'a>>, Fail> {
    let scheme = read_scheme::<KioskScales>(scheme)?;
    let board = Board::new(memory).ok().ok_or("4096 masks are a board")?;
    let mut register = Register::new(scheme, board, four_filters(FilterMasks::none()));
    register.open(opening)?;
    Ok(register)
}

// These bytes one after the other.
pub(crate) fn tape(heap: Global, parts: &[&[u8]]) -> Result<Vec<u8>, AllocError> {
    let mut bytes = Vec::new(heap);
    for part in parts {
        bytes.extend_from_slice(part)?;
    }
    Ok(bytes)
}

// Layer, number and place of a refusal.
fn told(fault: Fault) -> (u8, u8, u16) {
    (u8::from(fault.layer), u8::from(fault.reason), fault.place)
}

fn is_untouched(bytes: &[u8]) -> bool {
    bytes.iter().all(|byte| *byte == UNTOUCHED)
}

// A making into a buffer of this size writes these bytes and no more, and a check accepts them.
pub(crate) fn makes_into<C: CellStore>(
    rt: &impl Abort,
    size: usize,
    register: &Desk<C>,
    bans: &[u8],
    certificate: &[u8],
) -> Result<(), Fail> {
    let mut memory = [UNTOUCHED; 6000];
    let buffer = memory.get_mut(..size).ok_or("it is no larger")?;
    assert!(rt; make(register, bans, buffer) == Ok(certificate.len()));
    assert!(rt; buffer.starts_with(certificate));
    assert!(rt; buffer.get(certificate.len()..).is_some_and(is_untouched));
    assert!(rt; check(register, certificate, bans) == Ok(()));
    Ok(())
}

pub(crate) fn makes<C: CellStore>(
    rt: &impl Abort,
    register: &Desk<C>,
    bans: &[u8],
    certificate: &[u8],
) -> Result<(), Fail> {
    makes_into(rt, FULL, register, bans, certificate)
}

// A making into a buffer of this size is refused, and writes nothing.
pub(crate) fn refuses_into<C: CellStore>(
    rt: &impl Abort,
    size: usize,
    register: &Desk<C>,
    bans: &[u8],
    refusal: (u8, u8, u16),
) -> Result<(), Fail> {
    let mut memory = [UNTOUCHED; 6000];
    let buffer = memory.get_mut(..size).ok_or("it is no larger")?;
    assert!(rt; make(register, bans, buffer).err().map(told) == Some(refusal));
    assert!(rt; is_untouched(buffer));
    Ok(())
}

pub(crate) fn refuses<C: CellStore>(
    rt: &impl Abort,
    register: &Desk<C>,
    bans: &[u8],
    refusal: (u8, u8, u16),
) -> Result<(), Fail> {
    refuses_into(rt, FULL, register, bans, refusal)
}
