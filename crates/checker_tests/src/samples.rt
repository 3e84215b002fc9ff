// A register of the small kiosk for the tests, and tapes for its checks.
use checker::check::check;
use model::fault::Fault;
use model::kind::Kind;
use model::labels::Labels;
use model::ladder::Ladder;
use model::mask::Mask;
use model::scales::KioskScales;
use model::stamp::Stamp;
use register::register::Register;
use rulings::pile::{FilterMasks, FourFilters, four_filters};
use scheme_tape::reader::read_scheme;
use std::alloc::{AllocError, Global};
use std::process::Abort;
use std::test::Fail;
use stores::board::Board;
use stores::store::CellStore;

pub type Desk<C> = Register<KioskScales, C, FourFilters<Ladder, Labels, Labels, Ladder>>;

// The small kiosk's commands: a card hands right 0 on to one of no higher grade, one of grade 3 makes one of grade 1, and an entry
// is taken away.
pub const SCHEME: [u8; 36] = [
    0x10, 3, 3, 0x20, 0, 0, 2, 0x23, 0, 0, 1, 0x30, 0, 1, 2, 0x1F, 0x10, 2, 3, 0x21, 0, 0, 3, 0x33,
    1, 0x32, 1, 0, 1, 0x1F, 0x10, 1, 0, 0x34, 0, 0x1F,
];

// The small kiosk's opening: a card of grade 3 has right 0 on a thing, and right 1 on a card of grade 1.
pub const OPENING: [u8; 26] = [
    0x40, 0, 3, 0xFF, 0xFF, 0xFF, 0x40, 1, 1, 0xFF, 0xFF, 0xFF, 0x41, 2, 0xFF, 0xFF, 0xFF, 0xFF,
    0x42, 0, 0, 2, 0x42, 1, 0, 1,
];

// The stamps of a certificate, one by one, and what is allowed on them, as long as they are listed in this order.
pub const LIST_LENDER: [u8; 6] = [0x50, 1, 3, 0xFF, 0xFF, 0xFF];

pub const LIST_HELPER: [u8; 6] = [0x50, 1, 1, 0xFF, 0xFF, 0xFF];

pub const LIST_THING: [u8; 6] = [0x50, 2, 0xFF, 0xFF, 0xFF, 0xFF];

pub const LENDER_ON_THING: [u8; 5] = [0x51, 0, 2, 0, 1];

pub const LENDER_ON_HELPER: [u8; 5] = [0x51, 0, 1, 0, 2];

pub const HELPER_ON_THING: [u8; 5] = [0x51, 1, 2, 0, 1];

// All of it.
pub const CERTIFICATE: [u8; 33] = [
    0x50, 1, 3, 0xFF, 0xFF, 0xFF, 0x50, 1, 1, 0xFF, 0xFF, 0xFF, 0x50, 2, 0xFF, 0xFF, 0xFF, 0xFF,
    0x51, 0, 2, 0, 1, 0x51, 0, 1, 0, 2, 0x51, 1, 2, 0, 1,
];

// No card of grade 1 may hold right 1 on one of grade 1, and none right 0 on an entry of no grade.
pub const RIGHT_1: [u8; 6] = [0x60, 1, 0, 1, 0, 1];

pub const RIGHT_0: [u8; 6] = [0x60, 0, 0, 1, 0, 0xFF];

pub const LENDER: Stamp = Stamp {
    kind: Kind::Subject,
    attributes: [Some(3), None, None, None],
};

pub const HELPER: Stamp = Stamp {
    kind: Kind::Subject,
    attributes: [Some(1), None, None, None],
};

pub const THING: Stamp = Stamp {
    kind: Kind::Object,
    attributes: [None; 4],
};

// A register of a scheme, on a board, opened by a tape.
pub(crate) fn desk<'a>(
    scheme: &[u8],
    memory: &'a mut [Mask],
    opening: &[u8],
) -> Result<Desk<Board<'a>>, Fail> {
    let scheme = read_scheme::<KioskScales>(scheme)?;
    let board = Board::new(memory).ok().ok_or("4096 masks are a board")?;
    let mut register = Register::new(scheme, board, four_filters(FilterMasks::none()));
    register.open(opening)?;
    Ok(register)
}

// These bytes one after the other.
pub(crate) fn tape(heap: Global, parts: &[&[u8]]) -> Result<Vec<u8>, AllocError> {
    let mut bytes = Vec::new(heap);
    for part in parts {
        bytes.extend_from_slice(part)?;
    }
    Ok(bytes)
}

// Layer, number and place of a refusal.
fn told(fault: Fault) -> (u8, u8, u16) {
    (u8::from(fault.layer), u8::from(fault.reason), fault.place)
}

pub(crate) fn accepts<C: CellStore>(
    rt: &impl Abort,
    register: &Desk<C>,
    certificate: &[u8],
    bans: &[u8],
) {
    assert!(rt; check(register, certificate, bans) == Ok(()));
}

pub(crate) fn refuses<C: CellStore>(
    rt: &impl Abort,
    register: &Desk<C>,
    certificate: &[u8],
    bans: &[u8],
    refusal: (u8, u8, u16),
) {
    assert!(rt; check(register, certificate, bans).err().map(told) == Some(refusal));
}
