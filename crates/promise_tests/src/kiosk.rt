// The small kiosk for the tests, and its tapes.
use model::labels::Labels;
use model::ladder::Ladder;
use model::mask::Mask;
use model::name::Name;
use model::scales::KioskScales;
use promise::calls::begin;
use register::register::Register;
use rulings::pile::{FilterMasks, FourFilters, four_filters};
use scheme_tape::reader::read_scheme;
use std::test::Fail;
use stores::board::Board;

pub type Kiosk<'a> = Register<KioskScales, Board<'a>, FourFilters<Ladder, Labels, Labels, Ladder>>;

// A card hands right 0 on to one of no higher grade, one of grade 3 makes one of grade 1, and an entry is taken away.
const SCHEME: [u8; 36] = [
    0x10, 3, 3, 0x20, 0, 0, 2, 0x23, 0, 0, 1, 0x30, 0, 1, 2, 0x1F, 0x10, 2, 3, 0x21, 0, 0, 3, 0x33,
    1, 0x32, 1, 0, 1, 0x1F, 0x10, 1, 0, 0x34, 0, 0x1F,
];

pub const HAND_ON: u8 = 0;

pub const TAKE_AWAY: u8 = 2;

pub const LENDER: Name = 0;

pub const HELPER: Name = 1;

pub const THING: Name = 2;

// A card of grade 3 has right 0 on a thing, and right 1 on a card of grade 1.
pub const OPENING: [u8; 26] = [
    0x40, 0, 3, 0xFF, 0xFF, 0xFF, 0x40, 1, 1, 0xFF, 0xFF, 0xFF, 0x41, 2, 0xFF, 0xFF, 0xFF, 0xFF,
    0x42, 0, 0, 2, 0x42, 1, 0, 1,
];

pub const CERTIFICATE: [u8; 33] = [
    0x50, 1, 3, 0xFF, 0xFF, 0xFF, 0x50, 1, 1, 0xFF, 0xFF, 0xFF, 0x50, 2, 0xFF, 0xFF, 0xFF, 0xFF,
    0x51, 0, 2, 0, 1, 0x51, 0, 1, 0, 2, 0x51, 1, 2, 0, 1,
];

// No card of grade 1 may hold right 1 on one of grade 1, and none right 0 on an entry of no grade.
pub const RIGHT_1: [u8; 6] = [0x60, 1, 0, 1, 0, 1];

pub const RIGHT_0: [u8; 6] = [0x60, 0, 0, 1, 0, 0xFF];

// The kiosk on a board, in which nothing stands yet.
pub(crate) fn begun(memory: &mut [Mask]) -> Result<Kiosk, Fail> {
    let scheme = read_scheme::<KioskScales>(&SCHEME)?;
    let board = Board::new(memory).ok().ok_or("4096 masks are a board")?;
    Ok(begin(scheme, board, four_filters(FilterMasks::none())))
}
