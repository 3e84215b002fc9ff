// Registers for the tests, and what stands in them.
use model::fault::Fault;
use model::kind::Kind;
use model::labels::Labels;
use model::ladder::Ladder;
use model::mask::Mask;
use model::name::{NAMES, Name};
use model::scales::KioskScales;
use model::stamp::Stamp;
use register::register::Register;
use rulings::pile::{FilterMasks, FourFilters, four_filters};
use scheme_tape::reader::read_scheme;
use std::alloc::Global;
use std::test::Fail;
use stores::board::Board;
use stores::list::RecordList;
use stores::record::Record;
use stores::store::CellStore;

pub type Desk<C> = Register<KioskScales, C, FourFilters<Ladder, Labels, Labels, Ladder>>;

// The small kiosk's commands, and then: move a right on, label a thing and take it away, make a card with rights on itself.
const SCHEME: [u8; 76] = [
    0x10, 3, 3, 0x20, 0, 0, 2, 0x23, 0, 0, 1, 0x30, 0, 1, 2, 0x1F, 0x10, 2, 3, 0x21, 0, 0, 3, 0x33,
    1, 0x32, 1, 0, 1, 0x1F, 0x10, 1, 0, 0x34, 0, 0x1F, 0x10, 3, 3, 0x30, 0, 1, 2, 0x31, 0, 0, 2,
    0x1F, 0x10, 2, 1, 0x30, 1, 0, 1, 0x34, 1, 0x1F, 0x10, 2, 3, 0x33, 1, 0x30, 5, 1, 1, 0x30, 5, 1,
    0, 0x30, 5, 0, 1, 0x1F,
];

pub const COMMANDS: usize = 6;

pub const HAND_ON: u8 = 0;

pub const MAKE_HELPER: u8 = 1;

pub const TAKE_AWAY: u8 = 2;

pub const MOVE_ON: u8 = 3;

pub const LABEL_AND_TAKE_AWAY: u8 = 4;

pub const MAKE_OWNER: u8 = 5;

// The small kiosk's opening, and what it lists.
pub const OPENING: [u8; 26] = [
    0x40, 0, 3, 0xFF, 0xFF, 0xFF, 0x40, 1, 1, 0xFF, 0xFF, 0xFF, 0x41, 2, 0xFF, 0xFF, 0xFF, 0xFF,
    0x42, 0, 0, 2, 0x42, 1, 0, 1,
];

pub const ENTRIES: [(Name, Stamp); 3] = [(0, LENDER), (1, HELPER), (2, THING)];

pub const CELLS: [(Name, Name, Mask); 2] = [(0, 2, 1), (0, 1, 2)];

pub const LENDER: Stamp = Stamp {
    kind: Kind::Subject,
    attributes: [Some(3), None, None, None],
};

pub const HELPER: Stamp = Stamp {
    kind: Kind::Subject,
    attributes: [Some(1), None, None, None],
};

pub const THING: Stamp = Stamp {
    kind: Kind::Object,
    attributes: [None; 4],
};

pub(crate) fn board(memory: &mut [Mask]) -> Result<Board, Fail> {
    Ok(Board::new(memory).ok().ok_or("4096 masks are a board")?)
}

pub(crate) fn list(heap: Global, records: usize) -> Result<RecordList, Fail> {
    let free = Record {
        row: 0,
        column: 0,
        mask: 0,
    };
    let list = RecordList::new(vec![in heap; free; records]?);
    Ok(list.map_err(|_| "1 to 4096 records are a list")?)
}

// Right 1 is for those whose grade covers the other's.
pub(crate) fn desk<C: CellStore + Drop>(store: C) -> Result<Desk<C>, Fail> {
    let scheme = read_scheme::<KioskScales>(&SCHEME)?;
    let mut masks = FilterMasks::none();
    masks.set(0, 2)?;
    Ok(Register::new(scheme, store, four_filters(masks)))
}

// Layer, number and place of a refusal.
pub(crate) fn told(fault: Fault) -> (u8, u8, u16) {
    (u8::from(fault.layer), u8::from(fault.reason), fault.place)
}

fn mask_in(cells: &[(Name, Name, Mask)], row: Name, column: Name) -> Mask {
    cells
        .iter()
        .find(|cell| cell.0 == row && cell.1 == column)
        .map_or(0, |cell| cell.2)
}

fn stamp_in(entries: &[(Name, Stamp)], name: Name) -> Option<Stamp> {
    entries
        .iter()
        .find(|entry| entry.0 == name)
        .map(|entry| entry.1)
}

// Whether these are all entries that stand, and all cells that are not empty.
pub(crate) fn holds_just<C: CellStore>(
    desk: &Desk<C>,
    entries: &[(Name, Stamp)],
    cells: &[(Name, Name, Mask)],
) -> bool {
    (0..NAMES).all(|row| {
        desk.entry(row) == stamp_in(entries, row)
            && (0..NAMES).all(|column| desk.cell(row, column) == mask_in(cells, row, column))
    })
}
