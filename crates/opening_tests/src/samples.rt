// Tapes for the tests, and what the kiosk's reader says of them.
use model::counts::Counts;
use model::labels::Labels;
use model::ladder::Ladder;
use model::name::NAMES;
use opening::reader::read_opening;
use protection::entries::Entries;
use std::alloc::{AllocError, Global};
use std::process::Abort;
use stores::store::CellStore;

// The small kiosk: two cards of grades 3 and 1, a thing, and two rights of the first card.
pub const SMALL_KIOSK: [u8; 26] = [
    0x40, 0, 3, 0xFF, 0xFF, 0xFF, 0x40, 1, 1, 0xFF, 0xFF, 0xFF, 0x41, 2, 0xFF, 0xFF, 0xFF, 0xFF,
    0x42, 0, 0, 2, 0x42, 1, 0, 1,
];

// A card 0, a thing 1, and a right of the card on the thing: lawful beginnings of 16 bytes.
const BEGINNING: [u8; 16] = [
    0x40, 0, 7, 15, 15, 7, 0x41, 1, 0xFF, 0xFF, 0xFF, 0xFF, 0x42, 5, 0, 1,
];

// Another right of the card on the thing.
const END: [u8; 4] = [0x42, 6, 0, 1];

// The bytes between two rights; they stand at place 16.
pub(crate) fn between(heap: Global, middle: &[u8]) -> Result<Vec<u8>, AllocError> {
    let mut tape = BEGINNING.to_vec(heap)?;
    tape.extend_from_slice(middle)?;
    tape.extend_from_slice(&END)?;
    Ok(tape)
}

// What the kiosk's reader answers: nothing where it accepts, else the fault's layer, number and place.
pub(crate) fn open<S: CellStore>(
    tape: &[u8],
    entries: &mut Entries,
    store: &mut S,
) -> Result<(), (u8, u8, u16)> {
    let counts = Counts::of::<Ladder, Labels, Labels, Ladder>();
    read_opening(&counts, tape, entries, store).map_err(|fault| {
        (u8::from(fault.layer), u8::from(fault.reason), fault.place)
    })
}

// How many entries stand.
pub(crate) fn standing(entries: &Entries) -> usize {
    (0..NAMES)
        .filter(|name| entries.get(*name).is_some())
        .count()
}

// The tape is accepted, and so many entries and cells stand.
pub(crate) fn accepts<S: CellStore>(
    rt: &impl Abort,
    tape: &[u8],
    store: &mut S,
    entries: usize,
    cells: usize,
) {
    let mut table = Entries::none();
    assert!(rt; open(tape, &mut table, store) == Ok(()));
    assert!(rt; standing(&table) == entries && store.filled() == cells);
}

// The tape is refused in layer 2, by this number and at this place, and nothing stands, whatever did before.
pub(crate) fn refuses<S: CellStore>(
    rt: &impl Abort,
    tape: &[u8],
    store: &mut S,
    number: u8,
    place: u16,
) {
    let mut table = Entries::none();
    assert!(rt; open(&BEGINNING, &mut table, store) == Ok(()));
    assert!(rt; standing(&table) == 2 && store.filled() == 1);
    assert!(rt; open(tape, &mut table, store) == Err((2, number, place)));
    assert!(rt; standing(&table) == 0 && store.filled() == 0);
}
