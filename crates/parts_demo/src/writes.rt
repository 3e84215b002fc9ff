// Writes to a store, and what it answers.
ghost use Rattle.std.specs.Prelude.{◌≡◌, if◌then◌else◌, codes};

use model::mask::Mask;
use model::name::Name;
use std::io;
use stores::store::CellStore;
use words::mask::MaskDigits;

// Row, column and mask of each write.
const WRITES: [(Name, Name, Mask); 8] = [
    (0, 1, 0x0003),
    (63, 63, 0x8000),
    (1, 0, 0x0001),
    (0, 1, 0x0007),
    (0, 1, 0x0000),
    (1, 0, 0x0001),
    (64, 0, 0x0001),
    (0, 64, 0x0000),
];

// `bool` is not ours, so a `Display` would take a type of its own for two words.
pub(crate) fn yes_or_no(answer: bool) -> &'static str
    ensures { result.now ≡ (if answer then codes "yes" else codes "no") }
{
    if answer { "yes" } else { "no" }
}

// The same writes whatever the store: only its limit makes a difference.
pub(crate) fn show_store<S: CellStore>(rt: &HostRuntime, store: &mut S) -> io::Result<()> {
    let limit = store.limit();
    println!(rt; "  at most {limit} cells that are not empty")?;
    for (row, column, mask) in WRITES {
        let taken = yes_or_no(store.write(row, column, mask).is_ok());
        let written = MaskDigits(mask);
        let held = MaskDigits(store.read(row, column));
        let filled = store.filled();
        println!(rt;
            "  write {written} to [{row}, {column}]: {taken}; it reads {held}, and {filled} are not empty"
        )?;
    }
    store.clear();
    let filled = store.filled();
    println!(rt; "  cleared: {filled} are not empty")
}
