// What the ruling allows, and what numbers that are no names have.
use crate::samples::{Desk, board, desk, list};
use model::mask::Right;
use model::name::Name;
use std::process::Abort;
use std::test::Fail;
use stores::store::CellStore;

// A card of grade 3, one of grade 1 and a thing. Both cards have right 1 on each other, the first also on the thing, and there
// rights 0 and 15 too.
const OPENING: [u8; 38] = [
    0x40, 0, 3, 0xFF, 0xFF, 0xFF, 0x40, 1, 1, 0xFF, 0xFF, 0xFF, 0x41, 2, 0xFF, 0xFF, 0xFF, 0xFF,
    0x42, 1, 0, 1, 0x42, 1, 1, 0, 0x42, 1, 0, 2, 0x42, 0, 0, 2, 0x42, 15, 0, 2,
];

const ALLOWED: [(Name, Name, Right); 3] = [(0, 1, 1), (0, 2, 0), (0, 2, 15)];

// By the filter, since a lower grade does not cover a higher one, and null is covered by nothing; by the cell; by the bounds of
// rights; by entries that are not there; by the bounds of names.
const DENIED: [(Name, Name, Right); 11] = [
    (1, 0, 1),
    (0, 2, 1),
    (0, 1, 0),
    (0, 2, 14),
    (0, 2, 16),
    (0, 2, 255),
    (0, 3, 1),
    (3, 0, 1),
    (0, 65, 1),
    (64, 1, 1),
    (255, 255, 1),
];

fn rules<C: CellStore>(rt: &impl Abort, register: &mut Desk<C>) {
    assert!(rt; register.open(&OPENING).is_ok());
    for (row, column, right) in ALLOWED {
        assert!(rt;
            register.allows(row, column, right),
            "{row} {column} {right}"
        );
    }
    for (row, column, right) in DENIED {
        assert!(rt;
            !register.allows(row, column, right),
            "{row} {column} {right}"
        );
    }
    for none in [64, 66, 128, 255] {
        assert!(rt; register.entry(none).is_none());
        assert!(rt; register.cell(none, 1) == 0 && register.cell(0, none) == 0);
    }
}

#[test]
fn ruling(rt: HostRuntime) -> Result<(), Fail> {
    rules(&rt, &mut desk(board(&mut [7; 4096])?)?);
    rules(&rt, &mut desk(list(rt.alloc(), 3)?)?);
    Ok(())
}
