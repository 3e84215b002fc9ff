// What an opening leaves, and each number that refuses one.
use crate::samples::{
    CELLS, COMMANDS, Desk, ENTRIES, OPENING, TAKE_AWAY, board, desk, holds_just, list, told,
};
use std::process::Abort;
use std::test::Fail;
use stores::store::CellStore;

// A register begins with nothing, whatever its store held, and each opening begins the count anew.
fn begins<C: CellStore + Drop>(rt: &impl Abort, mut store: C) -> Result<(), Fail> {
    assert!(rt; store.write(0, 2, 9).is_ok());
    let mut register = desk(store)?;
    assert!(rt; register.commands().len() == COMMANDS);
    assert!(rt; holds_just(&register, &[], &[]) && register.accepted() == 0);
    assert!(rt; register.open(&OPENING).is_ok());
    assert!(rt; holds_just(&register, &ENTRIES, &CELLS) && register.accepted() == 0);
    assert!(rt; register.request(TAKE_AWAY, &[0]) == Ok(1) && register.accepted() == 1);
    assert!(rt; register.open(&OPENING).is_ok());
    assert!(rt; holds_just(&register, &ENTRIES, &CELLS) && register.accepted() == 0);
    let store = register.into_store();
    assert!(rt; store.filled() == 2 && store.read(0, 2) == 1);
    Ok(())
}

#[test]
fn beginning(rt: HostRuntime) -> Result<(), Fail> {
    begins(&rt, board(&mut [7; 4096])?)?;
    begins(&rt, list(rt.alloc(), 2)?)
}

// Refused in layer 2, by this number and at this place, and nothing is left of what stood.
fn refuses<C: CellStore>(
    rt: &impl Abort,
    register: &mut Desk<C>,
    tape: &[u8],
    number: u8,
    place: u16,
) {
    assert!(rt; register.open(&OPENING).is_ok());
    assert!(rt; register.request(TAKE_AWAY, &[1]) == Ok(1));
    assert!(rt; register.open(tape).map_err(told) == Err((2, number, place)));
    assert!(rt; holds_just(register, &[], &[]) && register.accepted() == 0);
}

fn refuses_each<C: CellStore>(
    rt: &impl Abort,
    register: &mut Desk<C>,
    longest: &[u8],
    too_long: &[u8],
) {
    refuses(rt, register, too_long, 1, 65535);
    refuses(rt, register, longest, 2, 0);
    // An order of another tape, and one that is cut off after a card.
    refuses(rt, register, &[0x33, 0], 2, 0);
    refuses(
        rt,
        register,
        &[0x40, 0, 3, 0xFF, 0xFF, 0xFF, 0x42, 0, 0],
        2,
        6,
    );
    // A name, and a value of the first scale.
    refuses(rt, register, &[0x40, 64, 3, 0xFF, 0xFF, 0xFF], 5, 0);
    refuses(rt, register, &[0x40, 63, 8, 0xFF, 0xFF, 0xFF], 5, 0);
    // A name that is there already, and a thing as a row.
    refuses(
        rt,
        register,
        &[0x41, 0, 7, 15, 15, 7, 0x40, 0, 7, 15, 15, 7],
        7,
        6,
    );
    refuses(rt, register, &[0x41, 0, 7, 15, 15, 7, 0x42, 0, 0, 0], 7, 6);
}

#[test]
fn refusals(rt: HostRuntime) -> Result<(), Fail> {
    let longest = [0].repeat(rt.alloc(), 65535)?;
    let too_long = [0].repeat(rt.alloc(), 65536)?;
    let (longest, too_long) = (longest.as_slice(), too_long.as_slice());
    refuses_each(&rt, &mut desk(board(&mut [7; 4096])?)?, longest, too_long);
    refuses_each(&rt, &mut desk(list(rt.alloc(), 2)?)?, longest, too_long);
    Ok(())
}

// One record is too few for the second right of the small kiosk.
#[test]
fn one_record(rt: HostRuntime) -> Result<(), Fail> {
    let mut register = desk(list(rt.alloc(), 1)?)?;
    assert!(rt; register.open(&OPENING[..22]).is_ok());
    assert!(rt; holds_just(&register, &ENTRIES, &[(0, 2, 1)]));
    assert!(rt; register.request(TAKE_AWAY, &[1]) == Ok(1));
    assert!(rt; register.open(&OPENING).map_err(told) == Err((2, 8, 22)));
    assert!(rt; holds_just(&register, &[], &[]) && register.accepted() == 0);
    Ok(())
}
