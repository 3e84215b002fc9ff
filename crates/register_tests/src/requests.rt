// What accepted requests leave.
use crate::samples::{
    CELLS, Desk, ENTRIES, HELPER, LABEL_AND_TAKE_AWAY, LENDER, MAKE_HELPER, MAKE_OWNER, MOVE_ON,
    OPENING, TAKE_AWAY, THING, board, desk, holds_just, list,
};
use model::kind::Kind;
use model::stamp::Stamp;
use std::process::Abort;
use std::test::Fail;
use stores::store::CellStore;

const OWNER: Stamp = Stamp {
    kind: Kind::Subject,
    attributes: [None; 4],
};

// A name is used again, and nothing is left of the entry that it had: no right, no right on itself, no attribute.
fn uses_again<C: CellStore>(rt: &impl Abort, register: &mut Desk<C>) {
    assert!(rt; register.open(&OPENING).is_ok());
    assert!(rt; register.request(MAKE_OWNER, &[0, 63]) == Ok(1));
    let owned = [(0, 2, 1), (0, 1, 2), (63, 63, 32), (63, 0, 32), (0, 63, 32)];
    let with_owner = [(0, LENDER), (1, HELPER), (2, THING), (63, OWNER)];
    assert!(rt; holds_just(register, &with_owner, &owned));
    assert!(rt; register.request(TAKE_AWAY, &[63]) == Ok(2));
    assert!(rt; holds_just(register, &ENTRIES, &CELLS));
    assert!(rt; register.request(MAKE_HELPER, &[0, 63]) == Ok(3));
    let with_helper = [(0, LENDER), (1, HELPER), (2, THING), (63, HELPER)];
    assert!(rt; holds_just(register, &with_helper, &CELLS) && register.accepted() == 3);
}

#[test]
fn again(rt: HostRuntime) -> Result<(), Fail> {
    uses_again(&rt, &mut desk(board(&mut [7; 4096])?)?);
    uses_again(&rt, &mut desk(list(rt.alloc(), 5)?)?);
    Ok(())
}

// Two records are full after the opening. Each request fills a third cell on its way, and has emptied one at its end.
#[test]
fn over_the_limit_on_the_way(rt: HostRuntime) -> Result<(), Fail> {
    let mut register = desk(list(rt.alloc(), 2)?)?;
    assert!(rt; register.open(&OPENING).is_ok());
    assert!(rt; register.request(MOVE_ON, &[0, 1, 2]) == Ok(1));
    assert!(rt; holds_just(&register, &ENTRIES, &[(1, 2, 1), (0, 1, 2)]));
    assert!(rt; register.request(LABEL_AND_TAKE_AWAY, &[0, 2]) == Ok(2));
    assert!(rt; holds_just(&register, &[(0, LENDER), (1, HELPER)], &[(0, 1, 2)]));
    Ok(())
}
