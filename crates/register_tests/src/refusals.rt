// Each number that refuses a request, at its place, where the rules before it are kept. Nothing changes then.
use crate::samples::{
    CELLS, Desk, ENTRIES, HAND_ON, MAKE_HELPER, MOVE_ON, OPENING, TAKE_AWAY, board, desk,
    holds_just, list, told,
};
use model::name::Name;
use std::process::Abort;
use std::test::Fail;
use stores::store::CellStore;

// A command's number and names, and by which number and at which place they are refused.
type Case<'a> = (u8, &'a [Name], u8, u16);

// Each rule is broken alone, where it can be, and then together with one that comes later.
const CASES: [Case<'static>; 17] = [
    (6, &[0], 9, 0),
    (255, &[64, 64], 9, 0),
    (HAND_ON, &[0, 1], 10, 0),
    (TAKE_AWAY, &[64, 64], 10, 0),
    (MAKE_HELPER, &[0, 64], 11, 1),
    (HAND_ON, &[63, 63, 255], 11, 2),
    (MOVE_ON, &[0, 1, 1], 12, 2),
    (MAKE_HELPER, &[63, 63], 12, 1),
    (MAKE_HELPER, &[0, 1], 13, 1),
    (MAKE_HELPER, &[63, 62], 13, 0),
    (TAKE_AWAY, &[63], 13, 0),
    (HAND_ON, &[2, 1, 63], 13, 2),
    (MOVE_ON, &[0, 2, 1], 14, 1),
    (HAND_ON, &[2, 1, 0], 14, 0),
    (MAKE_HELPER, &[2, 63], 14, 0),
    (HAND_ON, &[1, 0, 2], 15, 0),
    (MAKE_HELPER, &[1, 63], 15, 0),
];

fn refuses_each<C: CellStore>(rt: &impl Abort, register: &mut Desk<C>) {
    assert!(rt; register.open(&OPENING).is_ok());
    for (command, names, number, place) in CASES {
        let answer = register.request(command, names).map_err(told);
        assert!(rt;
            answer == Err((5, number, place)),
            "command {command} by {number} at {place}"
        );
        assert!(rt; holds_just(register, &ENTRIES, &CELLS) && register.accepted() == 0);
    }
}

#[test]
fn all_rules_but_the_limit(rt: HostRuntime) -> Result<(), Fail> {
    refuses_each(&rt, &mut desk(board(&mut [7; 4096])?)?);
    refuses_each(&rt, &mut desk(list(rt.alloc(), 2)?)?);
    Ok(())
}

// The second test is the first that fails.
fn second_test<C: CellStore>(rt: &impl Abort, register: &mut Desk<C>) {
    assert!(rt; register.open(&OPENING).is_ok());
    assert!(rt; register.request(HAND_ON, &[0, 1, 2]) == Ok(1));
    assert!(rt; register.request(HAND_ON, &[1, 0, 2]).map_err(told) == Err((5, 15, 1)));
    assert!(rt; holds_just(register, &ENTRIES, &[(0, 2, 1), (0, 1, 2), (1, 2, 1)]));
    assert!(rt; register.accepted() == 1);
}

#[test]
fn failing_second(rt: HostRuntime) -> Result<(), Fail> {
    second_test(&rt, &mut desk(board(&mut [7; 4096])?)?);
    second_test(&rt, &mut desk(list(rt.alloc(), 3)?)?);
    Ok(())
}

// Two records are full after the opening.
#[test]
fn limit(rt: HostRuntime) -> Result<(), Fail> {
    let mut register = desk(list(rt.alloc(), 2)?)?;
    assert!(rt; register.open(&OPENING).is_ok());
    assert!(rt; register.request(HAND_ON, &[0, 1, 2]).map_err(told) == Err((5, 16, 0)));
    assert!(rt; holds_just(&register, &ENTRIES, &CELLS) && register.accepted() == 0);
    // Where a test fails too, the test comes first.
    assert!(rt; register.request(MOVE_ON, &[0, 1, 2]) == Ok(1));
    assert!(rt; register.request(HAND_ON, &[1, 0, 2]).map_err(told) == Err((5, 15, 1)));
    Ok(())
}
