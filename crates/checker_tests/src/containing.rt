// A register that is not contained: the lowest name at fault, by its stamp or by its row.
use crate::samples::{
    HELPER_ON_THING, LENDER_ON_HELPER, LENDER_ON_THING, LIST_HELPER, LIST_LENDER, LIST_THING,
    OPENING, SCHEME, desk, refuses, tape,
};
use checker::check::witness;
use checker::flaw::{Flaw, Stray};
use std::test::Fail;

// The first entry whose stamp is not listed, up to the last name.
#[test]
fn by_stamp(rt: HostRuntime) -> Result<(), Fail> {
    let mut memory = [7; 4096];
    let opening = [
        0x40, 0, 3, 0xFF, 0xFF, 0xFF, 0x41, 2, 0xFF, 0xFF, 0xFF, 0xFF, 0x40, 63, 1, 0xFF, 0xFF,
        0xFF,
    ];
    let register = desk(&SCHEME, &mut memory, &opening)?;
    refuses(&rt, &register, &[], &[], (6, 17, 0));
    refuses(&rt, &register, &LIST_LENDER, &[], (6, 17, 2));
    let all_but_one = tape(rt.alloc(), &[&LIST_LENDER, &LIST_THING])?;
    refuses(&rt, &register, all_but_one.as_slice(), &[], (6, 17, 63));
    assert!(rt;
        witness(&register, all_but_one.as_slice(), &[])
            == Some(Flaw::NotContained(Stray::Unlisted(63)))
    );
    Ok(())
}

// The row of a name comes before the stamp of a higher one.
#[test]
fn by_row(rt: HostRuntime) -> Result<(), Fail> {
    let mut memory = [7; 4096];
    let register = desk(&SCHEME, &mut memory, &OPENING)?;
    let no_helper = tape(
        rt.alloc(),
        &[&LIST_LENDER, &LIST_THING, &[0x51, 0, 1, 0, 1]],
    )?;
    refuses(&rt, &register, no_helper.as_slice(), &[], (6, 17, 0));
    let stray = Stray::Cell {
        row: 0,
        column: 1,
        right: 1,
    };
    assert!(rt; witness(&register, no_helper.as_slice(), &[]) == Some(Flaw::NotContained(stray)));
    Ok(())
}

// Each right of a cell must be allowed, and in its direction.
#[test]
fn rights(rt: HostRuntime) -> Result<(), Fail> {
    let mut memory = [7; 4096];
    let register = desk(&SCHEME, &mut memory, &OPENING)?;
    let wrong_right = tape(
        rt.alloc(),
        &[
            &LIST_LENDER,
            &LIST_HELPER,
            &LIST_THING,
            &LENDER_ON_THING,
            &HELPER_ON_THING,
            &[0x51, 0, 1, 0xFF, 0xFD],
        ],
    )?;
    refuses(&rt, &register, wrong_right.as_slice(), &[], (6, 17, 0));
    let turned = tape(
        rt.alloc(),
        &[
            &LIST_LENDER,
            &LIST_HELPER,
            &LIST_THING,
            &LENDER_ON_HELPER,
            &HELPER_ON_THING,
            &[0x51, 1, 0, 0, 1],
        ],
    )?;
    refuses(&rt, &register, turned.as_slice(), &[], (6, 17, 0));
    Ok(())
}
