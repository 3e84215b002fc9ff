// A certificate that is not closed: the lowest command with a casting that escapes.
use crate::samples::{
    CERTIFICATE, HELPER, LENDER, LENDER_ON_HELPER, LENDER_ON_THING, LIST_HELPER, LIST_LENDER,
    LIST_THING, OPENING, RIGHT_0, RIGHT_1, SCHEME, THING, desk, refuses, tape,
};
use castings::escape::{Breach, Escape};
use checker::check::witness;
use checker::flaw::Flaw;
use std::test::Fail;

// A card of grade 3 hands right 0 on to one of grade 1, and to one of grade 3.
#[test]
fn handed_on(rt: HostRuntime) -> Result<(), Fail> {
    let mut memory = [7; 4096];
    let register = desk(&SCHEME, &mut memory, &OPENING)?;
    let listed = tape(
        rt.alloc(),
        &[
            &LIST_LENDER,
            &LIST_HELPER,
            &LIST_THING,
            &LENDER_ON_THING,
            &LENDER_ON_HELPER,
        ],
    )?;
    refuses(&rt, &register, listed.as_slice(), &RIGHT_1, (6, 18, 0));
    let escape = Escape {
        stamps: [Some(LENDER), Some(HELPER), Some(THING)],
        breach: Breach::Cell {
            row: 1,
            column: 2,
            right: 0,
        },
    };
    assert!(rt;
        witness(&register, listed.as_slice(), &RIGHT_1)
            == Some(Flaw::NotClosed { command: 0, escape })
    );
    Ok(())
}

// Neither the second command nor the third is closed: one makes a card that is not listed, and one gives cards a grade.
const MAKING: [u8; 20] = [
    0x10, 1, 0, 0x34, 0, 0x1F, 0x10, 1, 1, 0x33, 0, 0x1F, 0x10, 1, 1, 0x32, 0, 0, 1, 0x1F,
];

#[test]
fn lowest(rt: HostRuntime) -> Result<(), Fail> {
    let mut memory = [7; 4096];
    let register = desk(&MAKING, &mut memory, &OPENING)?;
    refuses(&rt, &register, &CERTIFICATE, &RIGHT_1, (6, 18, 1));
    let escape = Escape {
        stamps: [None; 3],
        breach: Breach::Unlisted { parameter: 0 },
    };
    assert!(rt;
        witness(&register, &CERTIFICATE, &RIGHT_1) == Some(Flaw::NotClosed { command: 1, escape })
    );
    // The stamp that is made is listed: the third command comes next.
    let with_made = tape(
        rt.alloc(),
        &[
            &[0x50, 1, 0xFF, 0xFF, 0xFF, 0xFF],
            &LIST_LENDER,
            &LIST_HELPER,
            &LIST_THING,
            &[0x51, 1, 3, 0, 1],
            &[0x51, 1, 2, 0, 2],
            &[0x51, 2, 3, 0, 1],
        ],
    )?;
    refuses(&rt, &register, with_made.as_slice(), &RIGHT_1, (6, 18, 2));
    Ok(())
}

// A certificate that is closed under no command is refused for that even where nothing stands, and before any ban is looked at.
#[test]
fn before_bans(rt: HostRuntime) -> Result<(), Fail> {
    let mut memory = [7; 4096];
    let regrade = [0x10, 1, 1, 0x32, 0, 0, 1, 0x1F];
    let register = desk(&regrade, &mut memory, &[])?;
    refuses(&rt, &register, &CERTIFICATE, &RIGHT_1, (6, 18, 0));
    refuses(&rt, &register, &CERTIFICATE, &RIGHT_0, (6, 18, 0));
    Ok(())
}
