// What is made, byte by byte.
use crate::samples::{
    FULL, LIST_CARD, LIST_THING, OPENING, RIGHT_0, RIGHT_1, SCHEME, desk, makes, makes_into, tape,
};
use std::test::Fail;

// The small kiosk's certificate: the stamps of its three entries, and then the pairs of each.
const CERTIFICATE: [u8; 33] = [
    0x50, 1, 3, 0xFF, 0xFF, 0xFF, 0x50, 1, 1, 0xFF, 0xFF, 0xFF, 0x50, 2, 0xFF, 0xFF, 0xFF, 0xFF,
    0x51, 0, 1, 0, 2, 0x51, 0, 2, 0, 1, 0x51, 1, 2, 0, 1,
];

#[test]
fn small_kiosk(rt: HostRuntime) -> Result<(), Fail> {
    let mut memory = [7; 4096];
    let register = desk(&SCHEME, &mut memory, &OPENING)?;
    makes(&rt, &register, &RIGHT_1, &CERTIFICATE)?;
    makes(&rt, &register, &[], &CERTIFICATE)
}

// The rest of a buffer is left, however long it is.
#[test]
fn sizes(rt: HostRuntime) -> Result<(), Fail> {
    let mut memory = [7; 4096];
    let register = desk(&SCHEME, &mut memory, &OPENING)?;
    makes_into(&rt, FULL, &register, &RIGHT_1, &CERTIFICATE)?;
    makes_into(&rt, FULL + 1, &register, &RIGHT_1, &CERTIFICATE)?;
    makes_into(&rt, 6000, &register, &RIGHT_1, &CERTIFICATE)
}

// Where nothing stands and nothing is created, nothing is listed. Bans have nothing to meet then.
#[test]
fn nothing(rt: HostRuntime) -> Result<(), Fail> {
    let mut memory = [7; 4096];
    let register = desk(&SCHEME, &mut memory, &[])?;
    makes(&rt, &register, &RIGHT_0, &[])
}

// Where nothing stands, the stamps of what commands create are listed: first a card, then one that is given a grade, and a thing.
#[test]
fn created(rt: HostRuntime) -> Result<(), Fail> {
    let mut memory = [7; 4096];
    let creating = [
        0x10, 1, 1, 0x33, 0, 0x1F, 0x10, 2, 1, 0x33, 0, 0x33, 1, 0x32, 0, 0, 5, 0x1F,
    ];
    let register = desk(&creating, &mut memory, &[])?;
    let stamps = tape(
        rt.alloc(),
        &[&LIST_CARD, &[0x50, 1, 5, 0xFF, 0xFF, 0xFF], &LIST_THING],
    )?;
    makes(&rt, &register, &[], stamps.as_slice())
}

// Two entries of one stamp are listed once, and what they hold adds up. What is taken away is looked at no longer.
#[test]
fn standing(rt: HostRuntime) -> Result<(), Fail> {
    let mut memory = [7; 4096];
    let opening = tape(
        rt.alloc(),
        &[
            &OPENING,
            &[
                0x40, 63, 3, 0xFF, 0xFF, 0xFF, 0x42, 15, 63, 0, 0x42, 8, 63, 2,
            ],
        ],
    )?;
    let mut register = desk(&SCHEME, &mut memory, opening.as_slice())?;
    let all = tape(
        rt.alloc(),
        &[
            CERTIFICATE.split_at(18).0,
            &[
                0x51, 0, 0, 0x80, 0, 0x51, 0, 1, 0, 2, 0x51, 0, 2, 1, 1, 0x51, 1, 2, 0, 1,
            ],
        ],
    )?;
    makes(&rt, &register, &[], all.as_slice())?;
    register.request(2, &[63])?;
    makes(&rt, &register, &[], &CERTIFICATE)?;
    Ok(())
}
