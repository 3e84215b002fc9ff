// What commands make of the register's own stamps and rights.
use crate::samples::{OPENING, desk, makes, tape};
use std::alloc::{AllocError, Global};
use std::test::Fail;

// A card, and a thing on which it has right 0.
const CARD_ON_THING: [u8; 16] = [
    0x40, 0, 3, 0xFF, 0xFF, 0xFF, 0x41, 1, 0xFF, 0xFF, 0xFF, 0xFF, 0x42, 0, 0, 1,
];

const LISTED: [u8; 12] = [
    0x50, 1, 3, 0xFF, 0xFF, 0xFF, 0x50, 2, 0xFF, 0xFF, 0xFF, 0xFF,
];

// Each right leads to the next, and the command of the last comes first: it takes a sweep for each.
#[test]
fn chain(rt: HostRuntime) -> Result<(), Fail> {
    let mut memory = [7; 4096];
    let falling = [
        0x10, 2, 1, 0x20, 2, 0, 1, 0x30, 15, 0, 1, 0x1F, 0x10, 2, 1, 0x20, 1, 0, 1, 0x30, 2, 0, 1,
        0x1F, 0x10, 2, 1, 0x20, 0, 0, 1, 0x30, 1, 0, 1, 0x1F,
    ];
    let register = desk(&falling, &mut memory, &CARD_ON_THING)?;
    let certificate = tape(rt.alloc(), &[&LISTED, &[0x51, 0, 1, 0x80, 7]])?;
    makes(&rt, &register, &[], certificate.as_slice())
}

// A right that is deleted was there before, so it stays allowed.
#[test]
fn deleted(rt: HostRuntime) -> Result<(), Fail> {
    let mut memory = [7; 4096];
    let deleting = [0x10, 2, 1, 0x31, 0, 0, 1, 0x1F];
    let register = desk(&deleting, &mut memory, &CARD_ON_THING)?;
    let certificate = tape(rt.alloc(), &[&LISTED, &[0x51, 0, 1, 0, 1]])?;
    makes(&rt, &register, &[], certificate.as_slice())
}

// Any card may become one of grade 1: it takes its own rights along, on the others and on cards like it.
#[test]
fn taken_along(rt: HostRuntime) -> Result<(), Fail> {
    let mut memory = [7; 4096];
    let regrade = [0x10, 1, 1, 0x32, 0, 0, 1, 0x1F];
    let register = desk(&regrade, &mut memory, &OPENING)?;
    let certificate = [
        0x50, 1, 3, 0xFF, 0xFF, 0xFF, 0x50, 1, 1, 0xFF, 0xFF, 0xFF, 0x50, 2, 0xFF, 0xFF, 0xFF,
        0xFF, 0x51, 0, 1, 0, 2, 0x51, 0, 2, 0, 1, 0x51, 1, 1, 0, 2, 0x51, 1, 2, 0, 1,
    ];
    makes(&rt, &register, &[], &certificate)
}

// What others are allowed on a thing they are allowed on it after it has changed, be it a stamp that no entry has yet.
#[test]
fn followed(rt: HostRuntime) -> Result<(), Fail> {
    let mut memory = [7; 4096];
    let shelve = [0x10, 1, 0, 0x22, 0, 0, 3, 0x32, 0, 1, 9, 0x1F];
    let register = desk(&shelve, &mut memory, &CARD_ON_THING)?;
    let certificate = tape(
        rt.alloc(),
        &[
            &LISTED,
            &[
                0x50, 2, 0xFF, 9, 0xFF, 0xFF, 0x51, 0, 1, 0, 1, 0x51, 0, 2, 0, 1,
            ],
        ],
    )?;
    makes(&rt, &register, &[], certificate.as_slice())
}

// Cards of eight grades by four values of attribute 3, as an opening tape.
fn cards(heap: Global) -> Result<Vec<u8>, AllocError> {
    let mut bytes = Vec::new(heap);
    for name in 0..32u8 {
        bytes.extend_from_slice(&[0x40, name, name % 8, 0xFF, 0xFF, name / 8])?;
    }
    Ok(bytes)
}

// The certificate that lists them, and allows right 0 of each on each.
fn largest(heap: Global) -> Result<Vec<u8>, AllocError> {
    let mut bytes = Vec::new(heap);
    for name in 0..32u8 {
        bytes.extend_from_slice(&[0x50, 1, name % 8, 0xFF, 0xFF, name / 8])?;
    }
    for u in 0..32u8 {
        for v in 0..32u8 {
            bytes.extend_from_slice(&[0x51, u, v, 0, 1])?;
        }
    }
    Ok(bytes)
}

// Any card may get right 0 on any: all 5,312 bytes are written.
#[test]
fn every_pair(rt: HostRuntime) -> Result<(), Fail> {
    let mut memory = [7; 4096];
    let handing = [0x10, 2, 3, 0x30, 0, 0, 1, 0x1F];
    let register = desk(&handing, &mut memory, cards(rt.alloc())?.as_slice())?;
    makes(&rt, &register, &[], largest(rt.alloc())?.as_slice())
}
