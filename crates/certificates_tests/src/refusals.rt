// Each refusal of the certificate tape.
use crate::samples::{between, certificate_refusal};
use std::alloc::{AllocError, Global};
use std::process::Abort;
use std::test::Fail;

// A card 0, a thing 1, and what the card is allowed on the thing: lawful beginnings of 17 bytes.
const BEGINNING: [u8; 17] = [
    0x50, 1, 7, 15, 15, 7, 0x50, 2, 0xFF, 0xFF, 0xFF, 0xFF, 0x51, 0, 1, 0, 1,
];

const END: [u8; 5] = [0x51, 0, 0, 0, 1];

// Each of these after the lawful beginnings is refused by this number.
fn all_refused(rt: &impl Abort, heap: Global, number: u8, cases: &[&[u8]]) -> Result<(), Fail> {
    for middle in cases {
        let tape = between(heap, &BEGINNING, middle, &END)?;
        assert!(rt; certificate_refusal(tape.as_slice()) == Some((3, number, 17)));
    }
    Ok(())
}

// No order, and orders of other tapes; at the end, operands that are cut off.
#[test]
fn no_order(rt: HostRuntime) -> Result<(), Fail> {
    let cases: [&[u8]; 4] = [
        &[0x52],
        &[0x1F],
        &[0x40, 9, 0, 0, 0, 0],
        &[0x60, 0, 0, 0, 0, 0],
    ];
    all_refused(&rt, rt.alloc(), 2, &cases)?;
    assert!(rt; certificate_refusal(&[0x50, 1, 0, 0, 0]) == Some((3, 2, 0)));
    assert!(rt; certificate_refusal(&[0x50, 1, 0, 0, 0, 0, 0x51, 0, 0, 0]) == Some((3, 2, 6)));
    Ok(())
}

// The length is looked at before any order.
#[test]
fn long_tapes(rt: HostRuntime) -> Result<(), Fail> {
    let longest = [0].repeat(rt.alloc(), 65535)?;
    assert!(rt; certificate_refusal(longest.as_slice()) == Some((3, 2, 0)));
    let longer = [0].repeat(rt.alloc(), 65536)?;
    assert!(rt; certificate_refusal(longer.as_slice()) == Some((3, 1, 65535)));
    Ok(())
}

// A tape of 32 stamps, which takes 192 bytes.
fn many(heap: Global) -> Result<Vec<u8>, AllocError> {
    let mut tape = [].to_vec(heap)?;
    for a in 0..8u8 {
        for b in 0..4u8 {
            tape.extend_from_slice(&[0x50, 1, a, b, 0, 0])?;
        }
    }
    Ok(tape)
}

// 32 stamps are accepted, and no 33rd, whatever its operands are.
#[test]
fn too_many(rt: HostRuntime) -> Result<(), Fail> {
    let heap = rt.alloc();
    let full = many(heap)?;
    assert!(rt; certificate_refusal(full.as_slice()).is_none());
    let cases: [&[u8]; 3] = [
        &[0x50, 2, 0, 0, 0, 0],
        &[0x50, 3, 8, 0, 0, 0],
        &[0x50, 1, 0, 0, 0, 0],
    ];
    for last in cases {
        let tape = between(heap, full.as_slice(), last, &[])?;
        assert!(rt; certificate_refusal(tape.as_slice()) == Some((3, 4, 192)));
    }
    let allowed = between(heap, full.as_slice(), &[0x51, 31, 31, 0xFF, 0xFF], &[])?;
    assert!(rt; certificate_refusal(allowed.as_slice()).is_none());
    Ok(())
}

// Kinds, values that are not of their own scale, and numbers from 32 on; 5 comes before 7.
#[test]
fn out_of_range(rt: HostRuntime) -> Result<(), Fail> {
    let cases: [&[u8]; 11] = [
        &[0x50, 0, 0, 0, 0, 0],
        &[0x50, 3, 0, 0, 0, 0],
        &[0x50, 0xFF, 0, 0, 0, 0],
        &[0x50, 1, 8, 0, 0, 0],
        &[0x50, 2, 0, 16, 0, 0],
        &[0x50, 1, 0, 0, 16, 0],
        &[0x50, 2, 0, 0, 0, 8],
        &[0x50, 2, 0, 0, 0, 0xFE],
        &[0x51, 32, 0, 0, 0],
        &[0x51, 0, 32, 0, 0],
        &[0x51, 2, 0xFF, 0, 0],
    ];
    all_refused(&rt, rt.alloc(), 5, &cases)
}

// Stamps that are listed already, numbers of none so far, and rows that are no cards.
#[test]
fn unfit_references(rt: HostRuntime) -> Result<(), Fail> {
    let cases: [&[u8]; 6] = [
        &[0x50, 1, 7, 15, 15, 7],
        &[0x50, 2, 0xFF, 0xFF, 0xFF, 0xFF],
        &[0x51, 2, 0, 0, 1],
        &[0x51, 0, 2, 0, 1],
        &[0x51, 31, 31, 0, 0],
        &[0x51, 1, 0, 0, 0],
    ];
    all_refused(&rt, rt.alloc(), 7, &cases)
}
