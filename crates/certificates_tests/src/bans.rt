// What ban tapes say, and each refusal of them.
use crate::samples::{bans_refusal, between, counts};
use certificates::ban::{Ban, Sort};
use certificates::ban_reader::read_bans;
use model::stamp::{Attribute, Value};
use std::alloc::Global;
use std::process::Abort;
use std::test::Fail;

// A ban, which takes 6 bytes.
const BAN: [u8; 6] = [0x60, 15, 0, 7, 3, 7];

fn sort(attribute: Attribute, value: Option<Value>) -> Sort {
    Sort { attribute, value }
}

// Each of these between two bans is refused by this number.
fn all_refused(rt: &impl Abort, heap: Global, number: u8, cases: &[&[u8]]) -> Result<(), Fail> {
    for middle in cases {
        let tape = between(heap, &BAN, middle, &BAN)?;
        assert!(rt; bans_refusal(tape.as_slice()) == Some((4, number, 6)));
    }
    Ok(())
}

// Null is had where an attribute is null; a ban may be repeated, and the empty tape bans nothing.
#[test]
fn accepted(rt: HostRuntime) -> Result<(), Fail> {
    let bans = read_bans(&counts(), &[0x60, 1, 0, 1, 3, 7, 0x60, 15, 2, 15, 1, 0xFF])
        .ok()
        .ok_or("the tape is of two bans")?;
    let first = Ban {
        right: 1,
        row: sort(0, Some(1)),
        column: sort(3, Some(7)),
    };
    let second = Ban {
        right: 15,
        row: sort(2, Some(15)),
        column: sort(1, None),
    };
    assert!(rt; bans.bans() == [first, second].as_slice());
    assert!(rt; bans_refusal(&[]).is_none());
    let twice = between(rt.alloc(), &BAN, &BAN, &[])?;
    assert!(rt; bans_refusal(twice.as_slice()).is_none());
    Ok(())
}

// No order, and orders of other tapes; at the end, operands that are cut off.
#[test]
fn no_order(rt: HostRuntime) -> Result<(), Fail> {
    let cases: [&[u8]; 4] = [&[0x61], &[0x1F], &[0x42, 0, 0, 0], &[0x50, 1, 0, 0, 0, 0]];
    all_refused(&rt, rt.alloc(), 2, &cases)?;
    assert!(rt; bans_refusal(&[0x60, 0, 0, 0, 0]) == Some((4, 2, 0)));
    Ok(())
}

// The length is looked at before any order.
#[test]
fn long_tapes(rt: HostRuntime) -> Result<(), Fail> {
    let longest = [0].repeat(rt.alloc(), 65535)?;
    assert!(rt; bans_refusal(longest.as_slice()) == Some((4, 2, 0)));
    let longer = [0].repeat(rt.alloc(), 65536)?;
    assert!(rt; bans_refusal(longer.as_slice()) == Some((4, 1, 65535)));
    Ok(())
}

// 16 bans are accepted, and no 17th, whatever its operands are.
#[test]
fn too_many(rt: HostRuntime) -> Result<(), Fail> {
    let heap = rt.alloc();
    let full = BAN.repeat(heap, 16)?;
    assert!(rt; bans_refusal(full.as_slice()).is_none());
    let cases: [&[u8]; 2] = [&BAN, &[0x60, 16, 4, 8, 4, 8]];
    for last in cases {
        let tape = between(heap, full.as_slice(), last, &[])?;
        assert!(rt; bans_refusal(tape.as_slice()) == Some((4, 4, 96)));
    }
    Ok(())
}

// Rights from 16 on, attributes from 4 on, where null is none too, and values that are not of their own scale.
#[test]
fn out_of_range(rt: HostRuntime) -> Result<(), Fail> {
    let cases: [&[u8]; 9] = [
        &[0x60, 16, 0, 0, 0, 0],
        &[0x60, 0, 4, 0, 0, 0],
        &[0x60, 0, 0, 0, 4, 0],
        &[0x60, 0, 4, 0xFF, 0, 0],
        &[0x60, 0, 0, 0, 4, 0xFF],
        &[0x60, 0, 0, 8, 1, 8],
        &[0x60, 0, 1, 8, 0, 8],
        &[0x60, 0, 2, 16, 0, 0],
        &[0x60, 0, 0, 0, 3, 0xFE],
    ];
    all_refused(&rt, rt.alloc(), 5, &cases)
}
