// Each refusal of the opening tape between two lawful rights, and what is accepted beside it.
use crate::samples::{accepts, between, refuses};
use std::alloc::Global;
use std::process::Abort;
use std::test::Fail;
use stores::board::Board;
use stores::store::CellStore;

// Each of these between two lawful rights is refused by this number.
fn all_refused<S: CellStore>(
    rt: &impl Abort,
    heap: Global,
    store: &mut S,
    number: u8,
    cases: &[&[u8]],
) -> Result<(), Fail> {
    for middle in cases {
        let tape = between(heap, middle)?;
        refuses(rt, tape.as_slice(), store, number, 16);
    }
    Ok(())
}

// No order, and orders of other tapes; at the end, operands that are cut off.
#[test]
fn no_order(rt: HostRuntime) -> Result<(), Fail> {
    let mut memory = [7; 4096];
    let mut board = Board::new(&mut memory)
        .ok()
        .ok_or("4096 masks are a board")?;
    let cases: [&[u8]; 3] = [&[0x43], &[0x1F], &[0x50, 1, 0, 0, 0, 0]];
    all_refused(&rt, rt.alloc(), &mut board, 2, &cases)?;
    refuses(&rt, &[0x40, 9, 0xFF, 0xFF, 0xFF], &mut board, 2, 0);
    refuses(&rt, &[0x40, 9, 0, 0, 0, 0, 0x42, 0, 9], &mut board, 2, 6);
    Ok(())
}

// The length is looked at before any order.
#[test]
fn long_tapes(rt: HostRuntime) -> Result<(), Fail> {
    let mut memory = [7; 4096];
    let mut board = Board::new(&mut memory)
        .ok()
        .ok_or("4096 masks are a board")?;
    let longest = [0].repeat(rt.alloc(), 65535)?;
    refuses(&rt, longest.as_slice(), &mut board, 2, 0);
    let longer = [0].repeat(rt.alloc(), 65536)?;
    refuses(&rt, longer.as_slice(), &mut board, 1, 65535);
    Ok(())
}

// Names from 64 on, rights from 16 on, and values that are not of their own scale; 5 comes before 7.
#[test]
fn out_of_range(rt: HostRuntime) -> Result<(), Fail> {
    let mut memory = [7; 4096];
    let mut board = Board::new(&mut memory)
        .ok()
        .ok_or("4096 masks are a board")?;
    let cases: [&[u8]; 11] = [
        &[0x40, 64, 0, 0, 0, 0],
        &[0x41, 64, 0, 0, 0, 0],
        &[0x40, 63, 8, 0, 0, 0],
        &[0x41, 63, 0, 16, 0, 0],
        &[0x40, 63, 0, 0, 16, 0],
        &[0x41, 63, 0, 0, 0, 8],
        &[0x41, 63, 0, 0, 0, 0xFE],
        &[0x40, 0, 8, 0, 0, 0],
        &[0x42, 16, 0, 1],
        &[0x42, 0, 64, 1],
        &[0x42, 0, 0, 64],
    ];
    all_refused(&rt, rt.alloc(), &mut board, 5, &cases)
}

// Names that stand, rows that are no cards, and entries that are not there.
#[test]
fn unfit_references(rt: HostRuntime) -> Result<(), Fail> {
    let mut memory = [7; 4096];
    let mut board = Board::new(&mut memory)
        .ok()
        .ok_or("4096 masks are a board")?;
    let cases: [&[u8]; 6] = [
        &[0x40, 0, 0, 0, 0, 0],
        &[0x41, 0, 0, 0, 0, 0],
        &[0x40, 1, 0, 0, 0, 0],
        &[0x42, 0, 1, 0],
        &[0x42, 0, 2, 0],
        &[0x42, 0, 0, 2],
    ];
    all_refused(&rt, rt.alloc(), &mut board, 7, &cases)
}

// What stands beside the refusals: the last names, rights and values, null, and nothing.
#[test]
fn accepted(rt: HostRuntime) -> Result<(), Fail> {
    let mut memory = [7; 4096];
    let mut board = Board::new(&mut memory)
        .ok()
        .ok_or("4096 masks are a board")?;
    let heap = rt.alloc();
    accepts(&rt, &[], &mut board, 0, 0);
    accepts(&rt, between(heap, &[])?.as_slice(), &mut board, 2, 1);
    let last = [0x40, 63, 7, 15, 15, 7, 0x42, 15, 63, 63, 0x42, 0, 0, 0];
    accepts(&rt, between(heap, &last)?.as_slice(), &mut board, 3, 3);
    let null = [0x41, 62, 0xFF, 0xFF, 0xFF, 0xFF, 0x42, 0, 0, 62];
    accepts(&rt, between(heap, &null)?.as_slice(), &mut board, 3, 2);
    Ok(())
}
