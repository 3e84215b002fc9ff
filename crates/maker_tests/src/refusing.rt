// Refusals, each with the buffer untouched.
use crate::samples::{
    FULL, OPENING, RIGHT_0, RIGHT_1, SCHEME, desk, makes, refuses, refuses_into, tape,
};
use std::alloc::{AllocError, Global};
use std::test::Fail;

// A fault of the ban tape is passed up whole, before the buffer is looked at.
#[test]
fn bans(rt: HostRuntime) -> Result<(), Fail> {
    let mut memory = [7; 4096];
    let register = desk(&SCHEME, &mut memory, &OPENING)?;
    let over = tape(rt.alloc(), &[&RIGHT_0, &[0x60, 16, 0, 1, 0, 1]])?;
    refuses(&rt, &register, over.as_slice(), (4, 5, 6))?;
    refuses_into(&rt, 0, &register, over.as_slice(), (4, 5, 6))?;
    refuses(&rt, &register, &[0x50], (4, 2, 0))
}

// The size comes before all that is made.
#[test]
fn small_buffers(rt: HostRuntime) -> Result<(), Fail> {
    let mut memory = [7; 4096];
    let register = desk(&SCHEME, &mut memory, &OPENING)?;
    refuses_into(&rt, FULL - 1, &register, &RIGHT_1, (6, 20, 0))?;
    refuses_into(&rt, FULL - 1, &register, &RIGHT_0, (6, 20, 0))?;
    refuses_into(&rt, 33, &register, &RIGHT_1, (6, 20, 0))?;
    refuses_into(&rt, 0, &register, &RIGHT_1, (6, 20, 0))
}

// Even what is empty needs room for any.
#[test]
fn small_for_nothing(rt: HostRuntime) -> Result<(), Fail> {
    let mut memory = [7; 4096];
    let register = desk(&[], &mut memory, &[])?;
    refuses_into(&rt, FULL - 1, &register, &[], (6, 20, 0))
}

// A ban that the least certificate meets, be it the second. There is no place in it.
#[test]
fn met(rt: HostRuntime) -> Result<(), Fail> {
    let mut memory = [7; 4096];
    let register = desk(&SCHEME, &mut memory, &OPENING)?;
    refuses(&rt, &register, &RIGHT_0, (6, 21, 0))?;
    refuses_into(&rt, 6000, &register, &RIGHT_0, (6, 21, 0))?;
    let second = tape(rt.alloc(), &[&RIGHT_1, &RIGHT_0])?;
    refuses(&rt, &register, second.as_slice(), (6, 21, 0))
}

// This many things, no two of them alike, as an opening tape and as the stamps of a certificate.
fn things(heap: Global, count: u8) -> Result<Vec<u8>, AllocError> {
    let mut bytes = Vec::new(heap);
    for name in 0..count {
        bytes.extend_from_slice(&[0x41, name, 0xFF, name % 16, name / 16, 0xFF])?;
    }
    Ok(bytes)
}

fn stamps(heap: Global, count: u8) -> Result<Vec<u8>, AllocError> {
    let mut bytes = Vec::new(heap);
    for name in 0..count {
        bytes.extend_from_slice(&[0x50, 2, 0xFF, name % 16, name / 16, 0xFF])?;
    }
    Ok(bytes)
}

// 32 stamps are listed, and no certificate lists 33.
#[test]
fn many_stand(rt: HostRuntime) -> Result<(), Fail> {
    let mut memory = [7; 4096];
    let register = desk(&[], &mut memory, things(rt.alloc(), 32)?.as_slice())?;
    makes(&rt, &register, &[], stamps(rt.alloc(), 32)?.as_slice())?;
    let mut memory = [7; 4096];
    let register = desk(&[], &mut memory, things(rt.alloc(), 33)?.as_slice())?;
    refuses(&rt, &register, &[], (6, 21, 0))
}

// The 33rd may come of a command.
#[test]
fn many_created(rt: HostRuntime) -> Result<(), Fail> {
    let mut memory = [7; 4096];
    let creating = [0x10, 1, 0, 0x33, 0, 0x1F];
    let register = desk(&creating, &mut memory, things(rt.alloc(), 32)?.as_slice())?;
    refuses(&rt, &register, &[], (6, 21, 0))
}
