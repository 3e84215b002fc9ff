// Faults of the tapes are passed up whole, that of the certificate first, and before anything is judged.
use crate::samples::{CERTIFICATE, OPENING, RIGHT_0, RIGHT_1, SCHEME, desk, refuses, tape};
use checker::check::witness;
use std::test::Fail;

#[test]
fn certificate(rt: HostRuntime) -> Result<(), Fail> {
    let mut memory = [7; 4096];
    let register = desk(&SCHEME, &mut memory, &OPENING)?;
    refuses(&rt, &register, &[0x60], &RIGHT_1, (3, 2, 0));
    let twice = tape(rt.alloc(), &[&CERTIFICATE, &CERTIFICATE])?;
    refuses(&rt, &register, twice.as_slice(), &RIGHT_1, (3, 7, 33));
    refuses(&rt, &register, twice.as_slice(), &[0x50], (3, 7, 33));
    assert!(rt; witness(&register, twice.as_slice(), &RIGHT_1).is_none());
    Ok(())
}

#[test]
fn bans(rt: HostRuntime) -> Result<(), Fail> {
    let mut memory = [7; 4096];
    let register = desk(&SCHEME, &mut memory, &OPENING)?;
    let over = tape(rt.alloc(), &[&RIGHT_0, &[0x60, 16, 0, 1, 0, 1]])?;
    refuses(&rt, &register, &CERTIFICATE, over.as_slice(), (4, 5, 6));
    refuses(&rt, &register, &[], over.as_slice(), (4, 5, 6));
    assert!(rt; witness(&register, &[], over.as_slice()).is_none());
    Ok(())
}

// 17 comes before 18, and 18 before 19.
#[test]
fn order(rt: HostRuntime) -> Result<(), Fail> {
    let mut memory = [7; 4096];
    let regrade = [0x10, 1, 1, 0x32, 0, 0, 1, 0x1F];
    let register = desk(&regrade, &mut memory, &OPENING)?;
    refuses(&rt, &register, &CERTIFICATE, &RIGHT_0, (6, 18, 0));
    let less = CERTIFICATE.split_at(28).0;
    refuses(&rt, &register, less, &RIGHT_0, (6, 18, 0));
    let least = CERTIFICATE.split_at(23).0;
    refuses(&rt, &register, least, &RIGHT_0, (6, 17, 0));
    Ok(())
}
