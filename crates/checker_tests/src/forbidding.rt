// A certificate that meets a ban: the lowest one, and the stamps that meet it.
use crate::samples::{
    CERTIFICATE, HELPER, LENDER, LIST_HELPER, LIST_LENDER, LIST_THING, OPENING, RIGHT_0, RIGHT_1,
    SCHEME, THING, accepts, desk, refuses, tape,
};
use checker::check::witness;
use checker::flaw::Flaw;
use std::test::Fail;

#[test]
fn lowest(rt: HostRuntime) -> Result<(), Fail> {
    let mut memory = [7; 4096];
    let register = desk(&SCHEME, &mut memory, &OPENING)?;
    refuses(&rt, &register, &CERTIFICATE, &RIGHT_0, (6, 19, 0));
    let second = tape(rt.alloc(), &[&RIGHT_1, &RIGHT_0, &RIGHT_1, &RIGHT_0])?;
    refuses(&rt, &register, &CERTIFICATE, second.as_slice(), (6, 19, 1));
    let met = Flaw::BanMet {
        ban: 1,
        row: HELPER,
        column: THING,
    };
    assert!(rt; witness(&register, &CERTIFICATE, second.as_slice()) == Some(met));
    Ok(())
}

// A card on one of the same stamp. What is allowed to it on itself is closed under the commands of the kiosk: they hand on right 0 alone.
#[test]
fn equal_stamps(rt: HostRuntime) -> Result<(), Fail> {
    let mut memory = [7; 4096];
    let register = desk(&SCHEME, &mut memory, &OPENING)?;
    let on_itself = tape(rt.alloc(), &[&CERTIFICATE, &[0x51, 0, 0, 0x80, 0]])?;
    refuses(
        &rt,
        &register,
        on_itself.as_slice(),
        &[0x60, 15, 0, 3, 0, 3],
        (6, 19, 0),
    );
    let met = Flaw::BanMet {
        ban: 0,
        row: LENDER,
        column: LENDER,
    };
    assert!(rt; witness(&register, on_itself.as_slice(), &[0x60, 15, 0, 3, 0, 3]) == Some(met));
    accepts(
        &rt,
        &register,
        on_itself.as_slice(),
        &[0x60, 15, 0, 3, 0, 1],
    );
    accepts(
        &rt,
        &register,
        on_itself.as_slice(),
        &[0x60, 14, 0, 3, 0, 3],
    );
    Ok(())
}

// Row and column are told apart, each by its own attribute, and null is a value of its own. Only cards are rows.
#[test]
fn sorts(rt: HostRuntime) -> Result<(), Fail> {
    let mut memory = [7; 4096];
    let register = desk(&[], &mut memory, &[])?;
    // A card of grade 3 and one of label 1, which has right 4 on the first.
    let labelled = [
        0x50, 1, 3, 0xFF, 0xFF, 0xFF, 0x50, 1, 0xFF, 1, 0xFF, 0xFF, 0x51, 1, 0, 0, 0x10,
    ];
    refuses(
        &rt,
        &register,
        &labelled,
        &[0x60, 4, 1, 1, 0, 3],
        (6, 19, 0),
    );
    refuses(
        &rt,
        &register,
        &labelled,
        &[0x60, 4, 0, 0xFF, 1, 0xFF],
        (6, 19, 0),
    );
    accepts(&rt, &register, &labelled, &[0x60, 4, 0, 3, 1, 1]);
    accepts(&rt, &register, &labelled, &[0x60, 4, 1, 0xFF, 0, 3]);
    accepts(&rt, &register, &labelled, &[0x60, 4, 1, 1, 0, 0xFF]);
    let unlisted = tape(rt.alloc(), &[&LIST_HELPER, &LIST_LENDER, &LIST_THING])?;
    accepts(&rt, &register, unlisted.as_slice(), &RIGHT_0);
    Ok(())
}
