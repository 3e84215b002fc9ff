// What is accepted, and that nothing changes.
use crate::samples::{
    CERTIFICATE, Desk, HELPER, LENDER, LIST_HELPER, LIST_LENDER, LIST_THING, OPENING, RIGHT_0,
    RIGHT_1, SCHEME, THING, accepts, desk, refuses, tape,
};
use checker::check::witness;
use model::name::NAMES;
use std::process::Abort;
use std::test::Fail;
use stores::store::CellStore;

// The worked check of the small kiosk, and that there is no witness for it; without bans too.
#[test]
fn small_kiosk(rt: HostRuntime) -> Result<(), Fail> {
    let mut memory = [7; 4096];
    let register = desk(&SCHEME, &mut memory, &OPENING)?;
    accepts(&rt, &register, &CERTIFICATE, &RIGHT_1);
    assert!(rt; witness(&register, &CERTIFICATE, &RIGHT_1).is_none());
    accepts(&rt, &register, &CERTIFICATE, &[]);
    Ok(())
}

// Where nothing stands, nothing has to be listed.
#[test]
fn nothing(rt: HostRuntime) -> Result<(), Fail> {
    let mut memory = [7; 4096];
    let register = desk(&SCHEME, &mut memory, &[])?;
    accepts(&rt, &register, &[], &RIGHT_0);
    let stamps = tape(rt.alloc(), &[&LIST_LENDER, &LIST_HELPER, &LIST_THING])?;
    accepts(&rt, &register, stamps.as_slice(), &RIGHT_0);
    Ok(())
}

fn is_as_opened<C: CellStore>(register: &Desk<C>) -> bool {
    register.entry(0) == Some(LENDER)
        && register.entry(1) == Some(HELPER)
        && register.entry(2) == Some(THING)
        && (3..NAMES).all(|name| register.entry(name).is_none())
        && register.cell(0, 1) == 2
        && register.cell(0, 2) == 1
        && register.accepted() == 0
}

// Whatever is answered, the register is as it was.
#[test]
fn unchanged(rt: HostRuntime) -> Result<(), Fail> {
    let mut memory = [7; 4096];
    let register = desk(&SCHEME, &mut memory, &OPENING)?;
    accepts(&rt, &register, &CERTIFICATE, &RIGHT_1);
    assert!(rt; is_as_opened(&register));
    refuses(&rt, &register, &CERTIFICATE, &RIGHT_0, (6, 19, 0));
    assert!(rt; is_as_opened(&register));
    refuses(&rt, &register, &[], &RIGHT_0, (6, 17, 0));
    assert!(rt; is_as_opened(&register));
    Ok(())
}
