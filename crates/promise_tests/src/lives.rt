// Lives of the small kiosk.
use crate::kiosk::{
    CERTIFICATE, HAND_ON, HELPER, LENDER, OPENING, RIGHT_0, RIGHT_1, TAKE_AWAY, THING, begun,
};
use model::fault::{Fault, Layer, Reason};
use promise::calls::{check, make, open, request, rule};
use std::test::Fail;

// A refusal by this rule, at place 0.
fn refused_by(layer: Layer, reason: Reason) -> Fault {
    Fault {
        layer,
        reason,
        place: 0,
    }
}

// What was accepted is accepted after each request, done or refused.
#[test]
fn accepted_for_good(rt: HostRuntime) -> Result<(), Fail> {
    let mut memory = [7; 4096];
    let mut kiosk = begun(&mut memory)?;
    open(&mut kiosk, &OPENING)?;
    check(&kiosk, &CERTIFICATE, &RIGHT_1)?;
    assert!(rt; !rule(&kiosk, HELPER, THING, 0));
    assert!(rt; request(&mut kiosk, HAND_ON, &[LENDER, HELPER, THING]) == Ok(1));
    assert!(rt; rule(&kiosk, HELPER, THING, 0));
    check(&kiosk, &CERTIFICATE, &RIGHT_1)?;
    assert!(rt; request(&mut kiosk, TAKE_AWAY, &[LENDER]) == Ok(2));
    assert!(rt;
        request(&mut kiosk, TAKE_AWAY, &[LENDER])
            == Err(refused_by(Layer::Register, Reason::WrongPresence))
    );
    check(&kiosk, &CERTIFICATE, &RIGHT_1)?;
    assert!(rt; !rule(&kiosk, LENDER, THING, 0));
    Ok(())
}

// A check accepts what is made, and the rest of the buffer is as it was. Where a ban is met, nothing is made.
#[test]
fn made(rt: HostRuntime) -> Result<(), Fail> {
    let mut memory = [7; 4096];
    let mut kiosk = begun(&mut memory)?;
    open(&mut kiosk, &OPENING)?;
    let mut buffer = [0xAA; 5312];
    assert!(rt;
        make(&kiosk, &RIGHT_0, &mut buffer)
            == Err(refused_by(Layer::Checker, Reason::NoCertificate))
    );
    assert!(rt; buffer == [0xAA; 5312]);
    assert!(rt; make(&kiosk, &RIGHT_1, &mut buffer) == Ok(33));
    let (tape, rest) = buffer.split_at_checked(33).ok_or("33 bytes of 5312")?;
    assert!(rt; rest.iter().all(|byte| *byte == 0xAA));
    check(&kiosk, tape, &RIGHT_1)?;
    assert!(rt; check(&kiosk, tape, &RIGHT_0) == Err(refused_by(Layer::Checker, Reason::BanMet)));
    Ok(())
}

// A refused opening leaves nothing standing: no request finds an entry, and the least certificate lists nothing.
#[test]
fn refused_opening(rt: HostRuntime) -> Result<(), Fail> {
    let mut memory = [7; 4096];
    let mut kiosk = begun(&mut memory)?;
    open(&mut kiosk, &OPENING)?;
    let cut_off = Fault {
        layer: Layer::Opening,
        reason: Reason::NoOrder,
        place: 22,
    };
    assert!(rt; open(&mut kiosk, &OPENING[..25]) == Err(cut_off));
    assert!(rt; !rule(&kiosk, LENDER, THING, 0));
    assert!(rt;
        request(&mut kiosk, TAKE_AWAY, &[THING])
            == Err(refused_by(Layer::Register, Reason::WrongPresence))
    );
    let mut buffer = [0xAA; 5312];
    assert!(rt; make(&kiosk, &RIGHT_0, &mut buffer) == Ok(0));
    check(&kiosk, &[], &RIGHT_0)?;
    Ok(())
}
