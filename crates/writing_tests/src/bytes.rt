// The bytes of small certificates.
use crate::samples::{certificate, is_written_as, stamp};
use model::kind::Kind;
use std::process::Abort;
use std::test::Fail;

// The small kiosk: cards of grades 3 and 1, a thing, and what the cards may hold, listed in another order than it is written.
#[test]
fn small_kiosk(rt: HostRuntime) -> Result<(), Fail> {
    let high = stamp(Kind::Subject, [Some(3), None, None, None]);
    let low = stamp(Kind::Subject, [Some(1), None, None, None]);
    let thing = stamp(Kind::Object, [None; 4]);
    let kiosk = certificate(&[high, low, thing], &[(1, 2, 1), (0, 2, 1), (0, 1, 2)])?;
    assert!(rt;
        is_written_as(
            &kiosk,
            &[
                0x50, 1, 3, 0xFF, 0xFF, 0xFF, 0x50, 1, 1, 0xFF, 0xFF, 0xFF, 0x50, 2, 0xFF, 0xFF,
                0xFF, 0xFF, 0x51, 0, 1, 0, 2, 0x51, 0, 2, 0, 1, 0x51, 1, 2, 0, 1,
            ]
        )
    );
    Ok(())
}

#[test]
fn nothing(rt: HostRuntime) -> Result<(), Fail> {
    assert!(rt; is_written_as(&certificate(&[], &[])?, &[]));
    Ok(())
}

// The attributes in their order, and the greatest values of the scales.
#[test]
fn stamps_alone(rt: HostRuntime) -> Result<(), Fail> {
    let thing = stamp(Kind::Object, [Some(7), Some(15), Some(0), None]);
    let card = stamp(Kind::Subject, [None, Some(1), Some(2), Some(3)]);
    assert!(rt;
        is_written_as(
            &certificate(&[thing, card], &[])?,
            &[0x50, 2, 7, 15, 0, 0xFF, 0x50, 1, 0xFF, 1, 2, 3,]
        )
    );
    Ok(())
}

// The high byte first, masks of one pair added up, equal stamps, and no order for an empty mask.
#[test]
fn masks(rt: HostRuntime) -> Result<(), Fail> {
    let card = stamp(Kind::Subject, [None; 4]);
    let thing = stamp(Kind::Object, [None; 4]);
    let rights = certificate(
        &[card, thing],
        &[(0, 0, 0x8001), (0, 1, 0x0200), (0, 1, 0x0003)],
    )?;
    assert!(rt;
        is_written_as(
            &rights,
            &[
                0x50, 1, 0xFF, 0xFF, 0xFF, 0xFF, 0x50, 2, 0xFF, 0xFF, 0xFF, 0xFF, 0x51, 0, 0, 0x80,
                1, 0x51, 0, 1, 2, 3,
            ]
        )
    );
    let empty = certificate(&[card, thing], &[(0, 1, 0)])?;
    assert!(rt;
        is_written_as(
            &empty,
            &[
                0x50, 1, 0xFF, 0xFF, 0xFF, 0xFF, 0x50, 2, 0xFF, 0xFF, 0xFF, 0xFF,
            ]
        )
    );
    Ok(())
}
