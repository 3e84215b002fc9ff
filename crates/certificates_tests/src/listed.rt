// What accepted certificate tapes list and allow.
use crate::samples::{certificate_refusal, counts};
use certificates::certificate::Certificate;
use certificates::reader::read_certificate;
use model::kind::Kind;
use model::mask::Mask;
use model::stamp::{Stamp, Value};
use std::process::Abort;
use std::test::Fail;

// The small kiosk: cards of grades 3 and 1, a thing, and what the cards may hold.
const SMALL_KIOSK: [u8; 33] = [
    0x50, 1, 3, 0xFF, 0xFF, 0xFF, 0x50, 1, 1, 0xFF, 0xFF, 0xFF, 0x50, 2, 0xFF, 0xFF, 0xFF, 0xFF,
    0x51, 0, 2, 0, 1, 0x51, 0, 1, 0, 2, 0x51, 1, 2, 0, 1,
];

// The kind with this grade, and null as all other attributes.
fn of_grade(kind: Kind, grade: Option<Value>) -> Stamp {
    Stamp {
        kind,
        attributes: [grade, None, None, None],
    }
}

// What the stamps with these numbers are allowed.
fn mask(certificate: &Certificate, u: usize, v: usize) -> Mask {
    certificate.between_numbers(Some(u), Some(v))
}

fn read(tape: &[u8]) -> Result<Certificate, Fail> {
    let certificate = read_certificate(&counts(), tape)
        .ok()
        .ok_or("the tape is a certificate's")?;
    Ok(certificate)
}

#[test]
fn small_kiosk(rt: HostRuntime) -> Result<(), Fail> {
    let certificate = read(&SMALL_KIOSK)?;
    let high = of_grade(Kind::Subject, Some(3));
    let low = of_grade(Kind::Subject, Some(1));
    let thing = of_grade(Kind::Object, None);
    assert!(rt; certificate.stamps() == [high, low, thing].as_slice());
    assert!(rt; certificate.allows(&high, &thing) == 1);
    assert!(rt; certificate.allows(&high, &low) == 2);
    assert!(rt; certificate.allows(&low, &thing) == 1);
    assert!(rt; certificate.allows(&high, &high) == 0);
    assert!(rt; certificate.allows(&low, &high) == 0);
    assert!(rt; certificate.allows(&thing, &thing) == 0);
    Ok(())
}

// The empty tape lists nothing and allows nothing.
#[test]
fn empty(rt: HostRuntime) -> Result<(), Fail> {
    let certificate = read(&[])?;
    assert!(rt; certificate.stamps().is_empty());
    assert!(rt; mask(&certificate, 0, 0) == 0);
    Ok(())
}

// Masks add up, an empty one adds nothing, and the high byte comes first. A stamp may come after an allowance.
#[test]
fn masks_add_up(rt: HostRuntime) -> Result<(), Fail> {
    let certificate = read(&[
        0x50, 1, 0, 0, 0, 0, 0x51, 0, 0, 0, 0, 0x50, 2, 0xFF, 0xFF, 0xFF, 0xFF, 0x51, 0, 1, 0x81,
        3, 0x51, 0, 1, 0, 5, 0x51, 0, 1, 0, 0,
    ])?;
    assert!(rt; certificate.stamps().len() == 2);
    assert!(rt; mask(&certificate, 0, 0) == 0);
    assert!(rt; mask(&certificate, 0, 1) == 0x8107);
    assert!(rt; mask(&certificate, 1, 0) == 0);
    Ok(())
}

// The last values, null, and two stamps that differ in one thing alone.
#[test]
fn accepted(rt: HostRuntime) -> Result<(), Fail> {
    assert!(rt; certificate_refusal(&[0x50, 1, 7, 15, 15, 7]).is_none());
    assert!(rt; certificate_refusal(&[0x50, 2, 7, 15, 15, 7]).is_none());
    assert!(rt; certificate_refusal(&[0x50, 1, 0, 0, 0, 0, 0x50, 2, 0, 0, 0, 0]).is_none());
    assert!(rt; certificate_refusal(&[0x50, 1, 0, 0, 0, 0, 0x50, 1, 0xFF, 0, 0, 0]).is_none());
    assert!(rt; certificate_refusal(&[0x50, 1, 0, 0, 0, 0, 0x50, 1, 0, 0, 0, 1]).is_none());
    Ok(())
}
