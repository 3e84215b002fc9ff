// The largest certificate: 32 cards, each with rights on all of them.
use crate::samples::{BEFORE, counts, stamp};
use certificates::certificate::Certificate;
use certificates::reader::read_certificate;
use model::kind::Kind;
use model::mask::Mask;
use std::process::Abort;
use std::test::Fail;
use writing::writer::{FULL_SIZE, write_certificate};

// What the stamp with number `u` is allowed on that with number `v`.
fn mask(u: u8, v: u8) -> Mask {
    0x8000 | Mask::from_be_bytes([u, v])
}

fn largest() -> Result<Certificate, Fail> {
    let mut certificate = Certificate::empty();
    for grade in 0..8u8 {
        for label in 0..4u8 {
            let card = stamp(Kind::Subject, [Some(grade), Some(label), None, None]);
            certificate.list(card).map_err(|_| "its stamps")?;
        }
    }
    for u in 0..32u8 {
        for v in 0..32u8 {
            certificate
                .allow(usize::from(u), usize::from(v), mask(u, v))
                .map_err(|_| "its masks")?;
        }
    }
    Ok(certificate)
}

#[test]
fn fills_the_buffer(rt: HostRuntime) -> Result<(), Fail> {
    let mut buffer = [BEFORE; FULL_SIZE];
    assert!(rt; FULL_SIZE == 5312);
    assert!(rt; write_certificate(&counts(), &largest()?, &mut buffer) == Some(5312));
    assert!(rt; buffer.starts_with(&[0x50, 1, 0, 0, 0xFF, 0xFF]));
    assert!(rt; buffer.ends_with(&[0x51, 31, 31, 0x9F, 31]));
    Ok(())
}

#[test]
fn reads_back(rt: HostRuntime) -> Result<(), Fail> {
    let certificate = largest()?;
    let mut buffer = [BEFORE; FULL_SIZE];
    assert!(rt; write_certificate(&counts(), &certificate, &mut buffer).is_some());
    let back = read_certificate(&counts(), &buffer)
        .ok()
        .ok_or("what is written is a certificate's")?;
    assert!(rt; back.stamps() == certificate.stamps());
    for u in 0..32u8 {
        for v in 0..32u8 {
            let read = back.between_numbers(Some(usize::from(u)), Some(usize::from(v)));
            assert!(rt; read == mask(u, v));
        }
    }
    Ok(())
}
