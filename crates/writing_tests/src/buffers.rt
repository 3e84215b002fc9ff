// Buffers that are too small or larger than need be, and a stamp that no tape lists.
use crate::samples::{BEFORE, certificate, counts, stamp};
use model::kind::Kind;
use std::process::Abort;
use std::test::Fail;
use writing::writer::write_certificate;

fn is_untouched(buffer: &[u8]) -> bool {
    buffer.iter().all(|byte| *byte == BEFORE)
}

#[test]
fn one_byte_too_few(rt: HostRuntime) -> Result<(), Fail> {
    let card = certificate(&[stamp(Kind::Subject, [None; 4])], &[])?;
    let mut buffer = [BEFORE; 5311];
    assert!(rt; write_certificate(&counts(), &card, &mut buffer).is_none());
    assert!(rt; is_untouched(&buffer));
    Ok(())
}

// The rest of the buffer is left as it was, also past what any certificate takes.
#[test]
fn more_than_enough(rt: HostRuntime) -> Result<(), Fail> {
    let card = certificate(&[stamp(Kind::Subject, [None; 4])], &[])?;
    let mut buffer = [BEFORE; 5320];
    assert!(rt; write_certificate(&counts(), &card, &mut buffer) == Some(6));
    assert!(rt; buffer.starts_with(&[0x50, 1, 0xFF, 0xFF, 0xFF, 0xFF]));
    assert!(rt; is_untouched(&buffer[6..]));
    Ok(())
}

// A ladder of eight values has no value 8, and no scale has a value 255, whose byte is null's.
#[test]
fn out_of_scale(rt: HostRuntime) -> Result<(), Fail> {
    for value in [8, 255] {
        let fit = stamp(Kind::Subject, [Some(7), None, None, None]);
        let unfit = stamp(Kind::Object, [None, None, None, Some(value)]);
        let certificate = certificate(&[fit, unfit], &[])?;
        let mut buffer = [BEFORE; 5312];
        assert!(rt; write_certificate(&counts(), &certificate, &mut buffer).is_none());
        assert!(rt; is_untouched(&buffer));
    }
    Ok(())
}
