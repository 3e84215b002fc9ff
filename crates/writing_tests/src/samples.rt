// Certificates for the tests, and what is written for them.
use certificates::certificate::Certificate;
use model::counts::Counts;
use model::kind::Kind;
use model::labels::Labels;
use model::ladder::Ladder;
use model::mask::Mask;
use model::stamp::{Stamp, Value};
use std::test::Fail;
use writing::writer::{FULL_SIZE, write_certificate};

// What stands in a buffer before anything is written.
pub(crate) const BEFORE: u8 = 0xAA;

pub(crate) fn counts() -> Counts {
    Counts::of::<Ladder, Labels, Labels, Ladder>()
}

pub(crate) const fn stamp(kind: Kind, attributes: [Option<Value>; 4]) -> Stamp {
    Stamp { kind, attributes }
}

// These stamps, and each of these masks between two of them.
pub(crate) fn certificate(
    stamps: &[Stamp],
    masks: &[(usize, usize, Mask)],
) -> Result<Certificate, Fail> {
    let mut certificate = Certificate::empty();
    for stamp in stamps {
        certificate.list(*stamp).map_err(|_| "its stamps")?;
    }
    for (u, v, mask) in masks {
        certificate.allow(*u, *v, *mask).map_err(|_| "its masks")?;
    }
    Ok(certificate)
}

// Whether these bytes are written for it, and nothing after them.
pub(crate) fn is_written_as(certificate: &Certificate, bytes: &[u8]) -> bool {
    let mut buffer = [BEFORE; FULL_SIZE];
    let written = write_certificate(&counts(), certificate, &mut buffer);
    written == Some(bytes.len())
        && buffer.starts_with(bytes)
        && buffer.iter().skip(bytes.len()).all(|byte| *byte == BEFORE)
}
