// Writing a certificate.
ghost use Rattle.std.specs.Prelude.{◌≡◌, MatchOption};
ghost use Rattle.certificates.specs.Views.{certificate_of};
ghost use Rattle.writing.specs.Writing.{Unwritable, WrittenInto};

use crate::masks::write_masks;
use crate::orders::{ALLOW_SIZE, STAMP_SIZE};
use crate::scales::are_in_scales;
use crate::stamps::write_stamps;
use certificates::certificate::{Certificate, STAMPS};
use model::counts::Counts;

// How many bytes the largest certificate takes: all stamps, and a mask of each two of them.
pub const FULL_SIZE: usize = STAMPS * STAMP_SIZE + STAMPS * STAMPS * ALLOW_SIZE;

// Writes the bytes that list the certificate at the front of the buffer, and tells how many they are; or refuses and writes
// nothing where the buffer has less room than the largest certificate takes, or a stamp is not in its scales.
pub fn write_certificate(
    counts: &Counts,
    certificate: &Certificate,
    buffer: &mut [u8],
) -> Option<usize>
    ensures writes { MatchOption result (Unwritable counts.now (certificate_of certificate.now) buffer.old × (buffer.new ≡ buffer.old)) (λ n. WrittenInto counts.now (certificate_of certificate.now) buffer.old n buffer.new) }
{
    if buffer.len() < FULL_SIZE {
        return None;
    }
    if !are_in_scales(counts, certificate) {
        return None;
    }
    let at = write_stamps(certificate, buffer);
    Some(write_masks(certificate, buffer, at))
}
