// Writing the stamps of a certificate.
ghost use Rattle.std.specs.Prelude.{◌≤◌, length, map};
ghost use Rattle.certificates.specs.Views.{certificate_of};
ghost use Rattle.writing.specs.Buffers.{Put, bytes_of};
ghost use Rattle.writing.specs.Spelling.{AllSpelt};
ghost use Rattle.writing.specs.Writing.{full_size, stamp_item};

use crate::buffer::put;
use crate::orders::stamp_bytes;
use certificates::certificate::Certificate;

// Lists the stamps at the front of the buffer, and tells the place after them.
pub(crate) fn write_stamps(certificate: &Certificate, buffer: &mut [u8]) -> usize
    requires spelt { AllSpelt (certificate_of certificate.now) }
    requires room { full_size ≤ length buffer.old }
    ensures { Put 0 (bytes_of (map stamp_item (certificate_of certificate.now).stamps)) buffer.old result buffer.new }
{
    let mut at = 0;
    for stamp in certificate.stamps() {
        at = put(buffer, at, &stamp_bytes(stamp));
    }
    at
}
