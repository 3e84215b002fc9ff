// Writing what a certificate allows.
ghost use Rattle.std.specs.Prelude.{◌+◌, ◌<◌, ◌≤◌, length};
ghost use Rattle.certificates.specs.Views.{certificate_of};
ghost use Rattle.writing.specs.Buffers.{Put, bytes_of};
ghost use Rattle.writing.specs.Writing.{mask_items, items_below, row_items, full_row, full_masks};

use crate::buffer::put;
use crate::orders::allow_bytes;
use certificates::certificate::Certificate;
use model::mask::Mask;

// Puts what says that the stamp with number `u` is allowed this mask on the stamp with number `v`, and tells the place after
// it. An empty mask is not written.
fn write_mask(buffer: &mut [u8], at: usize, u: usize, v: usize, mask: Mask) -> usize
    requires row { u < 32 }
    requires column { v < 32 }
    requires room { at + 5 ≤ length buffer.old }
    ensures { Put at (bytes_of (mask_items u v mask)) buffer.old result buffer.new }
{
    if mask == 0 {
        return at;
    }
    put(buffer, at, &allow_bytes(u, v, mask))
}

// The same of each stamp `v`, by their numbers.
fn write_row(certificate: &Certificate, buffer: &mut [u8], start: usize, u: usize) -> usize
    requires row { u < 32 }
    requires room { start + full_row ≤ length buffer.old }
    ensures { Put start (bytes_of (row_items (certificate_of certificate.now) u)) buffer.old result buffer.new }
{
    let mut at = start;
    for v in 0..certificate.stamps().len() {
        let mask = certificate.between_numbers(Some(u), Some(v));
        at = write_mask(buffer, at, u, v, mask);
    }
    at
}

// The same of each stamp `u`, by their numbers.
pub(crate) fn write_masks(certificate: &Certificate, buffer: &mut [u8], start: usize) -> usize
    requires room { start + full_masks ≤ length buffer.old }
    ensures { Put start (bytes_of (items_below (row_items (certificate_of certificate.now)) (length (certificate_of certificate.now).stamps))) buffer.old result buffer.new }
{
    let mut at = start;
    for u in 0..certificate.stamps().len() {
        at = write_row(certificate, buffer, at, u);
    }
    at
}
