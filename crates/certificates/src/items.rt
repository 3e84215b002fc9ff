// Taking in one item of a certificate, or refusing it by the lowest rule that it breaks and leaving all as it was.
ghost use Rattle.std.specs.Prelude.{◌≡◌, cond, ◌&&◌, Some, None, slice_index};
ghost use Rattle.model.specs.declared.counts.Counts.{Counts};
ghost use Rattle.model.specs.Answers.{refused_by, unless};
ghost use Rattle.model.specs.Counts.{in_scales};
ghost use Rattle.tapes.specs.Values.{value_at};
ghost use Rattle.certificates.specs.Items.{kind_of, stamp_by, mask_of, with_item};
ghost use Rattle.certificates.specs.Rules.{is_kind};
ghost use Rattle.certificates.specs.Said.{stamp_read, allow_read, rule};
ghost use Rattle.certificates.specs.Views.{certificate_of};

use crate::certificate::{Certificate, STAMPS};
use model::counts::Counts;
use model::fault::Reason;
use model::kind::Kind;
use model::mask::Mask;
use model::stamp::Stamp;
use tapes::value::value_read;

// The kind of a number, where it is one's. A `TryFrom` would name an error that none looks at.
fn kind_read(number: u8) -> Option<Kind>
    ensures { result ≡ cond (is_kind number) (Some (kind_of number)) None }
{
    match number {
        1 => Some(Kind::Subject),
        2 => Some(Kind::Object),
        _ => None,
    }
}

// The stamp with these operands, where each of them is in range.
fn stamp_in_range(counts: &Counts, operands: &[u8; 5]) -> Option<Stamp>
    ensures { let x = operands.now in let s = stamp_by (slice_index x 0) (value_at x 1) (value_at x 2) (value_at x 3) (value_at x 4) in result ≡ cond (is_kind (slice_index x 0) && in_scales counts.now s) (Some s) None }
{
    let &[kind, a, b, c, d] = operands;
    let stamp = Stamp {
        kind: kind_read(kind)?,
        attributes: [value_read(a), value_read(b), value_read(c), value_read(d)],
    };
    counts.is_in_scales(&stamp).then_some(stamp)
}

// A stamp more, where there is room and it is not listed yet.
pub(crate) fn add_stamp(
    counts: &Counts,
    operands: &[u8; 5],
    certificate: &mut Certificate,
) -> Result<(), Reason>
    ensures answer { refused_by result ≡ rule counts.now (certificate_of certificate.old) (stamp_read operands.now) }
    ensures after { certificate_of certificate.new ≡ unless (refused_by result) (certificate_of certificate.old) (with_item (certificate_of certificate.old) (stamp_read operands.now)) }
{
    if certificate.stamps().len() >= STAMPS {
        return Err(Reason::TooMany);
    }
    let stamp = stamp_in_range(counts, operands).ok_or(Reason::OutOfRange)?;
    certificate.list(stamp)
}

// The mask of two bytes.
fn mask_read(high: u8, low: u8) -> Mask
    ensures { result ≡ mask_of high low }
{
    256 * Mask::from(high) + Mask::from(low)
}

// What a listed card's stamp is allowed on a listed stamp, in addition to what it is allowed already.
pub(crate) fn add_mask(operands: &[u8; 4], certificate: &mut Certificate) -> Result<(), Reason>
    ensures answer { (counts : Counts) → refused_by result ≡ rule counts (certificate_of certificate.old) (allow_read operands.now) }
    ensures after { certificate_of certificate.new ≡ unless (refused_by result) (certificate_of certificate.old) (with_item (certificate_of certificate.old) (allow_read operands.now)) }
{
    let &[u, v, high, low] = operands;
    certificate.allow(usize::from(u), usize::from(v), mask_read(high, low))
}
