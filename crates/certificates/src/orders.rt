// Taking in the orders of a certificate tape.
ghost use Rattle.std.specs.Prelude.{◌≡◌};
ghost use Rattle.model.specs.Answers.{refused_by, unless, answer};
ghost use Rattle.tapes.specs.declared.tape.Tape.TheVariants.{Certificate as CertificateTape};
ghost use Rattle.tapes.specs.Taking.{taken};
ghost use Rattle.certificates.specs.Said.{said, broken_by, with_listed};
ghost use Rattle.certificates.specs.Views.{certificate_of};

use crate::certificate::Certificate;
use crate::items::{add_mask, add_stamp};
use model::counts::Counts;
use model::fault::{Fault, Layer, Reason};
use tapes::order::Order;
use tapes::reader::Placed;

// Take in one order, or refuse it by the lowest rule that it breaks and leave all as it was.
fn obey(counts: &Counts, order: Order, certificate: &mut Certificate) -> Result<(), Reason>
    ensures answer { refused_by result ≡ broken_by counts.now (certificate_of certificate.old) (said order.entry) }
    ensures after { certificate_of certificate.new ≡ unless (refused_by result) (certificate_of certificate.old) (with_listed (certificate_of certificate.old) (said order.entry)) }
{
    match order {
        Order::Stamp(operands) => add_stamp(counts, operands, certificate),
        Order::Allow(operands) => add_mask(operands, certificate),
        // An order of another tape is not handed on; it would be out of place.
        _ => Err(Reason::OutOfPlace),
    }
}

// The same, where a refusal has the order's offset as its place.
pub(crate) fn take_in(
    counts: &Counts,
    placed: Placed,
    certificate: &mut Certificate,
) -> Result<(), Fault>
    ensures answer { answer (λ _. tt) result ≡ taken CertificateTape placed.entry.offset (broken_by counts.now (certificate_of certificate.old) (said placed.entry.order)) }
    ensures after { certificate_of certificate.new ≡ unless (broken_by counts.now (certificate_of certificate.old) (said placed.entry.order)) (certificate_of certificate.old) (with_listed (certificate_of certificate.old) (said placed.entry.order)) }
{
    obey(counts, placed.order, certificate).map_err(|reason| Fault {
        layer: Layer::Certificate,
        reason,
        place: placed.offset,
    })
}
