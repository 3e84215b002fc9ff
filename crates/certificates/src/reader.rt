// The certificate reader.
ghost use Rattle.std.specs.Prelude.{List};
ghost use Rattle.model.specs.Answers.{answer};
ghost use Rattle.certificates.specs.Items.{Item, listed_by};
ghost use Rattle.certificates.specs.Listing.{ListedExactly};
ghost use Rattle.certificates.specs.Reading.{CertificateRead, AcceptedExactly, OneReading};
ghost use Rattle.certificates.specs.Views.{certificate_of};
ghost use Rattle.certificates.specs.Worked.{SmallKiosk};

use crate::certificate::Certificate;
use crate::orders::take_in;
use model::counts::Counts;
use model::fault::Fault;
use tapes::orders::Orders;
use tapes::tape::Tape;

// Take in the orders of the tape one by one, up to the first that breaks a rule.
fn read_orders(counts: &Counts, tape: &[u8]) -> Result<Certificate, Fault>
    ensures { CertificateRead counts.now tape.now (answer certificate_of result) }
{
    let mut certificate = Certificate::empty();
    for placed in Orders::of(tape, Tape::Certificate)? {
        take_in(counts, placed?, &mut certificate)?;
    }
    Ok(certificate)
}

// The certificate that the tape stands for, or the first rule that it breaks.
#[tactic(auto, using(crate::proofs::Readings::one_reading, crate::proofs::Listing::listed_exactly, crate::proofs::Worked::small_kiosk))]
pub fn read_certificate(counts: &Counts, tape: &[u8]) -> Result<Certificate, Fault>
    ensures reading { CertificateRead counts.now tape.now (answer certificate_of result) }
    ensures exact { AcceptedExactly counts.now tape.now (answer certificate_of result) }
    ensures law { OneReading counts.now }
    ensures listed { (items : List Item) → ListedExactly items (listed_by items) }
    ensures worked { SmallKiosk }
{
    read_orders(counts, tape)
}
